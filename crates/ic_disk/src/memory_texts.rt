ghost use Rattle.std.specs.Prelude.{◌≡◌, ◌↔◌, ◌≤◌, ◌++◌, [], ◌∷◌, ⊤, length, IfOk, IsTrue, Some, Err, option_copied};
ghost use Rattle.ic_disk.specs.Calls.{no_calls, after_call};
ghost use Rattle.ic_disk.specs.Causes.{Rose, IsTooLong};
ghost use Rattle.ic_disk.specs.Memory.{text_of, fails_to_read};
ghost use Rattle.ic_disk.specs.declared.texts.TextError.TheVariants.{Failed, TooLong, Memory};

use crate::byte_lists::ByteLists;
use crate::failing::Calls;
use crate::{TextError, Texts};
use ic_base::{Bytes, Word};
use std::alloc::{AllocError, Global};
use std::marker::Model;

/// Texts in memory, whose reads fail where they were told so.
#[derive(Drop)]
pub struct MemTexts {
    held: Vec<(Word, Bytes)>,
    calls: Calls,
    asked: ByteLists,
}

impl Model for MemTexts {
    ghost use Rattle.ic_disk.specs.Memory.{MemoryTexts};

    ghost Value = { MemoryTexts };

    ghost view = { λ s. record { held = s.held.items; calls = s.calls; asked = s.asked.lists } };
}

impl MemTexts {
    /// Names with their texts; of pairs with one name the first counts. The reads are counted from 1, and those
    /// whose number is in `failing` fail.
    pub fn new(
        alloc: Global,
        held: Vec<(Word, Bytes)>,
        failing: &[u64],
    ) -> Result<MemTexts, AllocError>
        ensures held { IfOk result (λ t. t.held ≡ held.items) }
        ensures calls { IfOk result (λ t. t.calls ≡ no_calls failing.now) }
        ensures asked { IfOk result (λ t. t.asked ≡ []) }
    {
        let calls = Calls::new(alloc, failing)?;
        Ok(MemTexts {
            held,
            calls,
            asked: ByteLists::new(),
        })
    }
}

fn find<'a>(held: &'a [(Word, Bytes)], name: &Word) -> Option<&'a Bytes>
    ensures { option_copied result ≡ text_of held.now name.now }
{
    let pair = held
        .iter()
        .find(|pair| pair.0.as_slice() == name.as_slice())?;
    Some(&pair.1)
}

impl Texts for MemTexts {
    ghost tells = { λ t. ⊤ };

    ghost held = { λ t name. text_of t.held name };

    ghost faults = { λ t. t.calls.faults };

    ghost asked = { λ t. t.asked };

    fn fault_count(&self) -> u64 {
        self.calls.faults()
    }

    fn read(&mut self, alloc: Global, name: &Word, limit: usize) -> Result<Vec<u8>, TextError>
        ensures held { self.new.held ≡ self.old.held }
        ensures text { IfOk result (λ v. text_of self.old.held name.now ≡ Some v.items) }
        ensures short { IfOk result (λ v. length v.items ≤ limit) }
        ensures too_long { result ≡ Err TooLong → IsTooLong (text_of self.old.held name.now) limit }
        ensures fits { result ≡ Err Memory → ¬ IsTooLong (text_of self.old.held name.now) limit }
        ensures fails { (result ≡ Err Failed) ↔ IsTrue (fails_to_read self.old name.now) }
        ensures calls { self.new.calls ≡ after_call (fails_to_read self.old name.now) self.old.calls }
        ensures asked { self.new.asked ≡ self.old.asked ++ name.now ∷ [] }
        ensures failed { result ≡ Err Failed → Rose self.old.calls.faults self.new.calls.faults }
        ensures later { self.old.calls.faults ≤ self.new.calls.faults }
    {
        self.asked = ByteLists::with(&self.asked, name.as_slice());
        let found = find(self.held.as_slice(), name);
        if self.calls.fails(found.is_some()) {
            return Err(TextError::Failed);
        }
        match found {
            None => Err(TextError::Failed),
            Some(text) if limit < text.len() => Err(TextError::TooLong),
            Some(text) => Ok(Vec::from_slice(alloc, text.as_slice())?),
        }
    }
}
