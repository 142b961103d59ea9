ghost use Rattle.std.specs.Prelude.{◌≡◌, ◌<◌, [], Ok, None, IfOk, OnOk, OnErr, IfErr};
ghost use Rattle.def_client.specs.Fronts.{ask, saw, takes, shows, taken_under};
ghost use Rattle.def_client.specs.declared.asked.Asked.TheVariants.{New};
ghost use Rattle.ic_client.specs.Fronts.{MaySee, numbers_in};
ghost use Rattle.ic_client.specs.Seeing.{takes_first, saw_first, IsSeen};

use def_client::Asked;
use ic_base::{Answer, Args, ComId, Output, Trace, What};
use indexmap::IndexMap;
use std::alloc::{AllocError, Global};
use std::marker::Model;

/// A Pcom, the number of a client there, and the number of a request of this client.
#[derive(Clone, Copy, Debug, PartialEq, Eq, Hash)]
struct Numbers {
    who: u8,
    client: i64,
    request: i64,
}

/// A request that was taken, and the output that was shown first with its numbers since, if any.
#[derive(Clone, Copy, Debug)]
struct Row {
    handler: u8,
    args: Args,
    reply: Option<(u64, Args)>,
}

/// The requests that were taken, in order, and the reply of each that has one.
#[derive(Drop)]
pub struct Front {
    taken: IndexMap<Numbers, Row>,
}

impl Model for Front {
    ghost use Rattle.ic_client.specs.Fronts.{FrontState};

    ghost Value = { FrontState };

    ghost use Rattle.std.specs.Prelude.{map};
    ghost use Rattle.indexmap.specs.IndexMap.{spare};
    ghost use Rattle.ic_client.specs.Fronts.{taken_of, AreKept};

    ghost view = { λ f. record { taken = map taken_of f.taken.entries; spare = spare f.taken } };

    ghost invariant = { λ f. AreKept f.taken.entries };
}

/// The numbers of a request; values with fewer than two have none.
fn numbers_of(who: ComId, args: &Args) -> Option<Numbers>
    ensures { result ≡ numbers_in who args.now }
{
    Some(Numbers {
        who: who.0,
        client: args.get(0)?,
        request: args.get(1)?,
    })
}

impl Front {
    /// No request is taken.
    pub fn new(alloc: Global) -> Front
        ensures { result.taken ≡ [] }
    {
        Front {
            taken: IndexMap::new(alloc),
        }
    }

    /// What is answered to a request: its Pcom, its handler and its values, of which the first two are its client's number and its
    /// own. Where it is New there is room to take it.
    pub fn ask(&mut self, c: ComId, handler: u8, args: Args) -> Result<Asked, AllocError>
        ensures answer { IfOk result (λ a. a ≡ ask self.old.taken (record { who = c; handler = handler; args = args })) }
        ensures memory { IfErr result (λ _. ask self.old.taken (record { who = c; handler = handler; args = args }) ≡ New) }
        ensures room { result ≡ Ok New → 0 < self.new.spare }
        ensures same { self.new.taken ≡ self.old.taken }
    {
        let row = match numbers_of(c, &args) {
            Some(numbers) => self.taken.get(&numbers),
            None => None,
        };
        let Some(row) = row else {
            self.taken.reserve(1)?;
            return Ok(Asked::New);
        };
        if row.handler != handler || row.args != args {
            return Ok(Asked::Differs);
        }
        match row.reply {
            Some((m, args)) => Ok(Asked::Again(m, args)),
            None => Ok(Asked::Pending),
        }
    }

    /// A request is taken, unless its values have no numbers.
    fn take(&mut self, c: ComId, handler: u8, args: Args)
        requires new { taken_under self.old.taken c args ≡ None }
        requires room { 0 < self.old.spare }
        ensures { self.new.taken ≡ takes (record { who = c; handler = handler; args = args }) self.old.taken }
    {
        let Some(numbers) = numbers_of(c, &args) else {
            return;
        };
        let row = Row {
            handler,
            args,
            reply: None,
        };
        let Ok(_) = self.taken.insert(numbers, row) else {
            unreachable!()
        };
    }

    /// A request is taken, unless its values have no numbers or one is taken under them.
    pub(crate) fn take_first(&mut self, c: ComId, handler: u8, args: Args) -> Result<(), AllocError>
        ensures taken { OnOk result (self.new.taken ≡ takes_first (record { who = c; handler = handler; args = args }) self.old.taken) }
        ensures kept { OnErr result (self.new.taken ≡ self.old.taken) }
    {
        match self.ask(c, handler, args)? {
            Asked::New => self.take(c, handler, args),
            _ => {}
        }
        Ok(())
    }

    /// An output is the reply of the request of its numbers, unless that has one.
    pub(crate) fn show(&mut self, c: ComId, output: &Output)
        ensures { self.new.taken ≡ shows c output.now self.old.taken }
    {
        let Some(numbers) = numbers_of(c, &output.args) else {
            return;
        };
        let Some(row) = self.taken.get(&numbers).copied() else {
            return;
        };
        if row.reply.is_some() {
            return;
        }
        let row = Row {
            reply: Some((output.m, output.args)),
            ..row
        };
        let Ok(_) = self.taken.insert(numbers, row) else {
            unreachable!()
        };
    }

    /// What an event did is seen: a request that was taken is kept, and an output that was shown is the reply of the request of its
    /// numbers that has none.
    pub fn saw(&mut self, t: &Trace)
        requires may { MaySee self.old t.now }
        ensures { self.new.taken ≡ saw self.old.taken t.now }
    {
        match (&t.event.what, &t.shown) {
            (What::Input(c, handler, args), _)
                if matches!(t.answer, Answer::Taken | Answer::Kept) => {
                self.take(*c, *handler, *args)
            }
            (What::Emit(c), Some((output, _))) => self.show(*c, output),
            _ => {}
        }
    }

    /// What an event did is seen, also an input under numbers that are taken, of which the request stays that was taken first.
    #[tactic(auto, using(crate::proofs::Alike::is_seen))]
    pub fn see(&mut self, t: &Trace) -> Result<(), AllocError>
        ensures first { OnOk result (self.new.taken ≡ saw_first self.old.taken t.now) }
        ensures seen { OnOk result (IsSeen self.old.taken self.new.taken t.now) }
        ensures kept { OnErr result (self.new.taken ≡ self.old.taken) }
    {
        match &t.event.what {
            What::Input(c, handler, args) => match t.answer {
                Answer::Taken | Answer::Kept => self.take_first(*c, *handler, *args),
                _ => Ok(()),
            },
            What::Emit(c) => {
                if let Some((output, _)) = &t.shown {
                    self.show(*c, output);
                }
                Ok(())
            }
            _ => Ok(()),
        }
    }
}
