ghost use Rattle.std.specs.Prelude.{◌≡◌, ◌++◌, cond, OnOk, IfOk, option_to_list};
ghost use Rattle.ic_turn.specs.Choices.{choice_of, answers_kept};

use crate::choice::Choice;
use ic_base::{Answer, Items, Output, Packets};
use ic_node::Done;
use std::alloc::AllocError;

/// The answer of an event of the list goes behind these. What is put out is answered.
pub(crate) fn add_answer(
    answers: &mut Items<Answer>,
    choice: &Choice,
    done: Done,
) -> Result<Packets, AllocError>
    ensures answers { OnOk result (answers.new ≡ answers.old ++ answers_kept (choice_of choice.now) done.answer) }
    ensures puts { IfOk result (λ puts. puts ≡ done.puts) }
{
    match choice {
        Choice::Lists(_) => {
            answers.push(done.answer)?;
            Ok(done.puts)
        }
        _ => Ok(done.puts),
    }
}

/// The output that is shown goes behind these.
pub(crate) fn add_shown(shown: &mut Items<Output>, done: &Done) -> Result<(), AllocError>
    ensures { OnOk result (shown.new ≡ shown.old ++ option_to_list done.now.shown) }
{
    match done.shown {
        Some(output) => {
            shown.push(output)?;
            Ok(())
        }
        None => Ok(()),
    }
}

/// How many receipts an event adds that receives something, or not.
pub(crate) fn receipts(more: bool) -> u64
    ensures { result ≡ cond «more» 1 0 }
{
    if more { 1 } else { 0 }
}
