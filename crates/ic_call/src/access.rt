use ic_base::Word;
use ic_disk::Access;
use ic_plan::{Command, command_of};

/// What is done to the logs where the words ask for it: an audit reads them alone.
pub fn access_of(words: &[Word]) -> Access {
    match command_of(words) {
        Some(Command::Audit(_)) => Access::Read,
        _ => Access::Write,
    }
}
