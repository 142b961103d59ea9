ghost use Rattle.std.specs.Prelude.{◌≡◌, codes, option_map};
ghost use Rattle.ic_more.specs.Words.{command_of, command_with};
ghost use Rattle.ic_more.specs.CommandViews.{command_seen};

use ic_base::Word;
use ic_plan::{TextNames, any_dashed, names_in};

/// What the words of a call ask for.
#[derive(Clone, Copy)]
pub(crate) enum Command<'a> {
    /// Moves of the script with this name.
    Two(&'a Word),
    /// A run with numbered clients.
    Clients(TextNames<'a>),
    /// A run with a standby of the Pcom with this name.
    Standby(&'a Word, TextNames<'a>),
}

fn two_of<'a>(words: &'a [Word]) -> Option<Command<'a>>
    ensures { option_map command_seen result ≡ command_with (codes "two") words.now }
{
    match words {
        [script] => Some(Command::Two(script)),
        _ => None,
    }
}

fn clients_of<'a>(words: &'a [Word]) -> Option<Command<'a>>
    ensures { option_map command_seen result ≡ command_with (codes "clients") words.now }
{
    match names_in(words) {
        Some(names) => Some(Command::Clients(names)),
        None => None,
    }
}

fn standby_of<'a>(words: &'a [Word]) -> Option<Command<'a>>
    ensures { option_map command_seen result ≡ command_with (codes "standby") words.now }
{
    let [who, rest @ ..] = words else {
        return None;
    };
    match names_in(rest) {
        Some(names) => Some(Command::Standby(who, names)),
        None => None,
    }
}

/// What the words behind the first one ask for.
fn command_with<'a>(verb: &[u8], words: &'a [Word]) -> Option<Command<'a>>
    ensures { option_map command_seen result ≡ command_with verb.now words.now }
{
    if verb == b"two".as_slice() {
        two_of(words)
    } else if verb == b"clients".as_slice() {
        clients_of(words)
    } else if verb == b"standby".as_slice() {
        standby_of(words)
    } else {
        None
    }
}

/// What the words of a call ask for: `two` with the name of a script; `clients` with those of a scenario, a schedule and maybe a policy;
/// or `standby` with these behind the name of a component. No word begins with `-`.
pub(crate) fn command_of<'a>(words: &'a [Word]) -> Option<Command<'a>>
    ensures { option_map command_seen result ≡ command_of words.now }
{
    let [verb, rest @ ..] = words else {
        return None;
    };
    if any_dashed(words) {
        None
    } else {
        command_with(verb.as_slice(), rest)
    }
}
