ghost use Rattle.std.specs.Prelude.{◌≡◌, codes, option_map};
ghost use Rattle.std.specs.List.{list_any};
ghost use Rattle.def_syntax.specs.Commands.{asks_to_migrate, command_of, command_with, is_dashed, migrated_in, names_in, number_in_word};
ghost use Rattle.ic_plan.specs.CommandViews.{command_seen, names_seen};

use ic_base::Word;
use ic_tokens::magnitude;

/// The greatest number of a large run.
const GREATEST_LARGE: u64 = 2_147_483_647;

/// The most digits of its number.
const LARGE_DIGITS: usize = 10;

/// The names of the texts of a run.
#[derive(Clone, Copy)]
pub struct TextNames<'a> {
    pub scenario: &'a Word,
    pub schedule: &'a Word,
    pub policy: Option<&'a Word>,
}

/// The names of the texts of a run that serves lines.
#[derive(Clone, Copy)]
pub struct ServedNames<'a> {
    pub scenario: &'a Word,
    pub policy: Option<&'a Word>,
}

/// What the words of a call ask for.
#[derive(Clone, Copy)]
pub enum Command<'a> {
    /// A run over blank disks.
    Run(TextNames<'a>),
    /// A run over the logs that are found.
    Resume(TextNames<'a>),
    /// An audit of the logs of the scenario with this name.
    Audit(&'a Word),
    /// The large run of this number, at most 2,147,483,647.
    Make(u32),
}

fn is_dashed(word: &Word) -> bool
    ensures { result ≡ is_dashed word.now }
{
    match word.as_slice() {
        [first, ..] => *first == b'-',
        [] => false,
    }
}

/// Whether one of the words begins with `-`.
pub fn any_dashed(words: &[Word]) -> bool
    ensures { result ≡ list_any is_dashed words.now }
{
    words.iter().any(|word| is_dashed(word))
}

/// The names of a scenario, a schedule and maybe a policy, which two words or three are.
pub fn names_in<'a>(words: &'a [Word]) -> Option<TextNames<'a>>
    ensures { option_map names_seen result ≡ names_in words.now }
{
    match words {
        [scenario, schedule] => Some(TextNames {
            scenario,
            schedule,
            policy: None,
        }),
        [scenario, schedule, policy] => Some(TextNames {
            scenario,
            schedule,
            policy: Some(policy),
        }),
        _ => None,
    }
}

/// The number that a word of one to ten digits is.
fn number_in(word: &[u8]) -> Option<u32>
    ensures { result ≡ number_in_word word.now }
{
    if word.len() > LARGE_DIGITS {
        return None;
    }
    match magnitude(word, GREATEST_LARGE) {
        Some(number) => Some(number as u32),
        None => None,
    }
}

fn run_of<'a>(words: &'a [Word]) -> Option<Command<'a>>
    ensures { option_map command_seen result ≡ command_with (codes "run") words.now }
{
    match names_in(words) {
        Some(names) => Some(Command::Run(names)),
        None => None,
    }
}

fn resume_of<'a>(words: &'a [Word]) -> Option<Command<'a>>
    ensures { option_map command_seen result ≡ command_with (codes "resume") words.now }
{
    match names_in(words) {
        Some(names) => Some(Command::Resume(names)),
        None => None,
    }
}

fn audit_of<'a>(words: &'a [Word]) -> Option<Command<'a>>
    ensures { option_map command_seen result ≡ command_with (codes "audit") words.now }
{
    match words {
        [scenario] => Some(Command::Audit(scenario)),
        _ => None,
    }
}

fn make_of<'a>(words: &'a [Word]) -> Option<Command<'a>>
    ensures { option_map command_seen result ≡ command_with (codes "make") words.now }
{
    match words {
        [word] => match number_in(word.as_slice()) {
            Some(number) => Some(Command::Make(number)),
            None => None,
        },
        _ => None,
    }
}

/// What the words behind the first one ask for.
fn command_with<'a>(verb: &[u8], words: &'a [Word]) -> Option<Command<'a>>
    ensures { option_map command_seen result ≡ command_with verb.now words.now }
{
    if verb == b"run".as_slice() {
        run_of(words)
    } else if verb == b"resume".as_slice() {
        resume_of(words)
    } else if verb == b"audit".as_slice() {
        audit_of(words)
    } else if verb == b"make".as_slice() {
        make_of(words)
    } else {
        None
    }
}

/// What the words of a call ask for, those behind the program's name. None exactly where they are no form: `run` or
/// `resume` with the names of a scenario, a schedule and maybe a policy, `audit` with the name of a scenario, or `make` with
/// a number of one to ten digits; no word begins with `-`.
pub fn command_of<'a>(words: &'a [Word]) -> Option<Command<'a>>
    ensures { option_map command_seen result ≡ command_of words.now }
{
    let [verb, rest @ ..] = words else {
        return None;
    };
    if any_dashed(words) {
        None
    } else {
        command_with(verb.as_slice(), rest)
    }
}

/// Whether the words of a call, those behind the program's name, are those of a migration: the first one is `migrate`.
pub fn asks_to_migrate(words: &[Word]) -> bool
    ensures { result ≡ asks_to_migrate words.now }
{
    match words {
        [verb, ..] => verb.as_slice() == b"migrate".as_slice(),
        [] => false,
    }
}

/// The name of the scenario whose logs are to be migrated. None exactly where the words are no form of that, `migrate` with one
/// name; no word begins with `-`.
pub fn migrated_name<'a>(words: &'a [Word]) -> Option<&'a Word>
    ensures { option_map (λ name. name.now) result ≡ migrated_in words.now }
{
    match words {
        [_, name] if asks_to_migrate(words) && !any_dashed(words) => Some(name),
        _ => None,
    }
}
