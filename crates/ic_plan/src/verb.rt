ghost use Rattle.std.specs.Prelude.{◌≡◌, option_map};
ghost use Rattle.def_syntax.specs.Text.{look_up};
ghost use Rattle.def_syntax.specs.Schedule.{forms_but_inputs};
ghost use Rattle.ic_plan.specs.Verbs.{form_of, forms_for};

/// Which lines a schedule has for its inputs.
#[derive(Clone, Copy, Debug, PartialEq, Eq)]
pub enum Inputs {
    /// Lines `input PCOM HANDLER NUMBER*`.
    Plain,
    /// Lines `client U Q PCOM HANDLER NUMBER*`, with the two numbers of a request.
    Numbered,
}

/// The first word of an event.
#[derive(Clone, Copy, Debug, PartialEq, Eq)]
pub(crate) enum Verb {
    Input,
    Request,
    Deliver,
    Packet,
    Lose,
    Force,
    Checkpoint,
    Resend,
    Emit,
    Crash,
    Recover,
    Halt,
}

/// The verb that a word is, if it is one that is no input's.
fn other_verb_of(word: &[u8]) -> Option<Verb>
    ensures { option_map form_of result ≡ look_up word.now forms_but_inputs }
{
    match word {
        b"deliver" => Some(Verb::Deliver),
        b"packet" => Some(Verb::Packet),
        b"lose" => Some(Verb::Lose),
        b"force" => Some(Verb::Force),
        b"checkpoint" => Some(Verb::Checkpoint),
        b"resend" => Some(Verb::Resend),
        b"emit" => Some(Verb::Emit),
        b"crash" => Some(Verb::Crash),
        b"recover" => Some(Verb::Recover),
        b"halt" => Some(Verb::Halt),
        _ => None,
    }
}

/// The verb that a word is, if it is one.
pub(crate) fn verb_of(inputs: Inputs, word: &[u8]) -> Option<Verb>
    ensures { option_map form_of result ≡ look_up word.now (forms_for inputs) }
{
    match inputs {
        Inputs::Plain if word == b"input".as_slice() => Some(Verb::Input),
        Inputs::Numbered if word == b"client".as_slice() => Some(Verb::Request),
        _ => other_verb_of(word),
    }
}
