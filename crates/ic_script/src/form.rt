ghost use Rattle.std.specs.Prelude.{◌≡◌, option_map};
ghost use Rattle.def_syntax.specs.Text.{look_up};
ghost use Rattle.def_two.specs.Script.{forms};
ghost use Rattle.ic_script.specs.Forms.{form_of};

/// The first word of a line.
#[derive(Clone, Copy, Debug, PartialEq, Eq)]
pub(crate) enum Form {
    Book,
    Move,
    Deliver,
    Packet,
    Lose,
    Crash,
    Recover,
    Resend,
}

/// The form of the lines that begin with this word, if any do.
pub(crate) fn form_of(word: &[u8]) -> Option<Form>
    ensures { option_map form_of result ≡ look_up word.now forms }
{
    match word {
        b"book" => Some(Form::Book),
        b"move" => Some(Form::Move),
        b"deliver" => Some(Form::Deliver),
        b"packet" => Some(Form::Packet),
        b"lose" => Some(Form::Lose),
        b"crash" => Some(Form::Crash),
        b"recover" => Some(Form::Recover),
        b"resend" => Some(Form::Resend),
        _ => None,
    }
}
