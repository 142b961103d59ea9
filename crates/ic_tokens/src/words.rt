ghost use Rattle.std.specs.Prelude.{◌≡◌, option_map};
ghost use Rattle.def_syntax.specs.Text.{look_up, fixed_words, operators};
ghost use Rattle.ic_tokens.specs.Words.{fixed_of};

use ic_base::Op;

/// A fixed word of a scenario.
#[derive(Clone, Copy, Debug, PartialEq, Eq)]
pub enum Fixed {
    Xcom,
    Tcom,
    Pcom,
    Immediate,
    Var,
    Key,
    On,
    Set,
    Send,
    Out,
    If,
    Else,
    Txn,
    Get,
    Put,
    Need,
    End,
}

/// The fixed word that this word is, if it is one.
pub fn fixed_word(word: &[u8]) -> Option<Fixed>
    ensures { option_map fixed_of result ≡ look_up word.now fixed_words }
{
    match word {
        b"xcom" => Some(Fixed::Xcom),
        b"tcom" => Some(Fixed::Tcom),
        b"pcom" => Some(Fixed::Pcom),
        b"immediate" => Some(Fixed::Immediate),
        b"var" => Some(Fixed::Var),
        b"key" => Some(Fixed::Key),
        b"on" => Some(Fixed::On),
        b"set" => Some(Fixed::Set),
        b"send" => Some(Fixed::Send),
        b"out" => Some(Fixed::Out),
        b"if" => Some(Fixed::If),
        b"else" => Some(Fixed::Else),
        b"txn" => Some(Fixed::Txn),
        b"get" => Some(Fixed::Get),
        b"put" => Some(Fixed::Put),
        b"need" => Some(Fixed::Need),
        b"end" => Some(Fixed::End),
        _ => None,
    }
}

/// The operator that this word is, if it is one.
pub fn operator(word: &[u8]) -> Option<Op>
    ensures { result ≡ look_up word.now operators }
{
    match word {
        b"+" => Some(Op::Add),
        b"-" => Some(Op::Sub),
        b"*" => Some(Op::Mul),
        b"<" => Some(Op::Less),
        b"<=" => Some(Op::AtMost),
        b"=" => Some(Op::Equal),
        b"!=" => Some(Op::NotEqual),
        b">=" => Some(Op::AtLeast),
        b">" => Some(Op::Greater),
        _ => None,
    }
}
