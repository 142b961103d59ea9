ghost use Rattle.std.specs.Prelude.{◌≡◌};
ghost use Rattle.def_two.specs.Moves.{numbered, is_lawful, is_party};

use def_two::Move;

/// The move with this number.
pub(crate) fn numbered(moves: &[Move], n: u64) -> Option<Move>
    ensures { result ≡ numbered n moves.now }
{
    moves.iter().find(|m| n == m.n).copied()
}

/// Whether a move is lawful: two different books from 1 to 8, and something is moved.
pub(crate) fn is_lawful(m: Move) -> bool
    ensures { result ≡ is_lawful m }
{
    m.from != m.to && (1 <= m.from && (m.from <= 8 && (1 <= m.to && (m.to <= 8 && 1 <= m.amount))))
}

/// Whether a book is one of the two of a move.
pub(crate) fn is_party(book: u8, m: Move) -> bool
    ensures { result ≡ is_party book m }
{
    m.from == book || m.to == book
}
