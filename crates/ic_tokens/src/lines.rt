ghost use Rattle.std.specs.Prelude.{◌≡◌, ◌<◌, ◌≤◌, ◌==◌, [], ◌∷◌, length, position, MatchOption, IfSome};
ghost use Rattle.std.specs.List.{position_or_len};
ghost use Rattle.def_syntax.specs.Text.{lines_of};

/// Where the first line ends, if anything ends it.
fn line_end(text: &[u8]) -> Option<usize>
    ensures { result ≡ position (λ b. b == 10) text.now }
{
    text.iter().position(|b| *b == b'\n')
}

/// How many bytes the first line has.
#[tactic(auto, using(crate::proofs::Cuts::place_or_all))]
fn line_length(text: &[u8]) -> usize
    ensures place { result ≡ position_or_len (λ b. b == 10) text.now }
    ensures inside { result ≤ length text.now }
{
    line_end(text).unwrap_or(text.len())
}

/// The first line, and what stands behind its end.
pub fn first_line(text: &[u8]) -> Option<(&[u8], &[u8])>
    ensures line { MatchOption result (lines_of text.now ≡ [])
        (λ x. lines_of text.now ≡ x.0.now ∷ lines_of x.1.now) }
    ensures less { IfSome result (λ x. length x.1.now < length text.now) }
{
    if text.is_empty() {
        return None;
    }
    let (line, rest) = text.split_at(line_length(text));
    match rest {
        [_, more @ ..] => Some((line, more)),
        [] => Some((line, rest)),
    }
}
