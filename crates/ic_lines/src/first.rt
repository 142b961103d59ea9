ghost use Rattle.std.specs.Prelude.{◌≡◌, ◌⊎◌, ◌≤◌, [], length, take};
ghost use Rattle.std.specs.Io.{StopsAt, IsEmptyOrEndsWith};
ghost use Rattle.ic_lines.specs.Lines.{read_of};

use crate::Read;
use ic_base::Bytes;

/// The first line, with the byte 10 that ends it.
pub(crate) fn first_line(bytes: &[u8]) -> &[u8]
    ensures front { result.now ≡ take (length result.now) bytes.now }
    ensures within { length result.now ≤ length bytes.now }
    ensures stops { StopsAt result.now 10 }
    ensures ends { IsEmptyOrEndsWith result.now 10 ⊎ (result.now ≡ bytes.now) }
    ensures some { length result.now ≡ 0 → bytes.now ≡ [] }
{
    match bytes.iter().position(|b| *b == b'\n') {
        Some(end) => &bytes[..end + 1],
        None => bytes,
    }
}

/// How a line is read of which these are the first `limit` + 1 bytes, or all, the byte 10 that ends it included.
pub(crate) fn read_of(mut line: Vec<u8>, limit: usize) -> Option<Read>
    ensures read { result ≡ read_of limit line.items }
{
    if line.is_empty() {
        return None;
    }
    let is_ended = line[line.len() - 1] == b'\n';
    if is_ended {
        line.truncate(line.len() - 1);
    }
    if limit < line.len() {
        return Some(Read::TooLong);
    }
    let bytes = Bytes::from_vec(line);
    Some(if is_ended {
        Read::Line(bytes)
    } else {
        Read::Unterminated(bytes)
    })
}
