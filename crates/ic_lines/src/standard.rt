use crate::ReaderLines;
use std::io;
use std::io::{BufReader, StdinLock};

/// Standard input. One that is closed is at its end.
#[derive(Drop)]
pub struct StdInput {
    stdin: StdinLock<'static>,
}

/// The lines of standard input. They tell nothing: what the host does is trusted.
pub type StdLines = ReaderLines<BufReader<StdInput>>;

/// The code with which the host refuses a descriptor that isn't open.
const NOT_OPEN: i32 = 9;

impl io::Read for StdInput {
    fn read(&mut self, buf: &mut [u8]) -> io::Result<usize> {
        match self.stdin.read(buf) {
            Err(e) if e.raw_os_error() == Some(NOT_OPEN) => Ok(0),
            answer => answer,
        }
    }
}

/// The lines of standard input, of which nothing is read yet.
pub fn standard_lines(rt: &HostRuntime) -> io::Result<StdLines> {
    let stdin = rt.reader();
    Ok(ReaderLines::new(BufReader::new(rt.alloc(), StdInput { stdin })?))
}
