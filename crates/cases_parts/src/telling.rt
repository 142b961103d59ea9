use case_words::{say, tell};
use ic_disk::{DiskError, TextError};
use std::io;

/// Prints bytes as hexadecimal digits.
pub fn say_bytes(rt: &HostRuntime, bytes: &[u8]) -> io::Result<()> {
    say(rt, hex::encode(rt.alloc(), bytes)?.as_str())
}

/// Prints what a disk gave.
pub fn tell_read(rt: &HostRuntime, read: Result<Vec<u8>, DiskError>) -> io::Result<()> {
    match read {
        Ok(bytes) => say_bytes(rt, bytes.as_slice()),
        Err(error) => tell(rt, &error),
    }
}

/// Prints a text that was read, or why none was.
pub fn tell_text(rt: &HostRuntime, read: Result<Vec<u8>, TextError>) -> io::Result<()> {
    match read {
        Ok(text) => say_bytes(rt, text.as_slice()),
        Err(error) => println!(rt; "{error:?} {error}"),
    }
}
