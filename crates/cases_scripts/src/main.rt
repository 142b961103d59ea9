//! Reads scripts of moves from standard input, one a line in hexadecimal digits, and prints what reading each answers.
#![tactic(auto)]

use case_words::{bytes_of, tell};
use ic_script::read_script;
use std::io;

fn main(rt: HostRuntime) -> io::Result<()> {
    for line in rt.lines(rt.alloc()) {
        let line = line?;
        let text = bytes_of(rt.alloc(), line.as_str())?;
        tell(&rt, &read_script(rt.alloc(), text.as_slice()))?;
    }
    Ok(())
}
