use std::fmt::Debug;
use std::io;

/// Prints a value as data.
pub fn tell<T: Debug>(rt: &HostRuntime, value: &T) -> io::Result<()> {
    println!(rt; "{value:?}")
}

/// Prints words.
pub fn say(rt: &HostRuntime, words: &str) -> io::Result<()> {
    println!(rt; "{words}")
}

/// Tells that nothing is called so.
pub fn no_call(rt: &HostRuntime, word: &str) -> io::Result<()> {
    println!(rt; "no call {word}")
}
