use crate::Words;
use std::io;

/// What makes the calls of a program of cases.
pub trait Answers {
    /// Makes the call of a line, and prints what it answers.
    fn answer(&mut self, rt: &HostRuntime, words: &mut Words<'_>) -> io::Result<()>;
}

/// Answers each line of standard input.
pub fn answer_lines<A: Answers>(rt: &HostRuntime, answers: &mut A) -> io::Result<()> {
    for line in rt.lines(rt.alloc()) {
        answers.answer(rt, &mut Words::of(line?.as_str()))?;
    }
    Ok(())
}
