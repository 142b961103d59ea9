use case_words::{Words, say, tell};
use ic_tokens::{first_line, fixed_word, line_tokens, operator, schedule_tokens};
use std::io;

/// Prints a line, with a space behind it.
fn tell_line(rt: &HostRuntime, line: &[u8]) -> io::Result<()> {
    print!(rt; "{} ", hex::encode(rt.alloc(), line)?)
}

/// The lines of a text.
fn lines(rt: &HostRuntime, text: &[u8]) -> io::Result<()> {
    let mut rest = text;
    for _ in 0..100_u32 {
        let Some((line, behind)) = first_line(rest) else {
            return say(rt, "end");
        };
        tell_line(rt, line)?;
        rest = behind;
    }
    say(rt, "more")
}

/// Answers what a text is.
fn answer_text(rt: &HostRuntime, what: &str, text: &[u8]) -> io::Result<()> {
    match what {
        "scenario" => tell(rt, &line_tokens(rt.alloc(), text)),
        "schedule" => tell(rt, &schedule_tokens(rt.alloc(), text)),
        "lines" => lines(rt, text),
        _ => println!(rt; "{:?} {:?}", fixed_word(text), operator(text)),
    }
}

/// Splits a line of a scenario or of a schedule into tokens, or a text into lines, or says what a word is.
pub fn answer(rt: &HostRuntime, words: &mut Words<'_>) -> io::Result<()> {
    let what = words.word();
    let text = words.bytes(rt.alloc())?;
    answer_text(rt, what, text.as_slice())
}
