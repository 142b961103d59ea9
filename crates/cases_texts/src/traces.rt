use case_words::{Words, cause, packet, say, tell};
use ic_base::{
    Answer, Args, ComId, Event, Fate, Fill, Items, Output, Packets, Program, ReportLevel, Stop,
    Trace, What,
};
use ic_report::trace_bytes;
use std::alloc::{AllocError, Global};
use std::{io, str};

/// The trace that is built, part by part.
#[derive(Drop)]
pub struct Traces {
    trace: Trace,
}

/// The event that the words are.
fn event(alloc: Global, words: &mut Words<'_>) -> Result<What, AllocError> {
    Ok(match words.word() {
        "input" => {
            let (com, handler) = (words.com(), words.byte());
            match words.args(alloc)? {
                Some(args) => What::Input(com, handler, args),
                None => What::Packet(0),
            }
        }
        "deliver" => What::Deliver(words.com(), words.com()),
        "lose" => What::Lose(words.com(), words.com()),
        "force" => What::Force(words.com()),
        "checkpoint" => What::Checkpoint(words.com()),
        "resend" => What::Resend(words.com()),
        "emit" => What::Emit(words.com()),
        "crash" => What::Crash(words.com()),
        "recover" => What::Recover(words.com()),
        _ => What::Packet(words.medium()),
    })
}

/// An answer that is a word.
fn plain(word: &str) -> Answer {
    match word {
        "Taken" => Answer::Taken,
        "Kept" => Answer::Kept,
        "Lost" => Answer::Lost,
        "MissedDown" => Answer::MissedDown,
        "MissedReplaying" => Answer::MissedReplaying,
        "MissedBusy" => Answer::MissedBusy,
        "Empty" => Answer::Empty,
        "Unknown" => Answer::Unknown,
        "Down" => Answer::Down,
        "Replaying" => Answer::Replaying,
        "Busy" => Answer::Busy,
        "Idle" => Answer::Idle,
        "Stopped" => Answer::Stopped,
        "Already" => Answer::Already,
        "Up" => Answer::Up,
        _ => Answer::Ended,
    }
}

fn fate(word: &str) -> Fate {
    match word {
        "Down" => Fate::Down,
        "Stopped" => Fate::Stopped,
        "Taken" => Fate::Taken,
        "Fed" => Fate::Fed,
        "Busy" => Fate::Busy,
        "Used" => Fate::Used,
        "Ignored" => Fate::Ignored,
        _ => Fate::Lost,
    }
}

fn level(word: &str) -> ReportLevel {
    match word {
        "full" => ReportLevel::Full,
        "brief" => ReportLevel::Brief,
        _ => ReportLevel::Summary,
    }
}

/// A stop: its call, how many bytes arrive, and the fill, where 256 is the old bytes.
fn stop(words: &mut Words<'_>) -> Stop {
    let (call, keep, fill) = (words.medium(), words.medium(), words.place());
    let fill = match u8::try_from(fill) {
        Ok(byte) => Fill::Byte(byte),
        Err(_) => Fill::Old,
    };
    Stop { call, keep, fill }
}

/// An output behind whether it was shown before.
fn output(alloc: Global, words: &mut Words<'_>) -> Result<Option<(Output, bool)>, AllocError> {
    let (again, m, to) = (words.flag(), words.number(), words.com());
    Ok(match words.args(alloc)? {
        Some(args) => Some((Output { m, to, args }, again)),
        None => None,
    })
}

impl Traces {
    /// The trace of a packet that isn't there.
    pub fn new(alloc: Global) -> Traces {
        Traces {
            trace: Trace {
                event: Event {
                    what: What::Packet(0),
                    stop: None,
                },
                answer: Answer::Unknown,
                puts: Packets::new(alloc),
                first_put: 1,
                shown: None,
                aborted: None,
            },
        }
    }

    /// Begins the trace of an event.
    fn begin(&mut self, alloc: Global, words: &mut Words<'_>) -> Result<(), AllocError> {
        let what = event(alloc, words)?;
        *self = Traces::new(alloc);
        self.trace.event.what = what;
        Ok(())
    }

    /// Sets the answer to a packet, where there is one.
    fn set_fate(&mut self, alloc: Global, words: &mut Words<'_>) -> Result<(), AllocError> {
        let (word, number) = (words.word(), words.medium());
        if let Some(p) = packet(alloc, words)? {
            self.trace.answer = Answer::Packet(number, p, fate(word));
        }
        Ok(())
    }

    /// Adds a packet that is put out, where there is one.
    fn put(&mut self, alloc: Global, words: &mut Words<'_>) -> Result<(), AllocError> {
        if let Some(p) = packet(alloc, words)? {
            self.trace.puts.push(p)?;
        }
        Ok(())
    }

    /// Sets a part that is a number or a word.
    fn set_plain(&mut self, what: &str, words: &mut Words<'_>) {
        match what {
            "stop" => self.trace.event.stop = Some(stop(words)),
            "answer" => self.trace.answer = plain(words.word()),
            "first" => self.trace.first_put = words.medium(),
            _ => self.trace.aborted = Some((words.number(), cause(words))),
        }
    }

    /// Sets the output that is shown.
    fn show(&mut self, alloc: Global, words: &mut Words<'_>) -> Result<(), AllocError> {
        self.trace.shown = output(alloc, words)?;
        Ok(())
    }

    /// Sets a part.
    fn set(&mut self, alloc: Global, what: &str, words: &mut Words<'_>) -> Result<(), AllocError> {
        match what {
            "event" => self.begin(alloc, words),
            "fate" => self.set_fate(alloc, words),
            "put" => self.put(alloc, words),
            "shown" => self.show(alloc, words),
            _ => {
                self.set_plain(what, words);
                Ok(())
            }
        }
    }

    /// Sets a part, and prints which.
    fn tell_set(&mut self, rt: &HostRuntime, what: &str, words: &mut Words<'_>) -> io::Result<()> {
        self.set(rt.alloc(), what, words)?;
        say(rt, what)
    }

    /// Writes the trace: the number of the event and the level.
    fn write(&self, rt: &HostRuntime, program: &Program, words: &mut Words<'_>) -> io::Result<()> {
        let number = words.medium();
        let level = level(words.word());
        let made = trace_bytes(rt.alloc(), program, number, &self.trace, level)?;
        tell(rt, &str::from_utf8(made.as_slice()))
    }

    /// Sets a part of the trace, or writes it: the number of the event and the level.
    pub fn answer(
        &mut self,
        rt: &HostRuntime,
        program: &Program,
        words: &mut Words<'_>,
    ) -> io::Result<()> {
        match words.word() {
            "write" => self.write(rt, program, words),
            what => self.tell_set(rt, what, words),
        }
    }
}
