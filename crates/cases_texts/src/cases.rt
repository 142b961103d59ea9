use crate::texts::TextBytes;
use crate::traces::Traces;
use crate::{faults, plays, summaries, texts, tokens};
use case_words::{Answers, Words, program, tell};
use ic_base::{Components, Program};
use ic_plan::Inputs;
use ic_syntax::read_scenario;
use std::alloc::Global;
use std::{io, mem};

/// What the lines are about: the program of plays and reports, the text that is built, and the trace that is told.
#[derive(Drop)]
pub struct Cases {
    program: Program,
    text: TextBytes,
    traces: Traces,
}

/// Reads the program of the lines that follow.
fn begin(rt: &HostRuntime, place: &mut Program, words: &mut Words<'_>) -> io::Result<()> {
    drop(mem::replace(place, program(rt.alloc(), words)?));
    tell(rt, &place.components.len())
}

/// Goes on with the scenario that a text is.
fn name(rt: &HostRuntime, place: &mut Program, text: &[u8]) -> io::Result<()> {
    match read_scenario(rt.alloc(), text) {
        Ok(program) => {
            drop(mem::replace(place, program));
            tell(rt, &place.components.len())
        }
        Err(refused) => tell(rt, &refused),
    }
}

/// Reads the scenario of the reports that follow.
fn begin_named(rt: &HostRuntime, place: &mut Program, words: &mut Words<'_>) -> io::Result<()> {
    let text = words.bytes(rt.alloc())?;
    name(rt, place, text.as_slice())
}

impl Cases {
    /// A program without a component.
    pub fn new(alloc: Global) -> Cases {
        Cases {
            program: Program {
                components: Components::new(alloc),
            },
            text: TextBytes::new(alloc),
            traces: Traces::new(alloc),
        }
    }

    /// Answers a line about the program.
    fn of_program(
        &mut self,
        rt: &HostRuntime,
        what: &str,
        words: &mut Words<'_>,
    ) -> io::Result<()> {
        match what {
            "program" => begin(rt, &mut self.program, words),
            "named" => begin_named(rt, &mut self.program, words),
            "play" => plays::answer(rt, &self.program, words),
            "trace" => self.traces.answer(rt, &self.program, words),
            "summary" => summaries::answer(rt, &self.program, words),
            "fault" => faults::answer(rt, &self.program, words),
            other => println!(rt; "nothing is called {other}"),
        }
    }
}

impl Answers for Cases {
    fn answer(&mut self, rt: &HostRuntime, words: &mut Words<'_>) -> io::Result<()> {
        match words.word() {
            "text" => self.text.answer(rt, words),
            "texts" => texts::read_three(rt, Inputs::Plain, words),
            "client_texts" => texts::read_three(rt, Inputs::Numbered, words),
            "clients" => texts::clients(rt, words),
            "served" => texts::served(rt, words),
            "standby" => texts::standby(rt, words),
            "make" => texts::make(rt, words),
            "policy" => texts::policy(rt, words),
            "command" => texts::command(rt, words),
            "tokens" => tokens::answer(rt, words),
            what => self.of_program(rt, what, words),
        }
    }
}
