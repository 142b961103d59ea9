use crate::pcoms::Place;
use crate::tcoms::Bank;
use case_words::{Answers, Words, program, tell};
use ic_base::{ComId, Components, Program};
use std::alloc::Global;
use std::{io, mem};

/// What the calls are made on: two Pcoms and a Tcom of a program, each as it stands.
#[derive(Drop)]
pub struct Cases {
    program: Program,
    first: Place,
    second: Place,
    bank: Bank,
}

/// Reads the program of the calls that follow.
fn begin(rt: &HostRuntime, place: &mut Program, words: &mut Words<'_>) -> io::Result<()> {
    drop(mem::replace(place, program(rt.alloc(), words)?));
    tell(rt, &place.components.len())
}

impl Cases {
    /// A program without a component.
    pub fn new(alloc: Global) -> Cases {
        Cases {
            program: Program {
                components: Components::new(alloc),
            },
            first: Place::new(),
            second: Place::new(),
            bank: Bank::new(),
        }
    }
}

impl Answers for Cases {
    fn answer(&mut self, rt: &HostRuntime, words: &mut Words<'_>) -> io::Result<()> {
        match words.word() {
            "program" => begin(rt, &mut self.program, words),
            "first" => self.first.answer(rt, &self.program, ComId(0), words),
            "second" => self.second.answer(rt, &self.program, ComId(1), words),
            "bank" => self.bank.answer(rt, &self.program, words),
            other => println!(rt; "nothing is called {other}"),
        }
    }
}
