use crate::devices::Devices;
use crate::files::Files;
use crate::ledgers::Ledger;
use crate::logs::TornLog;
use crate::record_logs::MemRecordLog;
use crate::tables::Tables;
use crate::{effects, images, ledgers, logs, record_logs, replays, wires};
use case_words::{Answers, Words, program, tell};
use ic_base::{Components, Program};
use std::alloc::AllocError;
use std::{io, mem};

/// What the calls are made on.
#[derive(Drop)]
pub struct Cases {
    tables: Tables,
    devices: Devices,
    files: Files,
    program: Program,
    log: Option<TornLog>,
    record_log: Option<MemRecordLog>,
    ledger: Option<Ledger>,
}

/// Reads the program of the calls that follow.
fn begin(rt: &HostRuntime, place: &mut Program, words: &mut Words<'_>) -> io::Result<()> {
    drop(mem::replace(place, program(rt.alloc(), words)?));
    tell(rt, &place.components.len())
}

impl Cases {
    /// Nothing yet.
    pub fn new(rt: HostRuntime) -> Result<Cases, AllocError> {
        Ok(Cases {
            tables: Tables::new(rt.alloc())?,
            devices: Devices::new(),
            files: Files::new(rt),
            program: Program {
                components: Components::new(rt.alloc()),
            },
            log: None,
            record_log: None,
            ledger: None,
        })
    }

    /// Makes the call of a line that is on a component of the scenario.
    fn of_program(
        &mut self,
        rt: &HostRuntime,
        what: &str,
        words: &mut Words<'_>,
    ) -> io::Result<()> {
        match what {
            "program" => begin(rt, &mut self.program, words),
            "image" => images::answer(rt, &self.program, words),
            "ledger" => ledgers::answer(rt, &mut self.ledger, &self.program, words),
            "replay" => replays::replay(rt, &self.program, words),
            "recover" => replays::recover(rt, &self.program, words),
            "effects" => effects::answer(rt, &self.program, words),
            _ => self.tables.answer(rt, what, words),
        }
    }
}

impl Answers for Cases {
    fn answer(&mut self, rt: &HostRuntime, words: &mut Words<'_>) -> io::Result<()> {
        match words.word() {
            "wire" => wires::answer(rt, words),
            "disk" => self.devices.on_disk(rt, words),
            "torn" => self.devices.on_torn(rt, words),
            "sink" => self.devices.on_sink(rt, words),
            "texts" => self.devices.on_texts(rt, words),
            "file" => self.files.answer(rt, words),
            "log" => logs::answer(rt, &mut self.log, words),
            "records" => record_logs::answer(rt, &mut self.record_log, words),
            what => self.of_program(rt, what, words),
        }
    }
}
