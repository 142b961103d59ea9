use case_words::{Words, bytes_of, say, tell};
use ic_base::{Bytes, Items, Word};
use ic_disk::MemTexts;
use ic_plan::{
    Command, Inputs, RunTexts, Schedule, TextNames, TextsRefused, command_of, large_texts,
    make_large, read_clients, read_line, read_policy, read_standby, read_texts,
};
use ic_syntax::{ScenarioRefused, fingerprint, read_scenario};
use std::alloc::{AllocError, Global};
use std::io;

/// A text that is built of pieces and read as a scenario.
#[derive(Drop)]
pub struct TextBytes {
    bytes: Vec<u8>,
}

/// A number that tells bytes from others.
fn fold(bytes: &[u8]) -> u64 {
    let mut fold = 7_u64;
    for byte in bytes {
        fold = fold.wrapping_mul(31).wrapping_add(u64::from(*byte));
    }
    fold
}

impl TextBytes {
    /// No byte.
    pub fn new(alloc: Global) -> TextBytes {
        TextBytes {
            bytes: Vec::new(alloc),
        }
    }

    /// Adds a piece as often as asked for.
    fn add(&mut self, piece: &[u8], count: u32) -> Result<(), AllocError> {
        for _ in 0..count {
            self.bytes.extend_from_slice(piece)?;
        }
        Ok(())
    }

    /// Adds a piece behind the number of times.
    fn add_given(&mut self, rt: &HostRuntime, words: &mut Words<'_>) -> io::Result<()> {
        let count = words.medium();
        let piece = words.bytes(rt.alloc())?;
        self.add(piece.as_slice(), count)?;
        tell(rt, &self.bytes.len())
    }

    /// Prints the fingerprint, and begins another text.
    fn tell_fingerprint(&mut self, rt: &HostRuntime) -> io::Result<()> {
        let print = fingerprint(self.bytes.as_slice());
        self.bytes.clear();
        say(rt, hex::encode(rt.alloc(), print.as_slice())?.as_str())
    }

    /// Prints what the text is read as, and begins another text.
    fn tell_read(&mut self, rt: &HostRuntime) -> io::Result<()> {
        let read = read_scenario(rt.alloc(), self.bytes.as_slice());
        self.bytes.clear();
        tell(rt, &read)
    }

    /// Adds to the text, begins another one, or reads it.
    pub fn answer(&mut self, rt: &HostRuntime, words: &mut Words<'_>) -> io::Result<()> {
        match words.word() {
            "add" => self.add_given(rt, words),
            "fingerprint" => self.tell_fingerprint(rt),
            _ => self.tell_read(rt),
        }
    }
}

fn word(alloc: Global, bytes: &[u8]) -> Result<Word, AllocError> {
    Ok(Items::from_vec(bytes.to_vec(alloc)?))
}

/// The next text: hexadecimal digits, `blanks COUNT`, or `absent`.
fn text(alloc: Global, words: &mut Words<'_>) -> Result<Option<Bytes>, AllocError> {
    match words.word() {
        "absent" => Ok(None),
        "blanks" => {
            let mut blanks = Vec::new(alloc);
            blanks.resize(words.medium() as usize, b' ')?;
            Ok(Some(Items::from_vec(blanks)))
        }
        digits => Ok(Some(Items::from_vec(bytes_of(alloc, digits)?))),
    }
}

/// The texts of a scenario, a schedule and a policy, behind the names s, c and p.
fn held(alloc: Global, words: &mut Words<'_>) -> Result<Vec<(Word, Bytes)>, AllocError> {
    let mut held: Vec<(Word, Bytes)> = Vec::new(alloc);
    for name in [b"s", b"c", b"p"] {
        if let Some(bytes) = text(alloc, words)? {
            held.push((word(alloc, name)?, bytes))?;
        }
    }
    Ok(held)
}

/// Prints what the texts of a run ask for.
fn tell_asked(rt: &HostRuntime, asked: &RunTexts) -> io::Result<()> {
    println!(rt;
        "{} {} {:?} {} {:?}",
        asked.program.components.len(),
        hex::encode(rt.alloc(), asked.fingerprint.as_slice())?,
        asked.schedule.events.as_slice(),
        asked.schedule.halts,
        asked.policy
    )
}

/// Prints what the texts of a run ask for, or why they are refused.
fn tell_read(rt: &HostRuntime, read: Result<RunTexts, TextsRefused>) -> io::Result<()> {
    match read {
        Ok(asked) => tell_asked(rt, &asked),
        Err(refused) => tell(rt, &refused),
    }
}

/// Reads texts in memory by names.
fn read_held(
    rt: &HostRuntime,
    inputs: Inputs,
    names: TextNames<'_>,
    words: &mut Words<'_>,
) -> io::Result<()> {
    let mut texts = MemTexts::new(rt.alloc(), held(rt.alloc(), words)?, &[])?;
    tell_read(rt, read_texts(rt.alloc(), inputs, names, &mut texts))
}

/// Reads a scenario, a schedule with these inputs and, where `policy` stands first, a policy.
pub fn read_three(rt: &HostRuntime, inputs: Inputs, words: &mut Words<'_>) -> io::Result<()> {
    let alloc = rt.alloc();
    let (s, c, p) = (word(alloc, b"s")?, word(alloc, b"c")?, word(alloc, b"p")?);
    let names = TextNames {
        scenario: &s,
        schedule: &c,
        policy: if words.word() == "policy" {
            Some(&p)
        } else {
            None
        },
    };
    read_held(rt, inputs, names, words)
}

/// Prints a schedule with numbered clients, or why there is none.
fn tell_clients(rt: &HostRuntime, read: Result<Schedule, ScenarioRefused>) -> io::Result<()> {
    match read {
        Ok(read) => println!(rt; "{:?} {}", read.events.as_slice(), read.halts),
        Err(refused) => tell(rt, &refused),
    }
}

/// Reads a schedule with numbered clients of a scenario.
#[tactic(auto, using(ic_plan::proofs::Small::is_small))]
pub fn clients(rt: &HostRuntime, words: &mut Words<'_>) -> io::Result<()> {
    let scenario = words.bytes(rt.alloc())?;
    let schedule = words.bytes(rt.alloc())?;
    match read_scenario(rt.alloc(), scenario.as_slice()) {
        Ok(program) => tell_clients(rt, read_clients(rt.alloc(), &program, schedule.as_slice())),
        Err(refused) => tell(rt, &refused),
    }
}

/// Reads a schedule with a standby of a scenario.
#[tactic(auto, using(ic_plan::proofs::Small::is_small))]
pub fn standby(rt: &HostRuntime, words: &mut Words<'_>) -> io::Result<()> {
    let scenario = words.bytes(rt.alloc())?;
    let schedule = words.bytes(rt.alloc())?;
    let program = match read_scenario(rt.alloc(), scenario.as_slice()) {
        Ok(program) => program,
        Err(refused) => return tell(rt, &refused),
    };
    match read_standby(rt.alloc(), &program, schedule.as_slice()) {
        Ok(read) => println!(rt; "{:?} {}", read.orders.as_slice(), read.halts),
        Err(refused) => tell(rt, &refused),
    }
}

/// Reads a line that is served, of a scenario.
#[tactic(auto, using(ic_plan::proofs::Small::is_small))]
pub fn served(rt: &HostRuntime, words: &mut Words<'_>) -> io::Result<()> {
    let scenario = words.bytes(rt.alloc())?;
    let line = words.bytes(rt.alloc())?;
    match read_scenario(rt.alloc(), scenario.as_slice()) {
        Ok(program) => tell(rt, &read_line(rt.alloc(), &program, line.as_slice())),
        Err(refused) => tell(rt, &refused),
    }
}

/// Reads a policy.
pub fn policy(rt: &HostRuntime, words: &mut Words<'_>) -> io::Result<()> {
    match read_policy(rt.alloc(), words.bytes(rt.alloc())?.as_slice()) {
        Ok(policy) => tell(rt, &policy),
        Err(refused) => println!(rt; "{refused:?}: {refused}"),
    }
}

/// Prints the texts of a large run: how long each is, and the number that tells its bytes from others.
fn tell_made(rt: &HostRuntime, number: u32) -> io::Result<()> {
    let (scenario, schedule) = make_large(rt.alloc(), number)?;
    println!(rt;
        "{} {} {} {}",
        scenario.len(),
        fold(scenario.as_slice()),
        schedule.len(),
        fold(schedule.as_slice())
    )
}

/// Prints what the texts of a large run ask for.
fn tell_large(rt: &HostRuntime, asked: &RunTexts) -> io::Result<()> {
    println!(rt;
        "{} {} {} {:?}",
        asked.program.components.len(),
        asked.schedule.events.len(),
        asked.schedule.halts,
        asked.policy.report
    )
}

/// The texts of a large run, and what they ask for.
pub fn make(rt: &HostRuntime, words: &mut Words<'_>) -> io::Result<()> {
    let number = words.medium();
    tell_made(rt, number)?;
    match large_texts(rt.alloc(), number) {
        Ok(asked) => tell_large(rt, &asked),
        Err(refused) => tell(rt, &refused),
    }
}

/// A name as text.
fn name(alloc: Global, word: &Word) -> Result<String, AllocError> {
    hex::encode(alloc, word.as_slice())
}

/// Prints two names.
fn tell_two(rt: &HostRuntime, first: &Word, second: &Word) -> io::Result<()> {
    print!(rt; "{} ", name(rt.alloc(), first)?)?;
    say(rt, name(rt.alloc(), second)?.as_str())
}

/// Prints the names of the texts of a run.
fn names(rt: &HostRuntime, form: &str, texts: TextNames<'_>) -> io::Result<()> {
    print!(rt; "{form} {} ", name(rt.alloc(), texts.scenario)?)?;
    match texts.policy {
        Some(policy) => tell_two(rt, texts.schedule, policy),
        None => say(rt, name(rt.alloc(), texts.schedule)?.as_str()),
    }
}

/// The words that are left, eight at most.
fn words_left(alloc: Global, words: &mut Words<'_>) -> Result<Vec<Word>, AllocError> {
    let mut left = Vec::new(alloc);
    for _ in 0..8_u32 {
        let next = words.word();
        if next.is_empty() {
            break;
        }
        left.push(word(alloc, next.as_bytes())?)?;
    }
    Ok(left)
}

/// The form of a call that the words which are left are.
pub fn command(rt: &HostRuntime, words: &mut Words<'_>) -> io::Result<()> {
    let given = words_left(rt.alloc(), words)?;
    match command_of(given.as_slice()) {
        None => say(rt, "none"),
        Some(Command::Run(texts)) => names(rt, "run", texts),
        Some(Command::Resume(texts)) => names(rt, "resume", texts),
        Some(Command::Audit(text)) => println!(rt; "audit {}", name(rt.alloc(), text)?),
        Some(Command::Make(number)) => println!(rt; "make {number}"),
    }
}
