use case_words::{Words, packet, say};
use ic_base::limits::GREATEST_NUMBER;
use ic_base::{Args, ComId, Program};
use ic_ckpt::State;
use ic_pcom::{Effects, on_force, on_input, on_packet};
use std::io;

/// What is decided, before anything is applied: the word, the records, whether they are forced, and whether nothing but answers
/// is put out.
fn tell_effects(rt: &HostRuntime, effects: &Effects) -> io::Result<()> {
    println!(rt;
        "{:?} {:?} {} {}",
        effects.word,
        effects.adds.as_slice(),
        effects.forces,
        effects.is_quiet
    )
}

/// What a component decides in its first state on an input, a packet or a force.
pub fn answer(rt: &HostRuntime, program: &Program, words: &mut Words<'_>) -> io::Result<()> {
    let com = words.com();
    let state = State::first(rt.alloc(), program, com)?;
    decide(rt, program, com, &state, words)
}

/// What a component decides in this state.
fn decide(
    rt: &HostRuntime,
    program: &Program,
    com: ComId,
    state: &State,
    words: &mut Words<'_>,
) -> io::Result<()> {
    match words.word() {
        "input" => on_given_input(rt, state, words),
        "force" => tell_effects(rt, &on_force(rt.alloc())),
        _ => on_given(rt, program, com, state, words),
    }
}

/// What is decided on an input: its handler and values.
fn on_given_input(rt: &HostRuntime, state: &State, words: &mut Words<'_>) -> io::Result<()> {
    let handler = words.byte();
    match words.args(rt.alloc())? {
        Some(args) => on_args(rt, state, handler, args),
        None => say(rt, "too many values"),
    }
}

fn on_args(rt: &HostRuntime, state: &State, handler: u8, args: Args) -> io::Result<()> {
    if state.clock > GREATEST_NUMBER {
        return say(rt, "no stamp is left");
    }
    let effects = on_input(rt.alloc(), state, handler, args)?;
    tell_effects(rt, &effects)
}

fn on_given(
    rt: &HostRuntime,
    program: &Program,
    com: ComId,
    state: &State,
    words: &mut Words<'_>,
) -> io::Result<()> {
    match packet(rt.alloc(), words)? {
        Some(p) if state.clock <= GREATEST_NUMBER => {
            tell_effects(rt, &on_packet(rt.alloc(), program, com, state, 0, &p)?)
        }
        _ => say(rt, "no packet"),
    }
}
