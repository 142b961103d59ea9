//! Reads requests of numbered clients, and outputs that are shown, from standard input, one a line, and prints what is answered.
#![tactic(auto)]

ghost use Rattle.std.specs.Prelude.{◌≡◌};

use case_words::{Answers, Words, answer_lines, no_call, say, tell};
use ic_base::{Answer, ComId, Event, Items, Output, Trace, What};
use ic_client::{Asked, Front};
use std::{io, mem};

/// The front on which the calls are made.
#[derive(Drop)]
struct Cases {
    front: Front,
}

/// An event without a stop that puts nothing out.
fn trace(rt: &HostRuntime, what: What, answer: Answer, shown: Option<(Output, bool)>) -> Trace
    ensures what { result.event.what ≡ what }
    ensures answer { result.answer ≡ answer }
{
    Trace {
        event: Event { what, stop: None },
        answer,
        puts: Items::new(rt.alloc()),
        first_put: 1,
        shown,
        aborted: None,
    }
}

/// A request comes. Where it is new, its input gets this answer.
fn request(
    rt: &HostRuntime,
    front: &mut Front,
    words: &mut Words<'_>,
    answer: Option<Answer>,
) -> io::Result<()> {
    let (c, handler) = (words.com(), words.byte());
    let Some(args) = words.args(rt.alloc())? else {
        return say(rt, "too many values");
    };
    let asked = front.ask(c, handler, args)?;
    if let (Asked::New, Some(answer)) = (&asked, answer) {
        let t = trace(rt, What::Input(c, handler, args), answer, None);
        front.saw(&t);
    }
    tell(rt, &asked)
}

/// An output is shown to component 0.
fn show(rt: &HostRuntime, front: &mut Front, words: &mut Words<'_>) -> io::Result<()> {
    let (c, m) = (words.com(), words.number());
    let Some(args) = words.args(rt.alloc())? else {
        return say(rt, "too many values");
    };
    let to = ComId(0);
    let output = Output { m, to, args };
    front.saw(&trace(rt, What::Emit(c), Answer::Ended, Some((output, false))));
    say(rt, "shown")
}

/// Begins anew.
fn begin(rt: &HostRuntime, front: &mut Front) -> io::Result<()> {
    drop(mem::replace(front, Front::new(rt.alloc())));
    say(rt, "new")
}

impl Answers for Cases {
    fn answer(&mut self, rt: &HostRuntime, words: &mut Words<'_>) -> io::Result<()> {
        match words.word() {
            "new" => begin(rt, &mut self.front),
            "ask" => request(rt, &mut self.front, words, None),
            "take" => request(rt, &mut self.front, words, Some(Answer::Taken)),
            "keep" => request(rt, &mut self.front, words, Some(Answer::Kept)),
            "lose" => request(rt, &mut self.front, words, Some(Answer::Lost)),
            "show" => show(rt, &mut self.front, words),
            other => no_call(rt, other),
        }
    }
}

fn main(rt: HostRuntime) -> io::Result<()> {
    let mut cases = Cases {
        front: Front::new(rt.alloc()),
    };
    answer_lines(&rt, &mut cases)
}
