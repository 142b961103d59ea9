ghost use Rattle.std.specs.Prelude.{◌≡◌, ◌+◌, ◌-◌, ◌∷◌, [], ◌++◌, slice_set, Some, None, IfOk, OnOk, option_map};
ghost use Rattle.def_play.specs.Playing.{value_at};
ghost use Rattle.def_play.specs.Ledger as talks;
ghost use Rattle.def_plain.specs.Cell as cell;
ghost use Rattle.ic_model.specs.Views.{talk_seen, ended_seen};

use crate::handling::hand_played;
use def_plain::{InHand, PlainPcom};
use ic_base::limits::REQUESTS;
use ic_base::{ComId, Items, Played, Program, Request, Vals};
use std::alloc::{AllocError, Global};

/// A part of a transaction as it is played on a ledger: what it asked, the answers, and the ledger with its puts.
#[derive(Drop)]
pub(crate) struct Talk {
    pub asked: Items<Request>,
    pub answers: Vals,
    pub ledger: Vals,
}

/// The value of a key, or 0 past the last.
fn value_at(values: &Vals, key: u16) -> i64
    ensures { result ≡ value_at values.now key }
{
    match values.as_slice().get(usize::from(key)) {
        Some(value) => *value,
        None => 0,
    }
}

/// Answers a request on a ledger, which a put changes.
fn answer(ledger: &mut Vals, request: Request) -> i64
    ensures answer { result ≡ talks.answer_on ledger.old request }
    ensures ledger { ledger.new ≡ talks.ledger_after ledger.old request }
{
    match request {
        Request::Get(key) => value_at(ledger, key),
        Request::Put(key, value) => {
            if usize::from(key) < ledger.len() {
                ledger.replace(usize::from(key), value);
            }
            value
        }
    }
}

impl Talk {
    /// Answers one request more.
    fn hear(&mut self, request: Request) -> Result<(), AllocError>
        ensures { OnOk result (talk_seen self.new ≡ talks.heard (talk_seen self.old) request) }
    {
        self.asked.push(request)?;
        let value = answer(&mut self.ledger, request);
        self.answers.push(value)?;
        Ok(())
    }
}

/// Plays the whole part that a Pcom has in hand at once on a ledger that nobody else uses: a request is answered and
/// the part plays on, until it is ready. A part that ends otherwise has no talk.
pub(crate) fn whole_part(
    alloc: Global,
    program: &Program,
    com: ComId,
    pcom: &PlainPcom,
    hand: &InHand,
    ledger: Vals,
) -> Result<Option<(ComId, Talk)>, AllocError>
    ensures { IfOk result (λ ended. option_map ended_seen ended ≡ talks.whole_part (cell.hand_played program.now «com» pcom.now hand.now) ledger) }
{
    let mut talk = Talk {
        asked: Items::new(alloc),
        answers: Items::new(alloc),
        ledger,
    };
    for _ in 0..REQUESTS + 1 {
        match hand_played(alloc, program, com, pcom, hand, &talk.answers)? {
            Played::Asks(_, request) => talk.hear(request)?,
            Played::Ready(tcom) => return Ok(Some((tcom, talk))),
            _ => return Ok(None),
        }
    }
    Ok(None)
}
