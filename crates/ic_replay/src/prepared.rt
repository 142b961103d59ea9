ghost use Rattle.std.specs.Prelude.{◌≡◌, ℕ, [], ◌∷◌, ◌++◌, true, false, IfOk, OnOk, None, IsTrue, length, option_map, option_and_then};
ghost use Rattle.ic_base.specs.declared.messages.ComId.{ComId};
ghost use Rattle.ic_eval.specs.Handlers.{HasHandler};
ghost use Rattle.def_play.specs.Playing.{handler_of};
ghost use Rattle.def_plain.specs.Cell as cell;
ghost use Rattle.def_state.specs.Fits.{failed_line};
ghost use Rattle.def_state.specs.Hist.{hand_plays};
ghost use Rattle.def_state.specs.Vol.{add_done, done_by, numbers_fit};
ghost use Rattle.ic_ckpt.specs.Views.{seen, HasRoom};
ghost use Rattle.ic_replay.specs.Applying.{applied, sends_of, outs_of, receipts_of};
ghost use Rattle.ic_replay.specs.Preparing.{preparation, with_hand, with_answers, entered_txn, has_place};

use def_plain::InHand;
use ic_base::{AbortCause, Args, ComId, Done, Dones, Items, Msg, Played, Program, Record, Vals};
use ic_ckpt::State;
use ic_eval::play;
use ic_txn::Txn;
use std::alloc::{AllocError, Global};

/// What a record comes to, computed before it is applied: the handler that it plays on, up to where it ends or waits.
#[derive(Debug, Drop)]
pub struct Prepared {
    /// What is in hand then, where the record says so.
    pub hand: Option<InHand>,
    /// The answers that its open transaction has got.
    pub answers: Vals,
    /// Where the handler comes to, if one is played.
    pub played: Option<Played>,
}

impl Prepared {
    /// The line of the `need` that fails, if one does.
    pub fn failed_line(&self) -> Option<u32>
        ensures { result ≡ option_and_then failed_line self.now.played }
    {
        match &self.played {
            Some(Played::NeedFails(_, line)) => Some(*line),
            _ => None,
        }
    }

    /// What is sent, where the handler ends.
    fn sends(&self) -> usize
        ensures { result ≡ length (sends_of self.now.played) }
    {
        match &self.played {
            Some(Played::Ends(_, sends, _)) => sends.len(),
            _ => 0,
        }
    }

    fn outs(&self) -> usize
        ensures { result ≡ length (outs_of self.now.played) }
    {
        match &self.played {
            Some(Played::Ends(_, _, outs)) => outs.len(),
            _ => 0,
        }
    }

    /// The open transaction once the record is applied.
    pub fn txn_behind(&self, stored: &Record, state: &State) -> Txn
        requires place { IsTrue (has_place (seen state.now) stored.now) }
        requires limits { («com» : ComId) (at : ℕ) → numbers_fit (applied «com» at self.now (seen state.now) stored.now) ≡ true }
        ensures { («com» : ComId) (at : ℕ) → result ≡ (applied «com» at self.now (seen state.now) stored.now).txn }
    {
        let mut txn = entered_txn(state, stored);
        let Some(played) = &self.played else {
            return txn;
        };
        match played {
            Played::Asks(tcom, request) => {
                if txn.is_idle() {
                    txn.begin(*tcom, *request);
                } else {
                    txn.ask(*request);
                }
            }
            Played::Ready(_) => txn.ready(),
            Played::Ends(_, _, _) | Played::NeedFails(_, _) => {}
        }
        txn
    }

    /// Makes room in the state for all that the record adds to it.
    pub fn reserve(&self, stored: &Record, state: &mut State) -> Result<(), AllocError>
        ensures same { seen state.new ≡ seen state.old }
        ensures room { OnOk result (HasRoom state.new (length (sends_of self.now.played)) (receipts_of stored.now) (length (outs_of self.now.played))) }
    {
        let receipts = match stored {
            Record::Take { .. } => 1,
            Record::TakeWhole { .. } => 1,
            _ => 0,
        };
        state.reserve(self.sends(), receipts, self.outs())
    }
}

/// What a record comes to in this state. The content is that of the message which it takes by identity. A place of a
/// request that takes more than 16 bits is answered as want of memory: the limit on statements keeps places below 256.
pub fn prepare(
    alloc: Global,
    program: &Program,
    com: ComId,
    state: &State,
    stored: &Record,
    content: Option<Msg>,
) -> Result<Prepared, AllocError>
    ensures prepared { IfOk result (λ p. p ≡ preparation program.now «com» content (seen state.now) stored.now) }
    ensures place { OnOk result (IsTrue (has_place (seen state.now) stored.now)) }
{
    if !entered_txn(state, stored).has_next_place() {
        return Err(AllocError);
    }
    match stored {
        Record::Take { .. } => {
            let hand = content.map(|m| new_in_hand(alloc, m.handler, m.args));
            with_hand(alloc, program, com, &state.vars, hand)
        }
        Record::TakeWhole { handler, args, .. } => {
            let hand = new_in_hand(alloc, *handler, *args);
            with_hand(alloc, program, com, &state.vars, Some(hand))
        }
        Record::Input { handler, args, .. } => {
            let hand = new_in_hand(alloc, *handler, *args);
            with_hand(alloc, program, com, &state.vars, Some(hand))
        }
        Record::Value { value, .. } => with_answer(alloc, program, com, state, *value),
        Record::Outcome { abort, .. } => with_result(alloc, program, com, state, *abort),
        _ => with_hand(alloc, program, com, &state.vars, None),
    }
}

/// The open transaction once the record is entered.
pub(crate) fn entered_txn(state: &State, stored: &Record) -> Txn
    ensures { result ≡ entered_txn state.now.txn stored.now }
{
    let mut txn = state.txn;
    match stored {
        Record::Value { session, .. } => txn.take_reply(*session),
        Record::Outcome { .. } => txn.end(),
        _ => {}
    }
    txn
}

/// What is in hand, and where its handler comes to without an answer.
fn with_hand(
    alloc: Global,
    program: &Program,
    com: ComId,
    vars: &Vals,
    hand: Option<InHand>,
) -> Result<Prepared, AllocError>
    ensures { IfOk result (λ p. p ≡ with_hand program.now «com» vars.now hand) }
{
    let answers = Items::new(alloc);
    let played = hand_played(alloc, program, com, vars, &hand, &answers)?;
    Ok(Prepared {
        hand,
        answers,
        played,
    })
}

/// Where the handler in hand comes to with one more answer.
fn with_answer(
    alloc: Global,
    program: &Program,
    com: ComId,
    state: &State,
    value: i64,
) -> Result<Prepared, AllocError>
    ensures { IfOk result (λ p. p ≡ with_answers program.now «com» state.now.vars state.now.hand (state.now.answers ++ value ∷ [])) }
{
    let mut answers = state.answers.copy(alloc)?;
    answers.push(value)?;
    let played = hand_played(alloc, program, com, &state.vars, &state.hand, &answers)?;
    Ok(Prepared {
        hand: None,
        answers,
        played,
    })
}

/// What is in hand with one more transaction that has ended, and where its handler comes to.
fn with_result(
    alloc: Global,
    program: &Program,
    com: ComId,
    state: &State,
    abort: Option<AbortCause>,
) -> Result<Prepared, AllocError>
    ensures { IfOk result (λ p. p ≡ with_hand program.now «com» state.now.vars (option_map (add_done (done_by state.now.answers abort)) state.now.hand)) }
{
    let hand = match &state.hand {
        Some(hand) => Some(ended(alloc, hand, &state.answers, abort)?),
        None => None,
    };
    with_hand(alloc, program, com, &state.vars, hand)
}

/// A message or an input in hand, with one more transaction that has ended.
fn ended(
    alloc: Global,
    hand: &InHand,
    now: &Vals,
    abort: Option<AbortCause>,
) -> Result<InHand, AllocError>
    ensures { IfOk result (λ next. next ≡ add_done (done_by now.now abort) hand.now) }
{
    let mut done = copied_dones(alloc, hand.done.as_slice())?;
    done.push(match abort {
        None => Done::Committed(now.copy(alloc)?),
        Some(_) => Done::Aborted,
    })?;
    Ok(InHand {
        handler: hand.handler,
        args: hand.args,
        done,
    })
}

/// A message or an input in hand, of which nothing is played yet.
fn new_in_hand(alloc: Global, handler: u8, args: Args) -> InHand
    ensures { result ≡ cell.new_in_hand handler args }
{
    InHand {
        handler,
        args,
        done: Items::new(alloc),
    }
}

/// Where the handler in hand comes to with these answers in its open transaction, if something is in hand. A handler that
/// isn't there has no statements.
pub(crate) fn hand_played(
    alloc: Global,
    program: &Program,
    com: ComId,
    vars: &Vals,
    hand: &Option<InHand>,
    answers: &Vals,
) -> Result<Option<Played>, AllocError>
    ensures { IfOk result (λ played. played ≡ option_map (hand_plays program.now «com» vars.now answers.now) hand.now) }
{
    let Some(hand) = hand else {
        return Ok(None);
    };
    if !has_handler(program, com, hand.handler) {
        let vars = vars.copy(alloc)?;
        return Ok(Some(Played::Ends(vars, Items::new(alloc), Items::new(alloc))));
    }
    let played = play(
        alloc,
        program,
        com,
        hand.handler,
        vars,
        hand.args,
        &hand.done,
        answers,
    )?;
    Ok(Some(played))
}

/// Whether a component has a handler of this number.
fn has_handler(program: &Program, com: ComId, handler: u8) -> bool
    ensures there { result ≡ true → HasHandler program.now «com» handler }
    ensures absent { result ≡ false → handler_of program.now «com» handler ≡ None }
{
    match program.components.as_slice().get(usize::from(com.0)) {
        None => false,
        Some(component) => usize::from(handler) < component.handlers.len(),
    }
}

/// The same results once more.
fn copied_dones(alloc: Global, done: &[Done]) -> Result<Dones, AllocError>
    ensures { IfOk result (λ copy. copy ≡ done.now) }
{
    let mut copies = Items::new(alloc);
    for d in done {
        copies.push(match d {
            Done::Committed(answers) => Done::Committed(answers.copy(alloc)?),
            Done::Aborted => Done::Aborted,
        })?;
    }
    Ok(copies)
}
