ghost use Rattle.std.specs.Prelude.{◌≡◌, ◌≤◌, ◌==◌, ◌&&◌, ◌||◌, ◌++◌, ◌∷◌, [], ℕ, nat_lt, nat_le, length, map, Some, IfOk};
ghost use Rattle.std.specs.Int.{w8, w32};
ghost use Rattle.std.specs.List.{list_all};
ghost use Rattle.ic_base.specs.declared.limits.TheConstants.{VALUES};
ghost use Rattle.ic_base.specs.Programs as programs;
ghost use Rattle.def_log.specs.Reading.{number_at, tested_at, time_at, count_at, com_at, values_at, args_at};
ghost use Rattle.def_state.specs.Names.{number_of, put_number};
ghost use Rattle.def_state.specs.Image.{many_at, last_at, output_at, link_at, message_at, part_at};
ghost use Rattle.def_state.specs.ImagePlaces as places;
ghost use Rattle.def_state.specs.ImagePlaces.{field, items};
ghost use Rattle.ic_edge.specs.RoomyShelf.{due_at_once};
ghost use Rattle.ic_out.specs.Views.{held_in_image};
ghost use Rattle.ic_ckpt.specs.Reads.{Reads, Passes};

use crate::declared::{handlers_of, is_a_tcom, is_an_xcom, is_other_pcom, params_of};
use crate::fields::{byte, com, count, this_byte, time, value, word};
use crate::misread::Misread;
use ic_base::limits::VALUES;
use ic_base::{
    Args, ComId, Items, Links, Msg, Msgs, Numbers, Output, Outputs, Program, Senders, Vals,
};
use ic_index::Counts;
use std::alloc::Global;

/// So many values.
pub(crate) fn values(alloc: Global, count: u8, bytes: &[u8]) -> Result<(Vals, &[u8]), Misread>
    ensures read { IfOk result (λ x. values_at count bytes.now ≡ Some (x.0, x.1.now)) }
    ensures count { IfOk result (λ x. length x.0 ≡ count) }
    ensures place { Reads (λ x. (length x.0, x.1.now)) result (places.values count bytes.now) }
{
    let mut values = Items::new(alloc);
    let mut rest = bytes;
    for _ in 0..count {
        let (x, more) = value(rest)?;
        values.push(x)?;
        rest = more;
    }
    Ok((values, rest))
}

/// Whether there is a last ended transaction.
fn presence(bytes: &[u8]) -> Result<(u8, &[u8]), Misread>
    ensures read { IfOk result (λ x. number_at w8 bytes.now ≡ Some (x.0, x.1.now)) }
    ensures place { Reads (λ x. (x.0, x.1.now)) result (field (number_at w8) (λ n. nat_le n 1) bytes.now) }
{
    let (n, rest) = byte(bytes)?;
    if n <= 1 {
        Ok((n, rest))
    } else {
        Err(Misread::Left(bytes.len()))
    }
}

/// A Tcom of the program.
fn tcom<'a>(program: &Program, bytes: &'a [u8]) -> Result<(ComId, &'a [u8]), Misread>
    ensures read { IfOk result (λ x. com_at bytes.now ≡ Some (x.0, x.1.now)) }
    ensures place { Reads (λ x. (x.0, x.1.now)) result (field com_at (programs.is_a_tcom program.now) bytes.now) }
{
    let (found, rest) = com(bytes)?;
    if is_a_tcom(program, found) {
        Ok((found, rest))
    } else {
        Err(Misread::Left(bytes.len()))
    }
}

/// A count from 1 up to a greatest one.
fn count_up_to(greatest: u64, bytes: &[u8]) -> Result<(u64, &[u8]), Misread>
    ensures read { IfOk result (λ x. count_at bytes.now ≡ Some (x.0, x.1.now)) }
    ensures place { Reads (λ x. (x.0, x.1.now)) result (field count_at (λ n. nat_le n greatest) bytes.now) }
{
    let (n, rest) = count(bytes)?;
    if n <= greatest {
        Ok((n, rest))
    } else {
        Err(Misread::Left(bytes.len()))
    }
}

/// The last ended transaction, with its Tcom, where there is one.
#[tactic(auto, unfolding(def_state::specs::Image::last_at, def_state::specs::Image::ended_at, def_state::specs::ImagePlaces::last_txn))]
pub(crate) fn last_txn<'a>(
    program: &Program,
    begun: u64,
    bytes: &'a [u8],
) -> Result<(Option<(ComId, u64)>, &'a [u8]), Misread>
    ensures read { IfOk result (λ x. last_at bytes.now ≡ Some (x.0, x.1.now)) }
    ensures place { Passes (λ x. x.1.now) result (places.last_txn program.now begun bytes.now) }
{
    let (there, rest) = presence(bytes)?;
    if there == 0 {
        return Ok((None, rest));
    }
    let (tcom, rest) = tcom(program, rest)?;
    let (n, rest) = count_up_to(begun, rest)?;
    Ok((Some((tcom, n)), rest))
}

/// The values of a message or an output, so many.
fn arguments(alloc: Global, count: u8, bytes: &[u8]) -> Result<(Args, &[u8]), Misread>
    requires { count ≤ VALUES }
    ensures read { IfOk result (λ x. values_at count bytes.now ≡ Some (x.0, x.1.now)) }
    ensures place { Reads (λ x. (length x.0, x.1.now)) result (places.values count bytes.now) }
{
    let (values, rest) = values(alloc, count, bytes)?;
    match Args::of(values.as_slice()) {
        Some(args) => Ok((args, rest)),
        None => unreachable!(),
    }
}

/// How many values a message or an output has.
#[tactic(auto, unfolding(def_log::specs::Reading::tested_at))]
fn few(bytes: &[u8]) -> Result<(u8, &[u8]), Misread>
    ensures read { IfOk result (λ x. tested_at w8 (λ n. nat_le n VALUES) bytes.now ≡ Some (x.0, x.1.now)) }
    ensures few { IfOk result (λ x. x.0 ≤ VALUES) }
    ensures place { Reads (λ x. (x.0, x.1.now)) result (field (number_at w8) (λ n. nat_le n VALUES) bytes.now) }
{
    let (n, rest) = byte(bytes)?;
    if usize::from(n) <= VALUES {
        Ok((n, rest))
    } else {
        Err(Misread::Left(bytes.len()))
    }
}

/// A byte of count, at most 8, and as many values.
#[tactic(auto, unfolding(def_log::specs::Reading::args_at, def_state::specs::ImagePlaces::counted_values))]
fn args_within(alloc: Global, bytes: &[u8]) -> Result<(Args, &[u8]), Misread>
    ensures read { IfOk result (λ x. args_at bytes.now ≡ Some (x.0, x.1.now)) }
    ensures place { Reads (λ x. (length x.0, x.1.now)) result (places.counted_values (λ n. nat_le n VALUES) bytes.now) }
{
    let (count, rest) = few(bytes)?;
    arguments(alloc, count, rest)
}

/// The number of an output behind the one with the last number, of so many made.
fn output_number(made: u64, last: u64, bytes: &[u8]) -> Result<(u64, &[u8]), Misread>
    ensures read { IfOk result (λ x. count_at bytes.now ≡ Some (x.0, x.1.now)) }
    ensures place { Reads (λ x. (x.0, x.1.now)) result (field count_at (λ m. nat_lt last m && nat_le m made) bytes.now) }
{
    let (m, rest) = count(bytes)?;
    if last < m && m <= made {
        Ok((m, rest))
    } else {
        Err(Misread::Left(bytes.len()))
    }
}

/// An Xcom of the program.
fn xcom<'a>(program: &Program, bytes: &'a [u8]) -> Result<(ComId, &'a [u8]), Misread>
    ensures read { IfOk result (λ x. com_at bytes.now ≡ Some (x.0, x.1.now)) }
    ensures place { Reads (λ x. (x.0, x.1.now)) result (field com_at (programs.is_an_xcom program.now) bytes.now) }
{
    let (found, rest) = com(bytes)?;
    if is_an_xcom(program, found) {
        Ok((found, rest))
    } else {
        Err(Misread::Left(bytes.len()))
    }
}

/// An output behind the one with the last number.
#[tactic(auto, unfolding(def_state::specs::Image::output_at, def_state::specs::ImagePlaces::output))]
fn output<'a>(
    alloc: Global,
    program: &Program,
    made: u64,
    last: u64,
    bytes: &'a [u8],
) -> Result<(Output, &'a [u8]), Misread>
    ensures read { IfOk result (λ x. output_at bytes.now ≡ Some (due_at_once x.0, x.1.now)) }
    ensures place { Reads (λ x. (x.0.m, x.1.now)) result (places.output program.now made last bytes.now) }
{
    let (m, rest) = output_number(made, last, bytes)?;
    let (to, rest) = xcom(program, rest)?;
    match args_within(alloc, rest) {
        Ok((args, rest)) => Ok((Output { m, to, args }, rest)),
        Err(e) => Err(e),
    }
}

/// So many outputs.
pub(crate) fn outputs<'a>(
    alloc: Global,
    program: &Program,
    made: u64,
    count: u32,
    bytes: &'a [u8],
) -> Result<(Outputs, &'a [u8]), Misread>
    ensures read { IfOk result (λ x. many_at output_at count bytes.now ≡ Some (map due_at_once x.0, x.1.now)) }
    ensures place { Passes (λ x. x.1.now) result (items (places.output program.now made) count 0 bytes.now) }
{
    let mut outputs = Items::new(alloc);
    let mut last = 0;
    let mut rest = bytes;
    for _ in 0..count {
        match output(alloc, program, made, last, rest) {
            Ok((next, more)) => {
                last = next.m;
                outputs.push(next)?;
                rest = more;
            }
            Err(e) => return Err(e),
        }
    }
    Ok((outputs, rest))
}

/// Whether the components of these links are all below another one.
fn are_below(links: &[(ComId, u64)], to: ComId) -> bool
    ensures { result ≡ list_all (λ x. nat_lt x.0.0 to.0) links.now }
{
    links.iter().all(|link| link.0.0 < to.0)
}

/// The receiver of a link behind these.
fn link_end<'a>(
    program: &Program,
    c: ComId,
    links: &Links,
    bytes: &'a [u8],
) -> Result<(ComId, &'a [u8]), Misread>
    ensures read { IfOk result (λ x. com_at bytes.now ≡ Some (x.0, x.1.now)) }
    ensures place { Reads (λ x. (x.0, x.1.now)) result (field com_at (λ to. programs.is_other_pcom program.now c to && list_all (λ x. nat_lt x.0.0 to.0) links.now) bytes.now) }
{
    let (to, rest) = com(bytes)?;
    if is_other_pcom(program, c, to) && are_below(links.as_slice(), to) {
        Ok((to, rest))
    } else {
        Err(Misread::Left(bytes.len()))
    }
}

/// A link behind these, with the number sent on it.
#[tactic(auto, unfolding(def_state::specs::Image::link_at, def_state::specs::ImagePlaces::link))]
fn link<'a>(
    program: &Program,
    c: ComId,
    links: &Links,
    bytes: &'a [u8],
) -> Result<((ComId, u64), &'a [u8]), Misread>
    ensures read { IfOk result (λ x. link_at bytes.now ≡ Some (x.0, x.1.now)) }
    ensures place { Reads (λ x. (links.now ++ x.0 ∷ [], x.1.now)) result (places.link program.now c links.now bytes.now) }
{
    let (to, rest) = link_end(program, c, links, bytes)?;
    let (sent, rest) = count(rest)?;
    Ok(((to, sent), rest))
}

/// So many links.
pub(crate) fn links<'a>(
    alloc: Global,
    program: &Program,
    c: ComId,
    count: u8,
    bytes: &'a [u8],
) -> Result<(Links, &'a [u8]), Misread>
    ensures read { IfOk result (λ x. many_at link_at count bytes.now ≡ Some (x.0, x.1.now)) }
    ensures place { Reads (λ x. (x.0, x.1.now)) result (items (places.link program.now c) count [] bytes.now) }
{
    let mut links = Items::new(alloc);
    let mut rest = bytes;
    for _ in 0..count {
        let (next, more) = link(program, c, &links, rest)?;
        links.push(next)?;
        rest = more;
    }
    Ok((links, rest))
}

/// The receiver of a message.
fn receiver<'a>(program: &Program, c: ComId, bytes: &'a [u8]) -> Result<(ComId, &'a [u8]), Misread>
    ensures read { IfOk result (λ x. com_at bytes.now ≡ Some (x.0, x.1.now)) }
    ensures place { Reads (λ x. (x.0, x.1.now)) result (field com_at (programs.is_other_pcom program.now c) bytes.now) }
{
    let (to, rest) = com(bytes)?;
    if is_other_pcom(program, c, to) {
        Ok((to, rest))
    } else {
        Err(Misread::Left(bytes.len()))
    }
}

/// The number of a message, above the last one on its link and up to those sent.
fn message_number<'a>(
    sent: &Counts,
    last: &Counts,
    to: ComId,
    bytes: &'a [u8],
) -> Result<(u64, &'a [u8]), Misread>
    ensures read { IfOk result (λ x. count_at bytes.now ≡ Some (x.0, x.1.now)) }
    ensures place { Reads (λ x. (x.0, x.1.now)) result (field count_at (λ k. nat_lt (number_of 0 last.now.seen to) k && nat_le k (number_of 0 sent.now.seen to)) bytes.now) }
{
    let (k, rest) = count(bytes)?;
    if last.get(to) < k && k <= sent.get(to) {
        Ok((k, rest))
    } else {
        Err(Misread::Left(bytes.len()))
    }
}

/// A stamp up to the clock.
fn stamp(clock: u64, bytes: &[u8]) -> Result<(u64, &[u8]), Misread>
    ensures read { IfOk result (λ x. time_at bytes.now ≡ Some (x.0, x.1.now)) }
    ensures place { Reads (λ x. (x.0, x.1.now)) result (field time_at (λ s. nat_le s clock) bytes.now) }
{
    let (stamp, rest) = time(bytes)?;
    if stamp <= clock {
        Ok((stamp, rest))
    } else {
        Err(Misread::Left(bytes.len()))
    }
}

/// The number of a handler of the receiver.
fn handler<'a>(program: &Program, to: ComId, bytes: &'a [u8]) -> Result<(u8, &'a [u8]), Misread>
    ensures read { IfOk result (λ x. number_at w8 bytes.now ≡ Some (x.0, x.1.now)) }
    ensures place { Reads (λ x. (x.0, x.1.now)) result (field (number_at w8) (λ h. nat_lt h (length (places.handlers_of program.now to))) bytes.now) }
{
    let (number, rest) = byte(bytes)?;
    if usize::from(number) < handlers_of(program, to).len() {
        Ok((number, rest))
    } else {
        Err(Misread::Left(bytes.len()))
    }
}

/// How many values a message has, as many as parameters and at most 8.
#[tactic(auto, unfolding(def_log::specs::Reading::tested_at))]
fn arity<'a>(
    program: &Program,
    to: ComId,
    handler: u8,
    bytes: &'a [u8],
) -> Result<(u8, &'a [u8]), Misread>
    ensures read { IfOk result (λ x. tested_at w8 (λ n. nat_le n VALUES) bytes.now ≡ Some (x.0, x.1.now)) }
    ensures few { IfOk result (λ x. x.0 ≤ VALUES) }
    ensures place { Reads (λ x. (x.0, x.1.now)) result (field (number_at w8) (λ n. nat_le n VALUES && (n == places.params_of program.now to handler)) bytes.now) }
{
    let (n, rest) = byte(bytes)?;
    if usize::from(n) <= VALUES && n == params_of(program, to, handler) {
        Ok((n, rest))
    } else {
        Err(Misread::Left(bytes.len()))
    }
}

/// As many values as parameters, behind their count.
#[tactic(auto, unfolding(def_log::specs::Reading::args_at, def_state::specs::ImagePlaces::counted_values))]
fn args_for<'a>(
    alloc: Global,
    program: &Program,
    to: ComId,
    handler: u8,
    bytes: &'a [u8],
) -> Result<(Args, &'a [u8]), Misread>
    ensures read { IfOk result (λ x. args_at bytes.now ≡ Some (x.0, x.1.now)) }
    ensures place { Reads (λ x. (length x.0, x.1.now)) result (places.counted_values (λ n. nat_le n VALUES && (n == places.params_of program.now to handler)) bytes.now) }
{
    let (count, rest) = arity(program, to, handler, bytes)?;
    arguments(alloc, count, rest)
}

/// A held message behind those with these last numbers, where so many were sent.
#[tactic(auto, unfolding(def_state::specs::Image::message_at, def_state::specs::ImagePlaces::message))]
fn message<'a>(
    alloc: Global,
    program: &Program,
    c: ComId,
    clock: u64,
    sent: &Counts,
    last: &Counts,
    bytes: &'a [u8],
) -> Result<(Msg, &'a [u8]), Misread>
    ensures read { IfOk result (λ x. message_at c bytes.now ≡ Some (held_in_image x.0, x.1.now)) }
    ensures place { Reads (λ x. (put_number x.0.to x.0.k last.now.seen, x.1.now)) result (places.message program.now c clock sent.now.seen last.now.seen bytes.now) }
{
    let (to, rest) = receiver(program, c, bytes)?;
    let (k, rest) = message_number(sent, last, to, rest)?;
    let (stamp, rest) = stamp(clock, rest)?;
    let (handler, rest) = handler(program, to, rest)?;
    match args_for(alloc, program, to, handler, rest) {
        Ok((args, rest)) => Ok((
            Msg {
                from: c,
                to,
                k,
                stamp,
                handler,
                args,
            },
            rest,
        )),
        Err(e) => Err(e),
    }
}

/// So many held messages, on links on which so many were sent.
pub(crate) fn messages<'a>(
    alloc: Global,
    program: &Program,
    c: ComId,
    clock: u64,
    links: &Links,
    count: u32,
    bytes: &'a [u8],
) -> Result<(Msgs, &'a [u8]), Misread>
    ensures read { IfOk result (λ x. many_at (message_at c) count bytes.now ≡ Some (map held_in_image x.0, x.1.now)) }
    ensures place { Passes (λ x. x.1.now) result (items (places.message program.now c clock links.now) count [] bytes.now) }
{
    let sent = Counts::from_list(alloc, links.as_slice())?;
    let mut last = Counts::new(alloc);
    let mut messages = Items::new(alloc);
    let mut rest = bytes;
    for _ in 0..count {
        match message(alloc, program, c, clock, &sent, &last, rest) {
            Ok((next, more)) => {
                last.reserve(1)?;
                last.put(next.to, next.k);
                messages.push(next)?;
                rest = more;
            }
            Err(e) => return Err(e),
        }
    }
    Ok((messages, rest))
}

/// Whether these senders are all below another component.
fn stand_below(senders: &[(ComId, u64, Numbers)], from: ComId) -> bool
    ensures { result ≡ list_all (λ s. nat_lt s.0.0 from.0) senders.now }
{
    senders.iter().all(|sender| sender.0.0 < from.0)
}

/// A sender behind these.
#[tactic(auto, using(crate::proofs::Loops::all_mapped))]
fn sender_end<'a>(
    program: &Program,
    c: ComId,
    senders: &Senders,
    bytes: &'a [u8],
) -> Result<(ComId, &'a [u8]), Misread>
    ensures read { IfOk result (λ x. com_at bytes.now ≡ Some (x.0, x.1.now)) }
    ensures place { Reads (λ x. (x.0, x.1.now)) result (field com_at (λ from. programs.is_other_pcom program.now c from && list_all (λ s. nat_lt s from.0) (map (λ s. s.0.0) senders.now)) bytes.now) }
{
    let (from, rest) = com(bytes)?;
    if is_other_pcom(program, c, from) && stand_below(senders.as_slice(), from) {
        Ok((from, rest))
    } else {
        Err(Misread::Left(bytes.len()))
    }
}

/// How many numbers are taken above the one up to which all are: at least one where that is 0.
fn count_above(w: u64, bytes: &[u8]) -> Result<(u32, &[u8]), Misread>
    ensures read { IfOk result (λ x. number_at w32 bytes.now ≡ Some (x.0, x.1.now)) }
    ensures place { Reads (λ x. (x.0, x.1.now)) result (field (number_at w32) (λ n. nat_lt 0 w || nat_lt 0 n) bytes.now) }
{
    let (n, rest) = word(bytes)?;
    if 0 < w || 0 < n {
        Ok((n, rest))
    } else {
        Err(Misread::Left(bytes.len()))
    }
}

/// A taken number above the last one.
fn above(last: u64, bytes: &[u8]) -> Result<(u64, &[u8]), Misread>
    ensures read { IfOk result (λ x. count_at bytes.now ≡ Some (x.0, x.1.now)) }
    ensures place { Reads (λ x. (x.0, x.1.now)) result (places.above last bytes.now) }
{
    let (k, rest) = count(bytes)?;
    if last < k {
        Ok((k, rest))
    } else {
        Err(Misread::Left(bytes.len()))
    }
}

/// So many taken numbers above one.
fn numbers(alloc: Global, first: u64, count: u32, bytes: &[u8]) -> Result<(Numbers, &[u8]), Misread>
    ensures read { IfOk result (λ x. many_at count_at count bytes.now ≡ Some (x.0, x.1.now)) }
    ensures place { Passes (λ x. x.1.now) result (items places.above count first bytes.now) }
{
    let mut numbers = Items::new(alloc);
    let mut last = first;
    let mut rest = bytes;
    for _ in 0..count {
        let (k, more) = above(last, rest)?;
        last = k;
        numbers.push(k)?;
        rest = more;
    }
    Ok((numbers, rest))
}

/// A sender behind these, with its taken numbers.
#[tactic(auto, unfolding(def_state::specs::Image::part_at, def_state::specs::ImagePlaces::sender))]
fn sender<'a>(
    alloc: Global,
    program: &Program,
    c: ComId,
    senders: &Senders,
    bytes: &'a [u8],
) -> Result<((ComId, u64, Numbers), &'a [u8]), Misread>
    ensures read { IfOk result (λ x. part_at bytes.now ≡ Some (x.0, x.1.now)) }
    ensures place { Reads (λ x. (map (λ s. s.0.0) senders.now ++ x.0.0.0 ∷ [], x.1.now)) result (places.sender program.now c (map (λ s. s.0.0) senders.now) bytes.now) }
{
    let (from, rest) = sender_end(program, c, senders, bytes)?;
    let (w, rest) = time(rest)?;
    let (count, rest) = count_above(w, rest)?;
    let (above, rest) = numbers(alloc, w + 1, count, rest)?;
    Ok(((from, w, above), rest))
}

/// So many senders.
pub(crate) fn senders<'a>(
    alloc: Global,
    program: &Program,
    c: ComId,
    count: u8,
    bytes: &'a [u8],
) -> Result<(Senders, &'a [u8]), Misread>
    ensures read { IfOk result (λ x. many_at part_at count bytes.now ≡ Some (x.0, x.1.now)) }
    ensures place { Passes (λ x. x.1.now) result (items (places.sender program.now c) count [] bytes.now) }
{
    let mut senders = Items::new(alloc);
    let mut rest = bytes;
    for _ in 0..count {
        let (next, more) = sender(alloc, program, c, &senders, rest)?;
        senders.push(next)?;
        rest = more;
    }
    Ok((senders, rest))
}
