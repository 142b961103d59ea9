use case_words::{Words, no_call, packet, say, tell};
use ic_base::{ComId, Output, Packet};
use ic_network::{Network, Shown};
use std::alloc::AllocError;
use std::{io, mem};

/// The next number of a sequence that has no pattern.
fn scrambled(x: u64) -> u64 {
    x.wrapping_mul(6_364_136_223_846_793_005)
        .wrapping_add(1_442_695_040_888_963_407)
}

/// A number that tells two answers apart.
fn told(oldest: Option<(ComId, ComId)>, of_pair: Option<u32>) -> u64 {
    let first = oldest.map_or(99, |(from, to)| u64::from(from.0) * 4 + u64::from(to.0));
    u64::from(of_pair.unwrap_or(0))
        .wrapping_mul(100)
        .wrapping_add(first)
}

/// One turn of many: a packet is put out or another one taken off, as the number x says.
fn turn(network: &mut Network, x: u64) -> Result<u64, AllocError> {
    let (from, to) = (ComId(((x >> 33) % 4) as u8), ComId(((x >> 41) % 4) as u8));
    let of_pair = network.oldest_of(from, to);
    let answer = told(network.oldest(), of_pair);
    if network.waiting() < 50 && (x >> 60) < 9 {
        network.reserve(1)?;
        network.put(&Packet::Drop { from, to, n: 1 });
        return Ok(answer);
    }
    let any = ((x >> 17) % 100_000) as u32;
    if (x >> 62) == 0 {
        network.take_off(any);
    } else {
        network.take_off(of_pair.unwrap_or(any));
    }
    Ok(answer)
}

/// So many turns without a pattern; what is read before each, folded.
fn turns(network: &mut Network, count: u32) -> Result<u64, AllocError> {
    let (mut x, mut fold) = (1_u64, 0_u64);
    for _ in 0..count {
        x = scrambled(x);
        fold = fold.wrapping_mul(31).wrapping_add(turn(network, x)?);
    }
    Ok(fold)
}

fn put(rt: &HostRuntime, network: &mut Network, words: &mut Words<'_>) -> io::Result<()> {
    let Some(p) = packet(rt.alloc(), words)? else {
        return say(rt, "no packet");
    };
    network.reserve(1)?;
    network.put(&p);
    tell(rt, &network.count())
}

/// Begins another network.
fn begin(rt: &HostRuntime, network: &mut Network) -> io::Result<()> {
    drop(mem::replace(network, Network::new(rt.alloc())?));
    say(rt, "new")
}

fn take_off(rt: &HostRuntime, network: &mut Network, words: &mut Words<'_>) -> io::Result<()> {
    network.take_off(words.medium());
    tell(rt, &network.waiting())
}

/// Makes a call on a network.
pub fn answer(rt: &HostRuntime, network: &mut Network, words: &mut Words<'_>) -> io::Result<()> {
    match words.word() {
        "new" => begin(rt, network),
        "put" => put(rt, network, words),
        "turns" => tell(rt, &turns(network, words.medium())?),
        "take_off" => take_off(rt, network, words),
        "packet" => tell(rt, &network.packet(words.medium())),
        "oldest" => tell(rt, &network.oldest()),
        "oldest_of" => tell(rt, &network.oldest_of(words.com(), words.com())),
        other => no_call(rt, other),
    }
}

/// Shows an output: its sender and number, where it goes, and its values.
fn add(rt: &HostRuntime, shown: &mut Shown, words: &mut Words<'_>) -> io::Result<()> {
    let (from, m, to) = (words.com(), words.number(), words.com());
    let Some(args) = words.args(rt.alloc())? else {
        return say(rt, "too many values");
    };
    shown.reserve(1)?;
    shown.add(from, Output { m, to, args });
    say(rt, "added")
}

/// Makes a call on the outputs that were shown.
pub fn answer_of_shown(
    rt: &HostRuntime,
    shown: &mut Shown,
    words: &mut Words<'_>,
) -> io::Result<()> {
    match words.word() {
        "add" => add(rt, shown, words),
        "was" => tell(rt, &shown.was_shown(words.com(), words.number())),
        other => no_call(rt, other),
    }
}
