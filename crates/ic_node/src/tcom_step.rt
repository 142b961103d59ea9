ghost use Rattle.std.specs.Int.{w64};
ghost use Rattle.std.specs.Prelude.{◌≡◌, ◌<◌, ◌≤◌, ◌^◌, ◌&&◌, FitsSigned, false, length, IfOk, option_to_list};
ghost use Rattle.ic_base.specs.declared.limits.TheConstants.{COMPONENTS};
ghost use Rattle.ic_base.specs.declared.messages.ComId.{ComId};
ghost use Rattle.def_step.specs.Packets.{fits_tcom};
ghost use Rattle.def_step.specs.Pcom.{Gets};
ghost use Rattle.def_step.specs.World.{Serves, is_drop, tcom_fate};
ghost use Rattle.ic_tcom.specs.Views.{component_of, com_of, disk_of, is_closed};
ghost use Rattle.ic_node.specs.Calling.{told_served};
ghost use Rattle.ic_node.specs.Sittings.{SittingsFit, AsksFit};
ghost use Rattle.ic_node.specs.Steps.{StepsOver};

use crate::done::Done;
use ic_base::{Answer, Fate, Items, Packet, Program, Request, is_a_pcom, is_number};
use ic_disk::Disk;
use ic_pcom::{PacketRefused, packet_refusal};
use ic_tcom::Tcom;
use std::alloc::{AllocError, Global};

/// Whether a packet is a Drop that fits, which counts as used.
fn is_used_drop(program: &Program, p: &Packet) -> bool
    ensures { (t : ComId) → result ≡ (is_drop p.now && fits_tcom program.now t p.now) }
{
    match *p {
        Packet::Drop { from, n, .. } => is_a_pcom(program, from) && is_number(n),
        _ => false,
    }
}

/// What became of a packet that a Tcom served.
fn fate(program: &Program, p: &Packet, answer: &Option<Packet>) -> Fate
    ensures { (t : ComId) → result ≡ tcom_fate program.now t p.now (option_to_list answer.now) }
{
    if is_used_drop(program, p) || answer.is_some() {
        Fate::Used
    } else {
        Fate::Ignored
    }
}

/// What is told of a packet that a Tcom served.
fn told(
    alloc: Global,
    program: &Program,
    number: u32,
    p: &Packet,
    answer: Option<Packet>,
) -> Result<Done, AllocError>
    ensures { IfOk result (λ done. (t : ComId) → done ≡ told_served program.now t number p.now (option_to_list answer)) }
{
    let fate = fate(program, p, &answer);
    let mut puts = Items::new(alloc);
    if let Some(packet) = answer {
        puts.push(packet)?;
    }
    Ok(Done {
        answer: Answer::Packet(number, *p, fate),
        puts,
        shown: None,
        aborted: None,
        played: 0,
    })
}

/// A key has the range of its type.
fn is_short(key: u16)
    ensures { key < 2 ^ 16 }
{}

/// A value has the range of its type.
fn is_signed(value: i64)
    ensures { FitsSigned w64 value }
{}

/// What a packet asks to write has the range of its type.
fn asks_fit(p: &Packet)
    ensures { AsksFit p.now }
{
    if let Packet::Op {
        request: Request::Put(key, value),
        ..
    } = *p
    {
        is_short(key);
        is_signed(value);
    }
}

/// Serves a packet at a Tcom, and tells what it comes to.
pub(crate) fn tcom_step<D: Disk>(
    tcom: &mut Tcom<D>,
    alloc: Global,
    program: &Program,
    number: u32,
    p: &Packet,
) -> Result<Done, PacketRefused>
    requires open { is_closed tcom.old ≡ false }
    requires few { length program.now.components ≤ COMPONENTS }
    requires fit { ∥ SittingsFit (component_of tcom.old).sittings ∥₁ }
    ensures step { StepsOver D.Disk program.now (com_of tcom.old) (Serves (component_of tcom.old)) (disk_of tcom.old) number (Gets p.now) (Serves (component_of tcom.new)) (disk_of tcom.new) result }
    ensures up { IfOk result (λ done. (is_closed tcom.new ≡ false) × (com_of tcom.new ≡ com_of tcom.old) × ∥ SittingsFit (component_of tcom.new).sittings ∥₁) }
{
    asks_fit(p);
    match tcom.on_packet(alloc, program, p) {
        Ok(answer) => match told(alloc, program, number, p, answer) {
            Ok(done) => Ok(done),
            Err(_) => Err(PacketRefused::Memory),
        },
        Err(why) => Err(packet_refusal(why)),
    }
}
