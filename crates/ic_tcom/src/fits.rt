ghost use Rattle.std.specs.Prelude.{◌≡◌};
ghost use Rattle.ic_base.specs.Programs as programs;
ghost use Rattle.def_step.specs.Packets as packets;

use ic_base::limits::{GREATEST_NUMBER, REQUESTS};
use ic_base::{ComId, Kind, Packet, Program, Request, Session};

/// Whether a program declares this component as a Pcom.
pub(crate) fn is_a_pcom(program: &Program, c: ComId) -> bool
    ensures { result ≡ programs.is_a_pcom program.now c }
{
    match program.components.as_slice().get(usize::from(c.0)) {
        Some(component) => match component.kind {
            Kind::Pcom => true,
            _ => false,
        },
        None => false,
    }
}

/// Whether a component has a key of this number.
pub(crate) fn has_key(program: &Program, t: ComId, key: u16) -> bool
    ensures { result ≡ programs.has_key program.now t key }
{
    match program.components.as_slice().get(usize::from(t.0)) {
        Some(component) => usize::from(key) < component.keys.len(),
        None => false,
    }
}

/// The key that a request asks for.
pub(crate) fn key_of(request: Request) -> u16
    ensures { result ≡ packets.key_of request }
{
    match request {
        Request::Get(key) => key,
        Request::Put(key, _) => key,
    }
}

/// Whether the packet is one that the Tcom t may get (docs/RULES.md, "Packets that fit").
pub(crate) fn fits_tcom(program: &Program, t: ComId, p: &Packet) -> bool
    ensures { result ≡ packets.fits_tcom program.now t p.now }
{
    match *p {
        Packet::Op {
            from,
            n,
            place,
            session,
            request,
            ..
        } => {
            is_a_pcom(program, from)
                && is_number(n)
                && place_fits(place, session)
                && has_key(program, t, key_of(request))
        }
        Packet::Commit {
            from,
            n,
            session,
            stamp,
            ..
        } => is_a_pcom(program, from)
            && is_number(n)
            && session_fits(session)
            && stamp <= GREATEST_NUMBER,
        Packet::Drop { from, n, .. } => is_a_pcom(program, from) && is_number(n),
        _ => false,
    }
}

fn is_number(n: u64) -> bool
    ensures { result ≡ programs.is_number n }
{
    1 <= n && n <= GREATEST_NUMBER
}

fn session_fits(session: Session) -> bool
    ensures { result ≡ programs.session_fits session }
{
    session.epoch <= GREATEST_NUMBER && session.counter <= GREATEST_NUMBER
}

// Place 0 carries no session, a later place one.
fn place_fits(place: u16, session: Option<Session>) -> bool
    ensures { result ≡ packets.place_fits place session }
{
    match session {
        None => place == 0,
        Some(session) => 0 < place && usize::from(place) < REQUESTS && session_fits(session),
    }
}
