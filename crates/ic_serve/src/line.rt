ghost use Rattle.std.specs.Prelude.{◌≡◌, ℕ, option_map, IfOk, IfSome};
ghost use Rattle.def_serve.specs.Lines as definition;
ghost use Rattle.def_syntax.specs.Allowed.{IsSmall};
ghost use Rattle.ic_plan.specs.Served.{request_seen};
ghost use Rattle.ic_serve.specs.Reading.{line_read, line_as, MayBeServed};

use ic_base::{Cause, Event, Program, What};
use ic_lines::Read;
use ic_plan::{Request, ServedLine, read_line};
use std::alloc::{AllocError, Global};

/// What a line that was read asks for, or why it is refused.
#[derive(Clone, Copy, Debug)]
pub(crate) enum Line {
    Served(ServedLine),
    Bad(Cause),
}

/// What a line that was read asks for. None of one without tokens.
pub(crate) fn line_of(
    alloc: Global,
    program: &Program,
    read: &Read,
) -> Result<Option<Line>, AllocError>
    requires { IsSmall program.now }
    ensures line { (number : ℕ) → IfOk result (λ o. option_map (line_as number) o ≡ line_read program.now number read.now) }
    ensures may { IfOk result (λ o. IfSome o (MayBeServed program.now)) }
{
    let bytes = match read {
        Read::Line(bytes) => bytes,
        Read::Unterminated(_) => return Ok(Some(Line::Bad(Cause::Structure))),
        Read::TooLong => return Ok(Some(Line::Bad(Cause::Limit))),
    };
    match read_line(alloc, program, bytes.as_slice()) {
        Ok(Some(line)) => Ok(Some(Line::Served(line))),
        Ok(None) => Ok(None),
        Err(Cause::Memory) => Err(AllocError),
        Err(cause) => Ok(Some(Line::Bad(cause))),
    }
}

/// The input that a request is.
pub(crate) fn input_for(request: &Request) -> Event
    ensures { result ≡ definition.input_for (request_seen request.now) }
{
    Event {
        what: What::Input(request.who, request.handler, request.args),
        stop: None,
    }
}
