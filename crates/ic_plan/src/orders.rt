ghost use Rattle.std.specs.Prelude.{◌≡◌, ◌<◌, ◌≤◌, ◌++◌, false, length, option_to_list, IfOk, IfSome, IfErr, OnOk, Ok, Err};
ghost use Rattle.std.specs.List.{AllByRecursion};
ghost use Rattle.def_standby.specs.Reading as definition;
ghost use Rattle.def_standby.specs.Reading.{line_orders, all_orders, orders_of};
ghost use Rattle.def_syntax.specs.Allowed.{IsSmall};
ghost use Rattle.def_syntax.specs.Text.{lines_of, numbered};
ghost use Rattle.ic_plan.specs.Events.{LineGives};
ghost use Rattle.ic_plan.specs.Orders.{IsAllowedOrder};
ghost use Rattle.ic_plan.specs.Refusals.{IsRefusedAs};
ghost use Rattle.ic_tokens.specs.Views.{seen_tokens};

use crate::event_line::name_in;
use crate::line::{cause_of, token_event};
use crate::schedule::{NO_MEMORY, add, refused_at};
use crate::verb::Inputs;
use def_standby::{Order, Orders};
use ic_base::limits::TEXT_BYTES;
use ic_base::{Cause, Items, Program, ScenarioRefused};
use ic_tokens::{Token, first_line, schedule_tokens};
use std::alloc::Global;

/// The order whose word comes first in a line.
fn order_of(line: &[u8], tokens: &[Token]) -> Option<Order>
    ensures { result ≡ definition.order_of (seen_tokens line.now tokens.now) }
{
    let [first, ..] = tokens else {
        return None;
    };
    let word = name_in(line, first)?;
    if word == b"ship".as_slice() {
        Some(Order::Ship)
    } else if word == b"takeover".as_slice() {
        Some(Order::TakeOver)
    } else {
        None
    }
}

/// The order of a line's tokens, and whether the schedule is halted behind it.
fn token_order(
    program: &Program,
    halts: bool,
    line: &[u8],
    tokens: &[Token],
) -> Result<(Option<Order>, bool), Cause>
    requires { IsSmall program.now }
    ensures found { LineGives (definition.order_or_event (definition.order_of (seen_tokens line.now tokens.now)) program.now halts (seen_tokens line.now tokens.now)) result }
    ensures there { IfOk result (λ x. IfSome x.0 (IsAllowedOrder program.now)) }
{
    if let Some(order) = order_of(line, tokens) {
        if halts || tokens.len() > 1 {
            return Err(Cause::Structure);
        }
        return Ok((Some(order), false));
    }
    let (event, halted) = token_event(Inputs::Plain, program, halts, line, tokens)?;
    match event {
        Some(event) => Ok((Some(Order::Run(event)), halted)),
        None => Ok((None, halted)),
    }
}

/// The order of a line, and whether the schedule is halted behind it.
#[tactic(auto, unfolding(def_standby::specs::Reading::line_orders))]
fn line_order(
    alloc: Global,
    program: &Program,
    halts: bool,
    line: &[u8],
) -> Result<(Option<Order>, bool), Cause>
    requires { IsSmall program.now }
    ensures found { LineGives (line_orders program.now halts line.now) result }
    ensures there { IfOk result (λ x. IfSome x.0 (IsAllowedOrder program.now)) }
{
    match schedule_tokens(alloc, line) {
        Ok(tokens) => token_order(program, halts, line, tokens.as_slice()),
        Err(refused) => Err(cause_of(refused)),
    }
}

/// The orders of the lines, up to the first that is refused.
fn read_orders(alloc: Global, program: &Program, bytes: &[u8]) -> Result<Orders, ScenarioRefused>
    requires small { IsSmall program.now }
    requires short { length bytes.now ≤ TEXT_BYTES }
    ensures accepted { IfOk result (λ s. all_orders program.now false (numbered 1 (lines_of bytes.now)) ≡ Ok (s.orders, s.halts)) }
    ensures allowed { IfOk result (λ s. AllByRecursion (IsAllowedOrder program.now) s.orders) }
    ensures few { IfOk result (λ s. length s.orders ≤ length bytes.now) }
    ensures refused { IfErr result (IsRefusedAs (all_orders program.now false (numbered 1 (lines_of bytes.now)))) }
{
    let mut orders = Items::new(alloc);
    let mut halts = false;
    let mut rest = bytes;
    let mut number = 1;
    while let Some((line, more)) = first_line(rest) {
        match line_order(alloc, program, halts, line) {
            Ok((order, halted)) => match add(&mut orders, order) {
                Ok(()) => halts = halted,
                Err(_) => return Err(NO_MEMORY),
            },
            Err(cause) => return Err(refused_at(number, cause)),
        }
        rest = more;
        number += 1;
    }
    Ok(Orders { orders, halts })
}

/// The orders of a schedule with a standby: its lines are those of a schedule, and besides `ship` and `takeover`, each alone on its
/// line and before `halt`. Or the least line that is refused, with its cause.
#[tactic(auto, unfolding(def_standby::specs::Reading::orders_of))]
pub fn read_standby(
    alloc: Global,
    program: &Program,
    bytes: &[u8],
) -> Result<Orders, ScenarioRefused>
    requires { IsSmall program.now }
    ensures accepted { IfOk result (λ s. orders_of program.now bytes.now ≡ Ok (s.orders, s.halts)) }
    ensures allowed { IfOk result (λ s. AllByRecursion (IsAllowedOrder program.now) s.orders) }
    ensures few { IfOk result (λ s. length s.orders ≤ length bytes.now) }
    ensures short { OnOk result (length bytes.now ≤ TEXT_BYTES) }
    ensures refused { IfErr result (IsRefusedAs (orders_of program.now bytes.now)) }
    ensures too_long { TEXT_BYTES < length bytes.now → result ≡ Err (record { line = 0; cause = Cause.Limit }) }
{
    if bytes.len() > TEXT_BYTES {
        return Err(ScenarioRefused {
            line: 0,
            cause: Cause::Limit,
        });
    }
    read_orders(alloc, program, bytes)
}
