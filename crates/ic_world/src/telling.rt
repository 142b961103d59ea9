ghost use Rattle.std.specs.Prelude.{◌≡◌, ◌+◌, ◌<◌, ◌++◌, List, slice_set, IfOk, OnOk};
ghost use Rattle.ic_base.specs.declared.messages.ComId.{ComId};
ghost use Rattle.ic_base.specs.declared.messages.Output.{Output};
ghost use Rattle.def_step.specs.World as definition;
ghost use Rattle.def_step.specs.World.{Node};
ghost use Rattle.ic_node.specs.Calling.{done_with};
ghost use Rattle.ic_world.specs.Telling.{told_showing, with_showing};
ghost use Rattle.ic_world.specs.Working.{with_network};

use ic_base::{Answer, ComId, Event, Items, Output, Trace};
use ic_network::{Network, Shown};
use ic_node::Done;
use std::alloc::{AllocError, Global};

/// An output that a component shows, and whether it was shown before.
fn show(shown: &mut Shown, c: ComId, output: &Option<Output>) -> Option<(Output, bool)>
    requires { 0 < shown.old.spare }
    ensures told { result ≡ told_showing shown.old.showings c output.now }
    ensures added { shown.new.showings ≡ with_showing shown.old.showings c output.now }
{
    match output {
        Some(output) => {
            let again = shown.was_shown(c, output.m);
            shown.add(c, *output);
            Some((*output, again))
        }
        None => None,
    }
}

/// What is told of an event behind the work of a component: its packets are put out, and its output is shown.
pub(crate) fn told(
    alloc: Global,
    network: &mut Network,
    shown: &mut Shown,
    event: &Event,
    c: ComId,
    done: Done,
) -> Result<Trace, AllocError>
    ensures packets { OnOk result (network.new.network.packets ≡ network.old.network.packets ++ done.puts) }
    ensures told { IfOk result (λ t. (nodes : List Node) (node : Node) → definition.behind (with_network nodes shown.old.showings network.old.network) event.now c (done_with node done) ≡ record { world = with_network (slice_set nodes c.0 node) shown.new.showings network.new.network; trace = t }) }
{
    network.reserve(done.puts.len())?;
    shown.reserve(1)?;
    let first_put = network.count() + 1;
    let shown = show(shown, c, &done.shown);
    network.put_all(done.puts.as_slice());
    Ok(Trace {
        event: *event,
        answer: done.answer,
        puts: done.puts,
        first_put,
        shown,
        aborted: done.aborted,
    })
}

/// What is told of an event that asks nothing of any component.
pub(crate) fn answered(alloc: Global, network: &Network, event: &Event, answer: Answer) -> Trace
    ensures { (nodes : List Node) (showings : List (ComId × Output)) → definition.unchanged (with_network nodes showings network.now.network) event.now answer ≡ record { world = with_network nodes showings network.now.network; trace = result } }
{
    Trace {
        event: *event,
        answer,
        puts: Items::new(alloc),
        first_put: network.count() + 1,
        shown: None,
        aborted: None,
    }
}
