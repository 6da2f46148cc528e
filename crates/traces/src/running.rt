//! Events that are applied one after the other.

ghost use Rattle.std.specs.Prelude.{◌≡◌, List, ◌∷◌, ◌++◌, [], IfOk, OnOk, OnErr};
ghost use Rattle.histories.specs.Following.{at_first};
ghost use Rattle.node_events.specs.declared.event.Event.{Event as EventSpec};
ghost use Rattle.traces.specs.Told.{config_of};
ghost use Rattle.traces.specs.Applying.{HasBegun, HasCome};
ghost use Rattle.traces.specs.Runs.{IsRunOf};

use crate::config::Config;
use crate::nodes::RunNodes;
use crate::step::Step;
use crate::trace::{Trace, put_step};
use histories::laws::{nothing_reaches_the_start, one_step_more_reaches};
use node_events::{Event, copy_of};
use safe_histories::laws::replicas_agree;
use std::alloc::{AllocError, Global};

/// Applies an event, and puts it behind the trace's steps with what it gave.
fn take_step<N: RunNodes>(
    alloc: Global,
    nodes: &mut N,
    trace: &mut Trace,
    event: &Event,
) -> Result<(), AllocError>
    ensures config { trace.new.config ≡ trace.old.config }
    ensures come { OnOk result ((events : List EventSpec)
        → HasCome (N.have nodes.old (config_of trace.old.config)) trace.old events
        → HasCome (N.have nodes.new (config_of trace.old.config)) trace.new (events ++ event.now ∷ [])) }
    ensures kept { OnErr result ((events : List EventSpec)
        → HasCome (N.have nodes.old (config_of trace.old.config)) trace.old events
        → HasCome (N.have nodes.new (config_of trace.old.config)) trace.old events) }
{
    one_step_more_reaches();
    trace.steps.reserve(1)?;
    let event = copy_of(alloc, event)?;
    match nodes.apply(&mut trace.sent, &event) {
        Ok(result) => {
            put_step(&mut trace.steps, Step { event, result });
            Ok(())
        }
        Err(_) => {
            drop(event);
            Err(AllocError)
        }
    }
}

/// Applies these events to the nodes, one after the other, and tells what each gave. The nodes are those of this
/// configuration, each as it is at first: up, and with nothing.
///
/// [`AllocError`] says that memory for the trace was refused: for its steps, or for the messages that went out. A node
/// that wants memory for itself refuses its event, and the run goes on. The nodes are then as a beginning of the events
/// left them; behind a whole run, as all events left them.
pub fn run_on<N: RunNodes>(
    alloc: Global,
    config: Config,
    nodes: &mut N,
    events: &[Event],
) -> Result<Trace, AllocError>
    requires { N.have nodes.old (config_of config) at_first }
    ensures run { IfOk result (IsRunOf config events.now) }
    ensures nodes { IfOk result (λ trace. HasCome (N.have nodes.new (config_of config)) trace events.now) }
    ensures begun { OnErr result (HasBegun (N.have nodes.new (config_of config)) config events.now) }
{
    nothing_reaches_the_start();
    let mut trace = Trace::new(alloc, config);
    for event in events {
        take_step(alloc, nodes, &mut trace, event)?;
    }
    replicas_agree();
    Ok(trace)
}
