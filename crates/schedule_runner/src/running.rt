//! Runs of nodes that they have themselves.

ghost use Rattle.std.specs.Prelude.{◌≡◌, ◌↔◌, Err, IfOk};
ghost use Rattle.traces.specs.Runs.{IsRunOf};
ghost use Rattle.traces.specs.Limits.{IsWithinLimits};
ghost use Rattle.schedule_runner.specs.declared.fault.RunFault.TheVariants.{BadConfig};

use crate::fault::RunFault;
use crate::seats::Seats;
use node_events::Event;
use std::alloc::Global;
use std::hash::RandomState;
use traces::{Config, Trace, run_on};

/// Applies these events, one after the other, to nodes of this configuration, each of which is up at first and has
/// nothing; and tells what each gave. `hashing` has the random keys that keep look-ups fast whatever names clients
/// choose.
///
/// [`RunFault::BadConfig`] exactly where a limit of the configuration is 0 or too great ([`Config::is_within_limits`]).
/// [`RunFault::OutOfMemory`] says that memory for the nodes as they are at first, or for the trace, was refused: for
/// its steps, or for the messages that went out. A node that wants memory for itself refuses its event, and the run
/// goes on.
pub fn run(
    alloc: Global,
    hashing: RandomState,
    config: Config,
    events: &[Event],
) -> Result<Trace, RunFault>
    ensures run { IfOk result (IsRunOf config events.now) }
    ensures config { result ≡ Err BadConfig ↔ (IsWithinLimits config → ⊥) }
{
    let Some(agreed) = config.agreed() else {
        return Err(RunFault::BadConfig);
    };
    let mut seats = Seats::open(alloc, hashing, agreed)?;
    Ok(run_on(alloc, config, &mut seats, events)?)
}
