//! Runs of whole nodes.

ghost use Rattle.std.specs.Prelude.{◌≡◌, IfOk};

use crate::events::events_of;
use crate::plan::plan_in;
use crate::weights::trace_weight;
use part_tasks::TaskFault;
use schedule_runner::{Config, Event, EventResult, RunFault, Step, Trace, run};
use std::alloc::Global;
use std::hash::RandomState;

fn is_one_refused(steps: &[Step]) -> bool {
    for step in steps {
        if matches!(step.result, EventResult::Refused(_)) {
            return true;
        }
    }
    false
}

/// What a run weighs in which no event is refused.
pub(crate) fn weight(trace: &Trace) -> Result<u64, TaskFault> {
    if is_one_refused(trace.steps()) {
        return Err(TaskFault::Refused);
    }
    Ok(trace_weight(trace))
}

/// What a run of these events weighs.
fn run_weight(
    alloc: Global,
    hashing: RandomState,
    config: Config,
    events: &[Event],
) -> Result<u64, TaskFault> {
    match run(alloc, hashing, config, events) {
        Ok(trace) => {
            let weight = weight(&trace);
            drop(trace);
            weight
        }
        Err(RunFault::BadConfig) => Err(TaskFault::BadConfig),
        Err(RunFault::OutOfMemory) => Err(TaskFault::OutOfMemory),
    }
}

/// Plays a leader that loses no message so many times, each time over new nodes. A repetition weighs the number of
/// messages that are sent, each of them, and what each event gives.
pub fn run_often(
    alloc: Global,
    hashing: RandomState,
    count: u64,
    bytes: &[u8],
) -> Result<u64, TaskFault>
    ensures none { count ≡ 0 → IfOk result (λ sum. sum ≡ 0) }
{
    let plan = plan_in(alloc, bytes)?;
    let events = events_of(alloc, &plan)?;
    let mut sum: u64 = 0;
    for _ in 0..count {
        sum = sum.wrapping_add(run_weight(alloc, hashing, plan.config, &events)?);
    }
    Ok(sum)
}
