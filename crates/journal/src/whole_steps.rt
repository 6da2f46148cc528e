//! All steps, with all messages.

ghost use Rattle.std.specs.Prelude.{◌≡◌, ℕ, ◌<◌, Bool, List, [], ◌∷◌, ◌++◌, OnOk, vec_len, vec_capacity};
ghost use Rattle.std.specs.Option.{option_map};
ghost use Rattle.node_parts.specs.histories.specs.Following.{UpOrDown};
ghost use Rattle.node_parts.specs.traces.specs.Traced.{Tells, TraceReachesFrom, StepFollowsBehind};
ghost use Rattle.journal.specs.Recalled.{held_at, RecallsAsBefore, RecallsMore, HasRoomToRecall};

use ballots::Message;
use node_parts::{Config, Step, Trace};
use std::alloc::{AllocError, Global};
use std::marker::Model;

/// All steps.
#[derive(Drop)]
pub(crate) struct WholeSteps {
    pub(crate) trace: Trace,
    pub(crate) recovered: Vec<bool>,
}

impl Model for WholeSteps {
    ghost use Rattle.std.specs.Prelude.{◌-◌, vec_len, vec_capacity};
    ghost use Rattle.journal.specs.Recalled.{Recalled};

    ghost Value = { Recalled };

    ghost view = { λ w. record {
      trace = w.trace;
      recovered = w.recovered.items;
      room = vec_capacity w.recovered - vec_len w.recovered;
      forgotten = 0;
    } };
}

impl WholeSteps {
    /// No step. It takes memory from this allocator as it grows.
    pub(crate) fn new(alloc: Global, config: Config) -> WholeSteps
        ensures trace { Tells result.trace config [] [] }
        ensures recovered { result.recovered ≡ [] }
    {
        WholeSteps {
            trace: Trace::new(alloc, config),
            recovered: Vec::new(alloc),
        }
    }

    /// The message of this number.
    pub(crate) fn message(&self, number: u64) -> Option<&Message>
        ensures held { option_map (λ message. message.now) result
            ≡ held_at self.now.forgotten self.now.trace.sent number }
        ensures none { self.now.forgotten ≡ 0 }
    {
        self.trace.sent().get(number as usize)
    }

    /// Makes room for one step more that sends so many messages. [`AllocError`] says that memory was refused.
    pub(crate) fn reserve(&mut self, count: usize) -> Result<(), AllocError>
        ensures room { OnOk result (HasRoomToRecall self.new count) }
        ensures same { RecallsAsBefore self.old self.new }
    {
        self.recovered.reserve(1)?;
        self.trace.reserve(count)
    }

    /// Puts a step behind the others.
    pub(crate) fn push(&mut self, step: Step, more: Vec<Message>, recovered: bool)
        requires { HasRoomToRecall self.old (vec_len more) }
        ensures more { RecallsMore self.old step more.items recovered self.new }
        ensures reaches { (start : ℕ → UpOrDown) (was : List Bool) (seats new : ℕ → UpOrDown)
            → TraceReachesFrom start self.old.trace was seats
            → StepFollowsBehind self.old.trace seats step more.items recovered new
            → TraceReachesFrom start self.new.trace (was ++ recovered ∷ []) new }
    {
        self.trace.push(step, more);
        put_flag(&mut self.recovered, recovered);
    }
}

// Puts a flag behind the others, where there is room for it.
fn put_flag(flags: &mut Vec<bool>, flag: bool)
    requires { vec_len flags.old < vec_capacity flags.old }
    ensures { flags.new.items ≡ flags.old.items ++ flag ∷ [] }
{
    match flags.push(flag) {
        Ok(()) => {}
        Err(_) => unreachable!(),
    }
}
