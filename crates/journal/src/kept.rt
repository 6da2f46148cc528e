//! The steps of a journal, as far as it retains them.

ghost use Rattle.std.specs.Prelude.{◌≡◌, ◌↔◌, ℕ, Bool, IsTrue, IsSome, List, ◌∷◌, ◌++◌, [], true, false, length, OnOk, vec_len};
ghost use Rattle.std.specs.Option.{IfSome, option_map};
ghost use Rattle.node_parts.specs.histories.specs.Following.{UpOrDown};
ghost use Rattle.node_parts.specs.traces.specs.Traced.{TraceReachesFrom, StepFollowsBehind};
ghost use Rattle.journal.specs.Recalled.{held_at, HoldsTheLast, RecallsAsBefore, RecallsMore, HasRoomToRecall};

use crate::recent_steps::RecentSteps;
use crate::whole_steps::WholeSteps;
use ballots::Message;
use node_parts::{Config, Step, Trace};
use std::alloc::AllocError;
use std::marker::Model;

#[derive(Drop)]
enum Either {
    Whole(WholeSteps),
    Recent(RecentSteps),
}

/// The steps of a journal: all, or their number and the last messages.
#[derive(Drop)]
pub(crate) struct Kept {
    steps: Either,
}

impl Model for Kept {
    ghost use Rattle.journal.specs.Kept.{Kept as KeptSteps, kept_by};

    ghost Value = { KeptSteps };

    ghost view = { λ k. kept_by k.steps };
}

impl Kept {
    /// All of these.
    pub(crate) fn whole(steps: WholeSteps) -> Kept
        ensures recalled { result.recalled ≡ steps }
        ensures whole { result.whole ≡ true }
    {
        Kept {
            steps: Either::Whole(steps),
        }
    }

    /// The last of these.
    pub(crate) fn recent(steps: RecentSteps) -> Kept
        ensures recalled { result.recalled ≡ steps }
        ensures whole { result.whole ≡ false }
    {
        Kept {
            steps: Either::Recent(steps),
        }
    }

    /// All of them, and of each whether it restarted a node that had back what was due; `None` where they are not held.
    pub(crate) fn all(&self) -> Option<(&Trace, &[bool])>
        ensures trace { IfSome result (λ steps. steps.0.now ≡ self.now.recalled.trace) }
        ensures recovered { IfSome result (λ steps. steps.1.now ≡ self.now.recalled.recovered) }
        ensures some { IsSome result ↔ IsTrue self.now.whole }
    {
        match &self.steps {
            Either::Whole(steps) => Some((&steps.trace, steps.recovered.as_slice())),
            Either::Recent(_) => None,
        }
    }

    /// What the nodes have in common.
    pub(crate) fn config(&self) -> Config
        ensures { result ≡ self.now.recalled.trace.config }
    {
        match &self.steps {
            Either::Whole(steps) => steps.trace.config(),
            Either::Recent(steps) => steps.config(),
        }
    }

    /// How many steps there were.
    pub(crate) fn step_count(&self) -> u64
        ensures { result ≡ length self.now.recalled.trace.steps }
    {
        match &self.steps {
            Either::Whole(steps) => steps.trace.steps().len() as u64,
            Either::Recent(steps) => steps.step_count(),
        }
    }

    /// How many messages were sent.
    pub(crate) fn sent_count(&self) -> u64
        ensures { result ≡ length self.now.recalled.trace.sent }
    {
        match &self.steps {
            Either::Whole(steps) => steps.trace.sent().len() as u64,
            Either::Recent(steps) => steps.sent_count(),
        }
    }

    /// The message of this number, where it is held; where all are held, none is forgotten, and else the last ones are held.
    pub(crate) fn message(&self, number: u64) -> Option<&Message>
        ensures held { option_map (λ message. message.now) result
            ≡ held_at self.now.recalled.forgotten self.now.recalled.trace.sent number }
        ensures last { HoldsTheLast self.now.recalled }
        ensures whole { IsTrue self.now.whole → self.now.recalled.forgotten ≡ 0 }
    {
        match &self.steps {
            Either::Whole(steps) => steps.message(number),
            Either::Recent(steps) => steps.message(number),
        }
    }

    /// Makes room for one step more that sends so many messages. [`AllocError`] says that there is none.
    pub(crate) fn reserve(&mut self, count: usize) -> Result<(), AllocError>
        ensures room { OnOk result (HasRoomToRecall self.new.recalled count) }
        ensures same { RecallsAsBefore self.old.recalled self.new.recalled }
        ensures whole { self.new.whole ≡ self.old.whole }
    {
        match &mut self.steps {
            Either::Whole(steps) => steps.reserve(count),
            Either::Recent(steps) => steps.reserve(count),
        }
    }

    /// Puts a step behind the others.
    pub(crate) fn push(&mut self, step: Step, more: Vec<Message>, recovered: bool)
        requires { HasRoomToRecall self.old.recalled (vec_len more) }
        ensures more { RecallsMore self.old.recalled step more.items recovered self.new.recalled }
        ensures whole { self.new.whole ≡ self.old.whole }
        ensures reaches { (start : ℕ → UpOrDown) (was : List Bool) (seats new : ℕ → UpOrDown)
            → TraceReachesFrom start self.old.recalled.trace was seats
            → StepFollowsBehind self.old.recalled.trace seats step more.items recovered new
            → TraceReachesFrom start self.new.recalled.trace (was ++ recovered ∷ []) new }
    {
        match &mut self.steps {
            Either::Whole(steps) => steps.push(step, more, recovered),
            Either::Recent(steps) => steps.push(step, more, recovered),
        }
    }
}
