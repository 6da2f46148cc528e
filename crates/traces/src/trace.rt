//! What a run hands out.

ghost use Rattle.std.specs.Prelude.{◌≡◌, ◌↔◌, ℕ, ◌+◌, ◌<◌, ◌≤◌, Bool, IsTrue, List, [], ◌∷◌, ◌++◌, OnOk, OnErr, vec_len, vec_capacity};
ghost use Rattle.lawful_histories.specs.Lawful.{IsLawful};
ghost use Rattle.histories.specs.Following.{UpOrDown};
ghost use Rattle.traces.specs.Traced.{Tells, TellsAsBefore, TellsMore, HasRoomFor, TraceReachesFrom, StepFollowsBehind};

use crate::config::Config;
use crate::step::Step;
use ballots::{Members, Message};
use histories::laws::one_step_more_reaches;
use lawful_histories::are_lawful;
use std::alloc::{AllocError, Global};
use std::marker::Model;

/// A run of nodes: the events that were applied with what they gave, and all messages that were sent. [`crate::run_on`]
/// makes one of a list of events. Whoever applies events one by one begins with [`Trace::new`] and carries it on with
/// [`Trace::push`].
#[derive(Debug, Drop)]
pub struct Trace {
    pub(crate) config: Config,
    pub(crate) sent: Vec<Message>,
    pub(crate) steps: Vec<Step>,
}

impl Model for Trace {
    ghost use Rattle.traces.specs.Traced.{Traced};

    ghost Value = { Traced };

    ghost use Rattle.std.specs.Prelude.{◌-◌, vec_len, vec_capacity};

    ghost view = { λ t. record {
      config = t.config;
      sent = t.sent.items;
      steps = t.steps.items;
      message_room = vec_capacity t.sent - vec_len t.sent;
      step_room = vec_capacity t.steps - vec_len t.steps;
    } };
}

// Room for one step more, and for so many messages more.
fn make_room(steps: &mut Vec<Step>, sent: &mut Vec<Message>, count: usize) -> Result<(), AllocError>
    ensures steps { steps.new.items ≡ steps.old.items }
    ensures sent { sent.new.items ≡ sent.old.items }
    ensures step_fits { OnOk result (vec_len steps.new < vec_capacity steps.new) }
    ensures messages_fit { OnOk result (vec_len sent.new + count ≤ vec_capacity sent.new) }
{
    steps.reserve(1)?;
    sent.reserve(count)
}

/// Puts a step behind the others, where there is room for it.
pub(crate) fn put_step(steps: &mut Vec<Step>, step: Step)
    requires { vec_len steps.old < vec_capacity steps.old }
    ensures { steps.new.items ≡ steps.old.items ++ step ∷ [] }
{
    match steps.push(step) {
        Ok(()) => {}
        Err(_) => unreachable!(),
    }
}

// Puts messages behind those that were sent, where there is room for them.
fn put_messages(sent: &mut Vec<Message>, mut more: Vec<Message>)
    requires { vec_len sent.old + vec_len more ≤ vec_capacity sent.old }
    ensures { sent.new.items ≡ sent.old.items ++ more.items }
{
    match sent.append(&mut more) {
        Ok(()) => {}
        Err(_) => unreachable!(),
    }
}

impl Trace {
    /// A trace without a step, in which nothing was sent. It takes memory from this allocator as it grows.
    pub fn new(alloc: Global, config: Config) -> Trace
        ensures { Tells result config [] [] }
    {
        Trace {
            config,
            sent: Vec::new(alloc),
            steps: Vec::new(alloc),
        }
    }

    /// Makes room for one step more, and for so many messages more. What the trace tells stays, whatever the answer;
    /// [`AllocError`] says that memory was refused.
    pub fn reserve(&mut self, count: usize) -> Result<(), AllocError>
        ensures room { OnOk result (HasRoomFor self.new count) }
        ensures same { TellsAsBefore self.old self.new }
    {
        make_room(&mut self.steps, &mut self.sent, count)
    }

    /// Puts a step behind the others, where there is room for it ([`Trace::reserve`]): an event that was applied, what
    /// it gave, and the messages that it sent, which are numbered on from those that were sent before. It takes no memory.
    ///
    /// Where the trace reaches some state of the nodes, and the step follows there by their rules and tells as many
    /// messages as it sent, the trace reaches with it the state in which the step leaves them
    /// (`one_step_more_reaches` in the laws of `histories`). So whoever carries on a trace shows of each step alone
    /// that it follows.
    pub fn push(&mut self, step: Step, more: Vec<Message>)
        requires { HasRoomFor self.old (vec_len more) }
        ensures more { TellsMore self.old step more.items self.new }
        ensures reaches { (start : ℕ → UpOrDown) (recovered : List Bool) (seats new : ℕ → UpOrDown) (was : Bool)
            → TraceReachesFrom start self.old recovered seats
            → StepFollowsBehind self.old seats step more.items was new
            → TraceReachesFrom start self.new (recovered ++ was ∷ []) new }
    {
        one_step_more_reaches();
        put_messages(&mut self.sent, more);
        put_step(&mut self.steps, step);
    }

    /// What the nodes have in common.
    pub fn config(&self) -> Config
        ensures { result ≡ self.now.config }
    {
        self.config
    }

    /// How many nodes agree.
    pub fn members(&self) -> Members
        ensures { result ≡ self.now.config.members }
    {
        self.config.members
    }

    /// All messages that were sent, by whichever node, in the order of sending: their numbers are their places.
    pub fn sent(&self) -> &[Message]
        ensures { result.now ≡ self.now.sent }
    {
        &self.sent
    }

    /// Each event with what it gave, in the order in which they were applied.
    pub fn steps(&self) -> &[Step]
        ensures { result.now ≡ self.now.steps }
    {
        &self.steps
    }
}

/// Whether what was sent is lawful, judged from the messages alone: every message is one that a correct node may have
/// sent after those before it (Lamport, *Paxos Made Simple*, section 2). Of the nodes nothing is believed.
///
/// It takes no memory. Its time grows at most with the square of the number of messages.
pub fn audit(trace: &Trace) -> bool
    ensures { IsTrue result ↔ IsLawful trace.now.config.members trace.now.sent }
{
    are_lawful(trace.members(), trace.sent())
}
