//! Steps that exist in proofs alone, beside their number and the last messages.

ghost use Rattle.std.specs.Prelude.{◌≡◌, ℕ, ◌^◌, ◌<◌, ◌≤◌, Bool, List, [], ◌∷◌, ◌++◌, length, OnOk, IfOk, vec_len};
ghost use Rattle.std.specs.Option.{option_map};
ghost use Rattle.node_parts.specs.histories.specs.Following.{UpOrDown};
ghost use Rattle.node_parts.specs.traces.specs.Traced.{Tells, TellsMore, HasRoomFor, TraceReachesFrom, StepFollowsBehind};
ghost use Rattle.journal.specs.Recalled.{held_at, HoldsTheLast, RecallsMore, HasRoomToRecall};

use crate::last_messages::LastMessages;
use ballots::Message;
use histories::laws::one_step_more_reaches;
use http_server::Log;
use node_parts::{Config, Step};
use std::alloc::{AllocError, Global};
use std::marker::Model;

// So many steps and so many messages there are at most.
const MOST: u64 = 1 << 62;

// What a step sent. Contracts see the messages.
#[derive(Drop)]
struct Sends {
    messages: Vec<Message>,
}

impl Model for Sends {
    ghost use Rattle.std.specs.Prelude.{List};
    ghost use Rattle.node_parts.specs.ballots.specs.declared.message.Message.{Message as Sent};

    ghost Value = { List Sent };

    ghost view = { λ s. s.messages.items };
}

/// How many steps there were, and the last messages; the steps and all messages are seen by contracts alone.
#[derive(Drop)]
pub(crate) struct RecentSteps {
    config: Config,
    count: u64,
    messages: LastMessages,
    log: Log<(Step, bool), Sends>,
}

impl Model for RecentSteps {
    ghost use Rattle.std.specs.Prelude.{◌≡◌, ◌≤◌, ◌^◌, ◌-◌, length};
    ghost use Rattle.journal.specs.Recalled.{Recalled, IsEndOf, steps_in, recovered_in, sent_in};

    ghost Value = { Recalled };

    ghost view = { λ r. record {
      trace = record {
        config = r.config;
        sent = sent_in r.log.items;
        steps = steps_in r.log.items;
        message_room = 2 ^ 62 - length (sent_in r.log.items);
        step_room = 2 ^ 62 - r.count;
      };
      recovered = recovered_in r.log.items;
      room = 2 ^ 62 - r.count;
      forgotten = r.messages.first;
    } };

    ghost invariant = { λ r. (r.count ≡ length r.log.items) × IsEndOf (sent_in r.log.items) r.messages
        × (length (sent_in r.log.items) ≤ 2 ^ 62) };
}

impl RecentSteps {
    /// No step. Room for the last messages is made at once; [`AllocError`] says that memory was refused.
    pub(crate) fn new(alloc: Global, config: Config) -> Result<RecentSteps, AllocError>
        ensures trace { IfOk result (λ made. Tells made.trace config [] []) }
        ensures recovered { IfOk result (λ made. made.recovered ≡ []) }
    {
        Ok(RecentSteps {
            config,
            count: 0,
            messages: LastMessages::new(alloc)?,
            log: Log::new(),
        })
    }

    /// What the nodes have in common.
    pub(crate) fn config(&self) -> Config
        ensures { result ≡ self.now.trace.config }
    {
        self.config
    }

    /// How many steps there were.
    pub(crate) fn step_count(&self) -> u64
        ensures { result ≡ length self.now.trace.steps }
    {
        self.count
    }

    /// How many messages were sent.
    pub(crate) fn sent_count(&self) -> u64
        ensures { result ≡ length self.now.trace.sent }
    {
        self.messages.count()
    }

    /// The message of this number, where it is held; the last ones are.
    pub(crate) fn message(&self, number: u64) -> Option<&Message>
        ensures held { option_map (λ message. message.now) result
            ≡ held_at self.now.forgotten self.now.trace.sent number }
        ensures last { HoldsTheLast self.now }
    {
        self.messages.get(number)
    }

    /// Whether there is room for one step more that sends so many messages. [`AllocError`] says that there are too many.
    pub(crate) fn reserve(&self, count: usize) -> Result<(), AllocError>
        ensures { OnOk result (HasRoomToRecall self.now count) }
    {
        if self.count >= MOST || count as u64 > MOST - self.sent_count() {
            return Err(AllocError);
        }
        Ok(())
    }

    /// Puts a step behind the others.
    pub(crate) fn push(&mut self, step: Step, more: Vec<Message>, recovered: bool)
        requires { HasRoomToRecall self.old (vec_len more) }
        ensures more { RecallsMore self.old step more.items recovered self.new }
        ensures reaches { (start : ℕ → UpOrDown) (was : List Bool) (seats new : ℕ → UpOrDown)
            → TraceReachesFrom start self.old.trace was seats
            → StepFollowsBehind self.old.trace seats step more.items recovered new
            → TraceReachesFrom start self.new.trace (was ++ recovered ∷ []) new }
    {
        one_step_more_reaches();
        let entry = (step, recovered);
        let sends = Sends { messages: more };
        self.log = self.log.and(&entry, &sends);
        let Sends { messages } = sends;
        drop(entry);
        self.messages.extend(messages);
        self.count += 1;
    }
}
