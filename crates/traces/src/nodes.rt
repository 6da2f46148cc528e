//! Nodes to which events are applied.

ghost use Rattle.std.specs.Prelude.{ℕ};
ghost use Rattle.agreement_rules.specs.Views.{AgreementConfig};
ghost use Rattle.histories.specs.Following.{UpOrDown};
ghost use Rattle.traces.specs.Applying.{Answers};

use ballots::Message;
use node_events::{Event, EventResult};
use std::alloc::AllocError;

/// All nodes of a run: members, each up or down, with what it has.
pub trait RunNodes {
    /// They are nodes of this configuration, and each has this. Of what a node has, contracts see what decides its
    /// answers.
    ghost have: { Self → AgreementConfig → (ℕ → UpOrDown) → Type 0 };

    /// Applies an event, and tells what it gives. The messages that it sends are put behind those that were sent
    /// before.
    ///
    /// An event of a node that is no member is [`node_events::Reason::OutOfRange`]; one but a restart of a node that is
    /// down is [`node_events::Reason::Down`]; the delivery of a message that was not sent yet is
    /// [`node_events::Reason::NotSent`]; all else is what the node's rules make of it, and
    /// [`node_events::Reason::OutOfMemory`] where the node wants memory and it is refused.
    ///
    /// [`AllocError`] says that memory for what stands outside the node was refused, as for the messages that go out.
    /// The event is not applied then: nodes and messages are as before.
    fn apply(&mut self, sent: &mut Vec<Message>, event: &Event) -> Result<EventResult, AllocError>
        ensures { (config : AgreementConfig) (seats : ℕ → UpOrDown) → have self.old config seats
            → Answers (have self.new config) config seats sent.old.items sent.new.items event.now result };
}
