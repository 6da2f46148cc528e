//! What a step of a node keeps, sends and changes.

ghost use Rattle.std.specs.Prelude.{◌≡◌};
ghost use Rattle.std.specs.Option.{option_map};
ghost use Rattle.agreement.specs.Step.{kept_of};

use ballots::{Acceptance, Ballot, Message, NodeId, Record, Slot, Value};

/// What a step changes, beside what the record in it tells.
#[derive(Debug, Drop)]
pub enum Change {
    /// Nothing else.
    Nothing,
    /// The acceptor promises or accepts, as this record tells.
    Answered(Record),
    /// An attempt begins.
    Began {
        /// For which slot.
        slot: Slot,
        /// What it proposes where nothing is reported.
        candidate: Value,
        /// At which ballot.
        ballot: Ballot,
        /// The record of it.
        began: Record,
    },
    /// A promise came.
    Promised {
        /// Whose promise it is.
        sender: NodeId,
        /// For which slot.
        slot: Slot,
        /// At which ballot.
        ballot: Ballot,
        /// What it reports.
        report: Option<Acceptance>,
    },
    /// A refusal came.
    Refused {
        /// Of which slot.
        slot: Slot,
        /// Which ballot is refused.
        ballot: Ballot,
    },
    /// An acceptor told that it accepted.
    Accepted {
        /// The acceptor.
        sender: NodeId,
        /// For which slot.
        slot: Slot,
        /// What it accepted, and at which ballot.
        acceptance: Acceptance,
        /// What the slot learns by it.
        learned: Option<Value>,
    },
    /// A value was told as decided.
    Decided {
        /// For which slot.
        slot: Slot,
        /// Which value.
        value: Value,
        /// What the slot learns by it.
        learned: Option<Value>,
    },
}

/// A step that is decided and not yet taken.
#[derive(Debug, Drop)]
pub struct AgreementStep {
    /// The messages that go out after it is taken.
    pub sends: Vec<Message>,
    /// The values by which the prefix grows.
    pub grown: Vec<Value>,
    /// The greatest round that the node has seen then.
    pub seen_round: u32,
    /// What it changes.
    pub change: Change,
}

impl AgreementStep {
    /// The record that is kept before the step is taken, if there is one.
    pub fn kept(&self) -> Option<&Record>
        ensures { option_map (λ kept. kept.now) result ≡ kept_of self.now.change }
    {
        match &self.change {
            Change::Answered(kept) => Some(kept),
            Change::Began { began, .. } => Some(began),
            _ => None,
        }
    }
}
