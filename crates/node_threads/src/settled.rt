//! What has become of an upload.

ghost use Rattle.std.specs.Prelude.{◌≡◌, ◌↔◌, IsTrue};
ghost use Rattle.seats.specs.declared.query.Query.TheVariants.{Outcome as Asked};
ghost use Rattle.node_threads.specs.Told.{IsAskedAt, settling_receipt};

use node_events::{Event, EventResult};
use seats::Receipt;
use std::marker::Model;
use table_versions::Outcome;
use uploads::Upload;

/// What has become of an upload, as an entry of the journal says, whose query the node of this number answered from its
/// tables.
#[derive(Debug, Drop)]
pub struct Settled {
    pub(crate) number: u64,
    pub(crate) node: u64,
    pub(crate) upload: Upload,
    pub(crate) outcome: Outcome,
}

impl Model for Settled {
    ghost use Rattle.node_threads.specs.Told.{Settling, IsOfTables};

    ghost Value = { Settling };

    ghost view = { λ s. record { number = s.number; node = s.node; upload = s.upload; outcome = s.outcome } };

    ghost invariant = { λ s. IsOfTables (record { number = s.number; node = s.node; upload = s.upload; outcome = s.outcome }) };
}

impl Settled {
    /// What became of the upload.
    pub fn outcome(&self) -> Outcome
        ensures { result ≡ self.now.outcome }
    {
        self.outcome
    }

    /// Whether this is what the node of this number says of this upload.
    pub fn is_of(&self, node: usize, upload: &Upload) -> bool
        ensures { IsTrue result ↔ (self.now.node ≡ node) × (self.now.upload ≡ upload.now) }
    {
        self.node == node as u64 && self.upload == *upload
    }

    /// The receipt of its entry.
    pub fn into_receipt(self) -> Receipt
        ensures receipt { result ≡ settling_receipt self }
        ensures asked { IsAskedAt self.node (Asked self.upload) result }
    {
        let Settled {
            number,
            node,
            upload,
            outcome,
        } = self;
        Receipt {
            number,
            event: Event::Outcome(node, upload),
            answer: EventResult::Outcome(outcome),
        }
    }
}
