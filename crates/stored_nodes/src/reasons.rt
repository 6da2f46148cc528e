//! Why an event was refused.

ghost use Rattle.std.specs.Prelude.{◌≡◌};
ghost use Rattle.histories.specs.Following.{reason_of as reason_due};
ghost use Rattle.node_core.specs.Inputs.{refusal_of};
ghost use Rattle.node_events.specs.Told.{reason_of};
ghost use Rattle.stored_nodes.specs.Parts.{reason_telling};

use node_core::Refusal;
use node_events::Reason;

/// A node's refusal as what an event gives.
pub(crate) fn reason_for(refusal: Refusal) -> Reason
    ensures told { result ≡ reason_telling refusal }
    ensures due { reason_of result ≡ reason_due (refusal_of refusal) }
{
    match refusal {
        Refusal::OutOfRange => Reason::OutOfRange,
        Refusal::SlotsSpent => Reason::SlotsSpent,
        Refusal::RoundsSpent => Reason::RoundsSpent,
        Refusal::OutOfMemory => Reason::OutOfMemory,
    }
}
