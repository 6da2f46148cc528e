//! The faults of nodes, as clients are told them.

ghost use Rattle.std.specs.Prelude.{◌≡◌};
ghost use Rattle.cluster_backend.specs.Backing.{told_as};

use agreement::Refusal;
use call_protocol::BackFault;
use node_threads::SeatFault;

/// What a client is told of the fault of a node. Of a node whose journal does not know it, of a message that was not sent
/// and of records that are lost it is told as of a store that failed.
pub fn back_fault(fault: SeatFault) -> BackFault
    ensures { result ≡ told_as fault }
{
    match fault {
        SeatFault::Down => BackFault::Down,
        SeatFault::JournalFull => BackFault::JournalFull,
        SeatFault::Refused(Refusal::SlotsSpent) => BackFault::SlotsSpent,
        SeatFault::Refused(Refusal::RoundsSpent) => BackFault::RoundsSpent,
        SeatFault::Refused(Refusal::OutOfMemory) => BackFault::OutOfMemory,
        SeatFault::Refused(Refusal::OutOfRange)
        | SeatFault::Strange
        | SeatFault::NotSent
        | SeatFault::Store(_)
        | SeatFault::Lost => BackFault::Store,
    }
}
