//! What a worker and a seat call the same fault.

ghost use Rattle.std.specs.Prelude.{◌≡◌};
ghost use Rattle.node_threads.specs.Faults.{worker_fault, seat_fault};

use agreement::Refusal;
use node_worker::{End, WorkplaceFault};
use seats::SeatFault;

/// A seat's fault, as a worker meets it.
pub(crate) fn fault_of(fault: SeatFault) -> WorkplaceFault
    ensures { result ≡ worker_fault fault }
{
    match fault {
        SeatFault::Down => WorkplaceFault::Down,
        SeatFault::Strange => WorkplaceFault::Strange,
        SeatFault::JournalFull => WorkplaceFault::JournalFull,
        SeatFault::NotSent => WorkplaceFault::NotSent,
        SeatFault::Refused(Refusal::OutOfRange) => WorkplaceFault::OutOfRange,
        SeatFault::Refused(Refusal::SlotsSpent) => WorkplaceFault::SlotsSpent,
        SeatFault::Refused(Refusal::RoundsSpent) => WorkplaceFault::RoundsSpent,
        SeatFault::Refused(Refusal::OutOfMemory) => WorkplaceFault::OutOfMemory,
        SeatFault::Store(why) => WorkplaceFault::Store(why),
        SeatFault::Lost => WorkplaceFault::Lost,
    }
}

/// How a put ended, as whoever handed it in is told.
pub(crate) fn told_as(end: End) -> SeatFault
    ensures { result ≡ seat_fault end }
{
    match end {
        End::Down => SeatFault::Down,
        End::SlotsSpent => SeatFault::Refused(Refusal::SlotsSpent),
        End::RoundsSpent => SeatFault::Refused(Refusal::RoundsSpent),
        End::JournalFull => SeatFault::JournalFull,
        End::Store(why) => SeatFault::Store(why),
    }
}
