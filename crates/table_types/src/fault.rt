//! Why bytes are no ticket.

use std::alloc::AllocError;
use thiserror::Error;

/// What is wrong with bytes that should be a ticket.
#[derive(Clone, Copy, Debug, PartialEq, Eq, Error)]
pub enum TicketFault {
    /// They are no ticket: not a message of the two fields, another encoding than the one, no table's name, or version
    /// 0.
    #[error("BadTicket")]
    BadTicket,
    /// Memory was refused.
    #[error("OutOfMemory")]
    OutOfMemory,
}

impl From<AllocError> for TicketFault {
    ghost use Rattle.std.specs.Prelude.{◌≡◌};
    ghost use Rattle.table_types.specs.declared.fault.TicketFault.TheVariants.{OutOfMemory};

    ghost from_gives = { λ _ fault. fault ≡ OutOfMemory };

    fn from(_: AllocError) -> TicketFault {
        TicketFault::OutOfMemory
    }
}
