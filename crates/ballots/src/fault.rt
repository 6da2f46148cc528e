//! Why bytes are no message, or no record.

use proto_fields::WireFault;
use std::alloc::AllocError;
use thiserror::Error;

/// What is wrong with a text that should be a message or a record. Which fault is told where several stand is open.
#[derive(Clone, Copy, Debug, PartialEq, Eq, Error)]
pub enum MessageFault {
    /// The text is no list of fields, or a field that the kind has is of another wire type.
    #[error("{0}")]
    Wire(WireFault),
    /// The kind is none of the seven of messages, or none of the three of records.
    #[error("BadKind")]
    BadKind,
    /// A number is outside its limits, or the value is too long.
    #[error("OutOfRange")]
    OutOfRange,
    /// Memory was refused.
    #[error("OutOfMemory")]
    OutOfMemory,
}

impl From<AllocError> for MessageFault {
    ghost use Rattle.std.specs.Prelude.{◌≡◌};
    ghost use Rattle.ballots.specs.declared.fault.MessageFault.TheVariants.{OutOfMemory};

    ghost from_gives = { λ _ fault. fault ≡ OutOfMemory };

    fn from(_: AllocError) -> MessageFault {
        MessageFault::OutOfMemory
    }
}

impl From<WireFault> for MessageFault {
    ghost use Rattle.std.specs.Prelude.{◌≡◌};
    ghost use Rattle.ballots.specs.declared.fault.MessageFault.TheVariants.{Wire};

    ghost from_gives = { λ wire fault. fault ≡ Wire wire };

    fn from(wire: WireFault) -> MessageFault {
        MessageFault::Wire(wire)
    }
}
