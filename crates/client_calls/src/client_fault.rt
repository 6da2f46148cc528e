//! Why a call has no answer.

ghost use Rattle.std.specs.Prelude.{◌≡◌};
ghost use Rattle.client_calls.specs.Parts.{fault_of_wire};

use call_protocol::CallFault;
use proto_fields::WireFault;
use std::alloc::AllocError;
use thiserror::Error;

/// Why a call has no answer.
#[derive(Debug, PartialEq, Eq, Drop, Error)]
pub enum ClientFault {
    /// The service ended the call with this status, which is not 0, and this text (gRPC, "Status codes and their use in gRPC").
    #[error("{1}")]
    Status(u8, String),
    /// What came is no answer to the call.
    #[error("BadAnswer")]
    BadAnswer,
    /// The call could not be carried to its end.
    #[error("{0}")]
    Call(CallFault),
}

impl From<AllocError> for ClientFault {
    ghost use Rattle.std.specs.Prelude.{◌≡◌};
    ghost use Rattle.call_protocol.specs.declared.call_fault.CallFault.TheVariants.{OutOfMemory};
    ghost use Rattle.client_calls.specs.declared.client_fault.ClientFault.TheVariants.{Call};

    ghost from_gives = { λ _ fault. fault ≡ Call OutOfMemory };

    fn from(_refused: AllocError) -> ClientFault {
        ClientFault::Call(CallFault::OutOfMemory)
    }
}

impl ClientFault {
    /// Why a message could not be read: memory was refused, or else it is none of an answer.
    pub(crate) fn of_wire(fault: WireFault) -> ClientFault
        ensures { result ≡ fault_of_wire fault }
    {
        match fault {
            WireFault::OutOfMemory => ClientFault::Call(CallFault::OutOfMemory),
            WireFault::BadVarint
            | WireFault::BadKey
            | WireFault::BadWireType
            | WireFault::CutShort
            | WireFault::NotUtf8 => ClientFault::BadAnswer,
        }
    }
}
