//! Why a service does not start.

use stable_records::StoreFault;
use std::alloc::AllocError;
use thiserror::Error;

/// Why a service does not start.
#[derive(Clone, Copy, Debug, PartialEq, Eq, Error)]
pub enum ServiceFault {
    /// A port can't be had.
    #[error("Bind")]
    Bind,
    /// There can't be so many nodes.
    #[error("Members")]
    Members,
    /// A node's store has records already.
    #[error("OldRecords")]
    OldRecords,
    /// What stands in a node's store means no records.
    #[error("Damaged")]
    Damaged,
    /// A node's store could not be read or written.
    #[error("Device")]
    Device,
    /// Memory or a thread was refused.
    #[error("OutOfMemory")]
    OutOfMemory,
}

impl From<AllocError> for ServiceFault {
    ghost use Rattle.std.specs.Prelude.{◌≡◌};
    ghost use Rattle.flight_service.specs.declared.fault.ServiceFault.TheVariants.{OutOfMemory};

    ghost from_gives = { λ _ fault. fault ≡ OutOfMemory };

    fn from(_: AllocError) -> ServiceFault {
        ServiceFault::OutOfMemory
    }
}

// The fault of a service whose node's store has this fault.
pub(crate) fn store_fault(fault: StoreFault) -> ServiceFault {
    match fault {
        StoreFault::Damaged => ServiceFault::Damaged,
        StoreFault::Device | StoreFault::Broken => ServiceFault::Device,
        StoreFault::OutOfMemory => ServiceFault::OutOfMemory,
    }
}
