//! Why a task ended.

use flatbuf_meta::MetaFault;
use proto_wire::WireFault;
use record_batches::BatchFault;
use std::alloc::AllocError;
use std::{fmt, io};

/// What ended a task, of these, of uploads or of a store, or the program around it.
#[derive(Clone, Copy)]
pub enum TaskFault {
    /// The bytes are no such message.
    Message(WireFault),
    /// The bytes show no header.
    Header(MetaFault),
    /// A header and a body lay out no batch.
    Batch(BatchFault),
    /// The bytes are no schema, header of a batch and body, each behind its length.
    Parts,
    /// The header is none that can be written: a schema outside the profile, a compressed batch, or one with too many
    /// nodes or buffers.
    Unwritable,
    /// There is no slot, or there are more than there can be.
    Slots,
    /// There are more rounds than there can be.
    Rounds,
    /// The bytes are no upload's value: there are none, or too many.
    Upload,
    /// The bytes are not of uploads, each behind its length, or there is none of them where one is asked for.
    Uploads,
    /// There are more uploads than tables take.
    TooMany,
    /// The bytes are not of how many members and slots there are, and of uploads, each behind its length.
    Plan,
    /// There are no members or no slots, or too many of them.
    BadConfig,
    /// The bytes are no file of records.
    Records,
    /// A node refused an event, for want of slots or of memory.
    Refused,
    /// A read or a write failed.
    Io,
    /// Memory was refused.
    OutOfMemory,
}

/// The fault's name: of a message, a header or a batch the one that it has there.
impl fmt::Display for TaskFault {
    fn fmt<W: fmt::Write>(&self, f: &mut fmt::Formatter<W>) -> fmt::Result {
        match self {
            TaskFault::Message(fault) => fmt::Display::fmt(fault, f),
            TaskFault::Header(fault) => fmt::Display::fmt(fault, f),
            TaskFault::Batch(fault) => fmt::Display::fmt(fault, f),
            TaskFault::Parts => f.write_str("Parts"),
            TaskFault::Unwritable => f.write_str("Unwritable"),
            TaskFault::Slots => f.write_str("Slots"),
            TaskFault::Rounds => f.write_str("Rounds"),
            TaskFault::Upload => f.write_str("Upload"),
            TaskFault::Uploads => f.write_str("Uploads"),
            TaskFault::TooMany => f.write_str("TooMany"),
            TaskFault::Plan => f.write_str("Plan"),
            TaskFault::BadConfig => f.write_str("BadConfig"),
            TaskFault::Records => f.write_str("Records"),
            TaskFault::Refused => f.write_str("Refused"),
            TaskFault::Io => f.write_str("Io"),
            TaskFault::OutOfMemory => f.write_str("OutOfMemory"),
        }
    }
}

impl From<WireFault> for TaskFault {
    fn from(fault: WireFault) -> TaskFault {
        TaskFault::Message(fault)
    }
}

impl From<MetaFault> for TaskFault {
    fn from(fault: MetaFault) -> TaskFault {
        TaskFault::Header(fault)
    }
}

impl From<BatchFault> for TaskFault {
    fn from(fault: BatchFault) -> TaskFault {
        TaskFault::Batch(fault)
    }
}

impl From<AllocError> for TaskFault {
    fn from(_refused: AllocError) -> TaskFault {
        TaskFault::OutOfMemory
    }
}

impl From<io::Error> for TaskFault {
    fn from(error: io::Error) -> TaskFault {
        match error.kind() {
            io::ErrorKind::OutOfMemory => TaskFault::OutOfMemory,
            _ => TaskFault::Io,
        }
    }
}
