//! Why a call is refused, and with which status and text its trailer says so.

ghost use Rattle.std.specs.Prelude.{◌≡◌};
ghost use Rattle.call_protocol.specs.Statuses.{frame_status, wire_status, meta_status, batch_status, back_status, status_of};
ghost use Rattle.call_protocol.specs.Statuses.{frame_name, wire_name, meta_name, batch_name, back_name, name_of};

use crate::back_fault::BackFault;
use crate::status::Status;
use batch_types::BatchFault;
use grpc_frames::FrameFault;
use header_types::MetaFault;
use proto_fields::WireFault;
use std::alloc::AllocError;

/// Why a call is refused. Its trailer has the status and, as its text, the name of the refusal.
#[derive(Clone, Copy, Debug, PartialEq, Eq)]
pub enum CallRefusal {
    /// The next frame could not be read.
    Frame(FrameFault),
    /// The end frame has a payload.
    EndPayload,
    /// The input ends before an end frame.
    NoEnd,
    /// The first frame has no path of this service.
    BadPath,
    /// The path names no method that is answered.
    NoCall,
    /// There is not exactly one message where one is asked for, or there are more messages than a call may have.
    MessageCount,
    /// A message is not one of the message type that the method asks for.
    Wire(WireFault),
    /// The descriptor is no path, or does not name a table, and in an upload its id, as it should.
    BadDescriptor,
    /// The descriptor is a command.
    CmdDescriptor,
    /// The criteria are not empty.
    Criteria,
    /// The ticket is none of this service.
    BadTicket,
    /// The first message of an upload has no schema, or there is no message.
    NoSchema,
    /// A header can't be read.
    Meta(MetaFault),
    /// A message behind the first has a schema.
    SecondSchema,
    /// A header and a body lay out no batch.
    Batch(BatchFault),
    /// There are more batches than an upload may have.
    TooManyBatches,
    /// The upload's encoding, or a message that would be sent, is longer than it may be.
    TooLarge,
    /// The upload has another shape than its table.
    SchemaMismatch,
    /// Another upload came first under the upload's id.
    Conflict,
    /// What becomes of the upload is not known yet.
    Undecided,
    /// The backend can't answer.
    Back(BackFault),
    /// Memory was refused.
    OutOfMemory,
}

/// The status of a frame that could not be read.
fn frame_status(fault: FrameFault) -> Status
    ensures { result ≡ frame_status fault }
{
    match fault {
        FrameFault::Truncated | FrameFault::BadFlag | FrameFault::TooLong => {
            Status::InvalidArgument
        }
        FrameFault::Compressed => Status::Unimplemented,
        FrameFault::Io => Status::Internal,
        FrameFault::OutOfMemory => Status::ResourceExhausted,
    }
}

/// The status of a message that could not be read.
fn wire_status(fault: WireFault) -> Status
    ensures { result ≡ wire_status fault }
{
    match fault {
        WireFault::OutOfMemory => Status::ResourceExhausted,
        WireFault::BadVarint
        | WireFault::BadKey
        | WireFault::BadWireType
        | WireFault::CutShort
        | WireFault::NotUtf8 => Status::InvalidArgument,
    }
}

/// The status of a header that could not be read.
fn meta_status(fault: MetaFault) -> Status
    ensures { result ≡ meta_status fault }
{
    match fault {
        MetaFault::Unsupported(_) | MetaFault::Dictionary => Status::Unimplemented,
        MetaFault::OutOfMemory => Status::ResourceExhausted,
        MetaFault::OutOfBounds
        | MetaFault::Version
        | MetaFault::Endianness
        | MetaFault::TooDeep
        | MetaFault::TooManyFields
        | MetaFault::NotUtf8
        | MetaFault::BadHeader => Status::InvalidArgument,
    }
}

/// The status of a batch that could not be read.
fn batch_status(fault: BatchFault) -> Status
    ensures { result ≡ batch_status fault }
{
    match fault {
        BatchFault::Compressed => Status::Unimplemented,
        BatchFault::OutOfMemory => Status::ResourceExhausted,
        BatchFault::TooManyRows
        | BatchFault::NodeCount
        | BatchFault::BufferCount
        | BatchFault::BufferRange
        | BatchFault::NullCount
        | BatchFault::OffsetsFall
        | BatchFault::ChildShort
        | BatchFault::NotUtf8 => Status::InvalidArgument,
    }
}

/// The status of what a backend can't answer.
fn back_status(fault: BackFault) -> Status
    ensures { result ≡ back_status fault }
{
    match fault {
        BackFault::Unavailable | BackFault::Down => Status::Unavailable,
        BackFault::NoTable => Status::NotFound,
        BackFault::SlotsSpent
        | BackFault::RoundsSpent
        | BackFault::JournalFull
        | BackFault::OutOfMemory => Status::ResourceExhausted,
        BackFault::Store => Status::Internal,
    }
}

fn frame_name(fault: FrameFault) -> &'static str
    ensures { result.now ≡ frame_name fault }
{
    match fault {
        FrameFault::Truncated => "Truncated",
        FrameFault::BadFlag => "BadFlag",
        FrameFault::Compressed => "Compressed",
        FrameFault::TooLong => "TooLong",
        FrameFault::Io => "Io",
        FrameFault::OutOfMemory => "OutOfMemory",
    }
}

fn wire_name(fault: WireFault) -> &'static str
    ensures { result.now ≡ wire_name fault }
{
    match fault {
        WireFault::BadVarint => "BadVarint",
        WireFault::BadKey => "BadKey",
        WireFault::BadWireType => "BadWireType",
        WireFault::CutShort => "CutShort",
        WireFault::NotUtf8 => "NotUtf8",
        WireFault::OutOfMemory => "OutOfMemory",
    }
}

fn meta_name(fault: MetaFault) -> &'static str
    ensures { result.now ≡ meta_name fault }
{
    match fault {
        MetaFault::OutOfBounds => "OutOfBounds",
        MetaFault::Version => "Version",
        MetaFault::Endianness => "Endianness",
        MetaFault::Unsupported(_) => "Unsupported",
        MetaFault::Dictionary => "Dictionary",
        MetaFault::TooDeep => "TooDeep",
        MetaFault::TooManyFields => "TooManyFields",
        MetaFault::NotUtf8 => "NotUtf8",
        MetaFault::BadHeader => "BadHeader",
        MetaFault::OutOfMemory => "OutOfMemory",
    }
}

fn batch_name(fault: BatchFault) -> &'static str
    ensures { result.now ≡ batch_name fault }
{
    match fault {
        BatchFault::Compressed => "Compressed",
        BatchFault::TooManyRows => "TooManyRows",
        BatchFault::NodeCount => "NodeCount",
        BatchFault::BufferCount => "BufferCount",
        BatchFault::BufferRange => "BufferRange",
        BatchFault::NullCount => "NullCount",
        BatchFault::OffsetsFall => "OffsetsFall",
        BatchFault::ChildShort => "ChildShort",
        BatchFault::NotUtf8 => "NotUtf8",
        BatchFault::OutOfMemory => "OutOfMemory",
    }
}

fn back_name(fault: BackFault) -> &'static str
    ensures { result.now ≡ back_name fault }
{
    match fault {
        BackFault::Unavailable => "Unavailable",
        BackFault::NoTable => "NoTable",
        BackFault::Down => "Down",
        BackFault::SlotsSpent => "SlotsSpent",
        BackFault::RoundsSpent => "RoundsSpent",
        BackFault::JournalFull => "JournalFull",
        BackFault::Store => "Store",
        BackFault::OutOfMemory => "OutOfMemory",
    }
}

impl From<AllocError> for CallRefusal {
    ghost use Rattle.std.specs.Prelude.{◌≡◌};
    ghost use Rattle.call_protocol.specs.declared.refusal.CallRefusal.TheVariants.{OutOfMemory};

    ghost from_gives = { λ _ refusal. refusal ≡ OutOfMemory };

    fn from(_refused: AllocError) -> CallRefusal {
        CallRefusal::OutOfMemory
    }
}

impl CallRefusal {
    /// The status of the call's trailer.
    pub fn status(self) -> Status
        ensures { result ≡ status_of self }
    {
        match self {
            CallRefusal::Frame(fault) => frame_status(fault),
            CallRefusal::Wire(fault) => wire_status(fault),
            CallRefusal::Meta(fault) => meta_status(fault),
            CallRefusal::Batch(fault) => batch_status(fault),
            CallRefusal::Back(fault) => back_status(fault),
            CallRefusal::EndPayload
            | CallRefusal::NoEnd
            | CallRefusal::BadPath
            | CallRefusal::MessageCount
            | CallRefusal::BadDescriptor
            | CallRefusal::BadTicket
            | CallRefusal::NoSchema
            | CallRefusal::SecondSchema => Status::InvalidArgument,
            CallRefusal::NoCall | CallRefusal::CmdDescriptor | CallRefusal::Criteria =>
                Status::Unimplemented,
            CallRefusal::TooManyBatches | CallRefusal::TooLarge | CallRefusal::OutOfMemory => {
                Status::ResourceExhausted
            }
            CallRefusal::SchemaMismatch => Status::FailedPrecondition,
            CallRefusal::Conflict => Status::AlreadyExists,
            CallRefusal::Undecided => Status::Unavailable,
        }
    }

    /// The text of the call's trailer.
    pub fn name(self) -> &'static str
        ensures { result.now ≡ name_of self }
    {
        match self {
            CallRefusal::Frame(fault) => frame_name(fault),
            CallRefusal::EndPayload => "BadFlag",
            CallRefusal::NoEnd => "NoEnd",
            CallRefusal::BadPath => "BadPath",
            CallRefusal::NoCall => "NoCall",
            CallRefusal::MessageCount => "MessageCount",
            CallRefusal::Wire(fault) => wire_name(fault),
            CallRefusal::BadDescriptor => "BadDescriptor",
            CallRefusal::CmdDescriptor => "CmdDescriptor",
            CallRefusal::Criteria => "Criteria",
            CallRefusal::BadTicket => "BadTicket",
            CallRefusal::NoSchema => "NoSchema",
            CallRefusal::Meta(fault) => meta_name(fault),
            CallRefusal::SecondSchema => "BadHeader",
            CallRefusal::Batch(fault) => batch_name(fault),
            CallRefusal::TooManyBatches => "TooManyBatches",
            CallRefusal::TooLarge => "TooLarge",
            CallRefusal::SchemaMismatch => "SchemaMismatch",
            CallRefusal::Conflict => "Conflict",
            CallRefusal::Undecided => "Unavailable",
            CallRefusal::Back(fault) => back_name(fault),
            CallRefusal::OutOfMemory => "OutOfMemory",
        }
    }
}
