//! The statuses with which calls end.

ghost use Rattle.std.specs.Prelude.{◌≡◌};
ghost use Rattle.call_protocol.specs.Statuses.{code_of};

/// The status of a call: gRPC, "Status codes and their use in gRPC". Only those are here that calls end with.
#[derive(Clone, Copy, Debug, PartialEq, Eq)]
pub enum Status {
    /// The call was answered.
    Ok,
    /// What was sent is no call, or names what there can't be.
    InvalidArgument,
    /// What was asked for does not exist.
    NotFound,
    /// Another upload came first under the upload's id.
    AlreadyExists,
    /// A limit was met, or memory was refused.
    ResourceExhausted,
    /// The upload has another shape than its table.
    FailedPrecondition,
    /// What was asked for is not offered.
    Unimplemented,
    /// A record could not be kept, or a read failed.
    Internal,
    /// It can't be told now, and may be told later.
    Unavailable,
}

impl Status {
    /// Its number.
    pub fn code(self) -> u8
        ensures { result ≡ code_of self }
    {
        match self {
            Status::Ok => 0,
            Status::InvalidArgument => 3,
            Status::NotFound => 5,
            Status::AlreadyExists => 6,
            Status::ResourceExhausted => 8,
            Status::FailedPrecondition => 9,
            Status::Unimplemented => 12,
            Status::Internal => 13,
            Status::Unavailable => 14,
        }
    }
}
