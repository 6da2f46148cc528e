//! The messages of an upload, read one after the other.

ghost use Rattle.std.specs.Prelude.{◌≡◌, ◌≤◌, ◌⊎◌, true, IfOk, Ok};
ghost use Rattle.grpc_frames.specs.FrameFaults.{WhereKnown};
ghost use Rattle.call_protocol.specs.declared.refusal.CallRefusal.TheVariants.{MessageCount};
ghost use Rattle.call_reading.specs.Builder.{IsOnItsWay};
ghost use Rattle.call_reading.specs.Uploading.{ReadsOpening, ReadsFurther, ReadsUpload};

use crate::frames::{CallPart, next_part};
use crate::upload_builder::UploadBuilder;
use call_protocol::CallRefusal;
use std::alloc::Global;
use std::io::Read;
use uploads::Upload;

/// The most messages of a call behind its path: with the path, 65,536 frames stand before its end.
pub const MAX_MESSAGES: u32 = 65_535;

/// Reads the first message of an upload.
fn open<R: Read>(alloc: Global, r: &mut R) -> Result<UploadBuilder, CallRefusal>
    ensures on_its_way { IfOk result IsOnItsWay }
    ensures read { WhereKnown (R.remaining r.old) (R.remaining r.new) (ReadsOpening result) }
{
    match next_part(alloc, r)? {
        CallPart::Message(message) => UploadBuilder::open(alloc, &message),
        CallPart::End => Err(CallRefusal::NoSchema),
    }
}

/// Takes the next message of an upload, and says whether there was one, where so many may still come.
fn take_next<R: Read>(
    alloc: Global,
    r: &mut R,
    incoming: &mut UploadBuilder,
    left: u32,
) -> Result<bool, CallRefusal>
    requires { IsOnItsWay incoming.old }
    ensures on_its_way { IsOnItsWay incoming.new }
    ensures room { result ≡ Ok true → 1 ≤ left }
    ensures read { WhereKnown (R.remaining r.old) (R.remaining r.new)
        (ReadsFurther left incoming.old incoming.new result) }
{
    match next_part(alloc, r)? {
        CallPart::Message(message) => {
            if left == 0 {
                return Err(CallRefusal::MessageCount);
            }
            incoming.take(alloc, &message)?;
            Ok(true)
        }
        CallPart::End => Ok(false),
    }
}

/// Reads the messages of an upload, and the end behind them.
pub(crate) fn read_upload<R: Read>(alloc: Global, r: &mut R) -> Result<Upload, CallRefusal>
    ensures { WhereKnown (R.remaining r.old) (R.remaining r.new) (ReadsUpload result) }
{
    let mut incoming = open(alloc, r)?;
    for further in 0..MAX_MESSAGES {
        if !take_next(alloc, r, &mut incoming, MAX_MESSAGES - 1 - further)? {
            return incoming.finish(alloc);
        }
    }
    unreachable!()
}
