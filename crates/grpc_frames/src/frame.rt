//! Length-prefixed frames over any reader and writer (gRPC over HTTP/2, "Length-Prefixed-Message").

ghost use Rattle.std.specs.Prelude.{◌≡◌, ◌<◌, ◌≤◌, ◌++◌, ◌^◌, ℕ, List, [], length, IfOk, IfErr, IfSome, OnOk};
ghost use Rattle.std.specs.Prelude.{Ok, Some, None};
ghost use Rattle.grpc_frames.specs.Frame.{Frame as FrameModel, header_text, frame_text, payload_limit, IsFlag, IsFrame};
ghost use Rattle.grpc_frames.specs.FrameFaults.{WhereKnown, ReadsFrame, FrameFaultStands, Writes};
ghost use Rattle.grpc_frames.specs.FrameFaults.{IsUnlessFailed, IsUnlessRefused, IsFaultUnlessRefused};
ghost use Rattle.grpc_frames.specs.FrameLaws.{IsOfText};
ghost use Rattle.grpc_frames.specs.FrameSteps.{ReadsHeader, HeaderFaultStands};
ghost use Rattle.grpc_frames.specs.declared.fault.FrameFault.{FrameFault as FaultModel};
ghost use Rattle.grpc_frames.specs.declared.fault.FrameFault.TheVariants.{Io};

use crate::fault::FrameFault;
use crate::transfer::{fill, put, read_payload};
use std::alloc::Global;
use std::io::{Read, Write};
use std::marker::Model;

/// The most bytes of a frame's payload.
pub const MAX_FRAME_PAYLOAD: usize = 4_194_304;

/// The flag of a frame that carries a message.
pub const MESSAGE_FLAG: u8 = 0;

/// The flag of a frame that ends a call.
pub const END_FLAG: u8 = 0x80;

/// The flag of a frame whose message is compressed, which is refused.
const COMPRESSED_FLAG: u8 = 1;

/// A frame: a flag and a payload of at most [`MAX_FRAME_PAYLOAD`] bytes.
#[derive(Debug, Drop)]
pub struct Frame {
    /// [`MESSAGE_FLAG`] or [`END_FLAG`].
    pub flag: u8,
    /// What the frame carries.
    pub payload: Vec<u8>,
}

impl Model for Frame {
    ghost use Rattle.grpc_frames.specs.Frame.{Frame};

    ghost Value = { Frame };

    ghost view = { λ f. record { flag = f.flag; payload = f.payload.items } };
}

/// The five bytes before a payload, as they came.
#[derive(Clone, Copy)]
struct Header {
    flag: u8,
    len: u32,
}

/// Reads the next frame, or `None` where the input ends before it.
///
/// The faults, in this order: `Truncated` where one to four bytes of the five before the payload come, `Compressed` for
/// flag 1, `BadFlag` for any flag but 0, 1 and 0x80, `TooLong` for a payload above [`MAX_FRAME_PAYLOAD`], `Truncated`
/// where the payload comes in part. `Io` is any read that fails or is interrupted, and `OutOfMemory` is memory refused,
/// which is asked for only behind five bytes without a fault, and as the payload's bytes come.
///
/// After `Compressed`, `BadFlag` and `TooLong` the reader stands behind the five bytes, after `Truncated` nothing is
/// left, and after `Io` and `OutOfMemory` some of the frame's own bytes are left.
pub fn read_frame<R: Read>(alloc: Global, r: &mut R) -> Result<Option<Frame>, FrameFault>
    // Where the reader tells its bytes: what was read, or the fault that stands there, and what is left.
    ensures read { WhereKnown (R.remaining r.old) (R.remaining r.new) (ReadsFrame result) }
    // A text that begins with a frame is read as that frame, unless a read fails or memory is refused.
    ensures frame { (f : FrameModel) (rest : List ℕ) → IsFrame f → R.remaining r.old ≡ Some (frame_text f ++ rest)
        → IsUnlessRefused result (Some f) }
    // A text with a fault is told that fault, unless a read fails or memory is refused.
    ensures fault { (e : FaultModel) (text : List ℕ) → IsOfText e → FrameFaultStands e text
        → R.remaining r.old ≡ Some text → IsFaultUnlessRefused result e }
    // At the end of the input there is none, unless a read fails.
    ensures end { R.remaining r.old ≡ Some [] → IsUnlessFailed result (Ok None) }
    // Whatever the reader, a frame that is handed out is whole.
    ensures whole { IfOk result (λ found. IfSome found IsFrame) }
{
    let Some(header) = read_header(r)? else {
        return Ok(None);
    };
    let len = checked_len(&header)?;
    let payload = read_payload(alloc, r, len)?;
    Ok(Some(Frame {
        flag: header.flag,
        payload,
    }))
}

/// Reads the five bytes before a payload, or `None` where the input ends before them.
fn read_header<R: Read>(r: &mut R) -> Result<Option<Header>, FrameFault>
    ensures read { WhereKnown (R.remaining r.old) (R.remaining r.new) (ReadsHeader result) }
{
    let mut bytes = [0; 5];
    match fill(r, &mut bytes)? {
        0 => Ok(None),
        5 => Ok(Some(header_of(&bytes))),
        _ => Err(FrameFault::Truncated),
    }
}

/// The flag and the length in the five bytes before a payload.
fn header_of(bytes: &[u8; 5]) -> Header
    ensures parts { bytes.now ≡ header_text result.flag result.len }
    ensures fits { result.len < 2 ^ 32 }
{
    let [flag, a, b, c, d] = *bytes;
    let len = u32::from_be_bytes([a, b, c, d]);
    Header { flag, len }
}

/// The length of the payload, where the flag and the length are allowed.
fn checked_len(header: &Header) -> Result<usize, FrameFault>
    ensures len { IfOk result (λ n. n ≡ header.now.len) }
    ensures flag { OnOk result (IsFlag header.now.flag) }
    ensures limit { IfOk result (λ n. n ≤ payload_limit) }
    ensures fault { IfErr result (λ e. HeaderFaultStands e header.now.flag header.now.len) }
{
    match header.flag {
        MESSAGE_FLAG | END_FLAG => {}
        COMPRESSED_FLAG => return Err(FrameFault::Compressed),
        _ => return Err(FrameFault::BadFlag),
    }
    let len = header.len as usize;
    if len > MAX_FRAME_PAYLOAD {
        return Err(FrameFault::TooLong);
    }
    Ok(len)
}

/// Writes a frame with this flag, [`MESSAGE_FLAG`] or [`END_FLAG`], and this payload, of at most [`MAX_FRAME_PAYLOAD`]
/// bytes.
///
/// `Io` is the only fault: a write failed, was interrupted or took no byte, and a beginning of the frame has gone out.
pub fn write_frame<W: Write>(w: &mut W, flag: u8, payload: &[u8]) -> Result<(), FrameFault>
    requires flag { IsFlag flag }
    requires payload { length payload.now ≤ payload_limit }
    ensures written { WhereKnown (W.contents w.old) (W.contents w.new)
        (Writes result (frame_text (record { flag = flag; payload = payload.now }))) }
    ensures io { IfErr result (λ e. e ≡ Io) }
{
    let [a, b, c, d] = (payload.len() as u32).to_be_bytes();
    put(w, &[flag, a, b, c, d])?;
    put(w, payload)
}
