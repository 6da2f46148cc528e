//! Bytes moved between memory and a reader or a writer. A call that the system interrupts has failed, as any other has.
//!
//! `Io` comes from a call of the reader or the writer that failed, or from a writer that took no byte; nothing else
//! here tells it.

ghost use Rattle.std.specs.Prelude.{◌≡◌, ◌<◌, ◌≤◌, ◌+◌, ℕ, [], length, take, max, IfOk, IfErr, OnOk, OnErr, vec_len};
ghost use Rattle.std.specs.Vec.{vec_capacity};
ghost use Rattle.std.specs.Io.{StartsWith};
ghost use Rattle.std.specs.Io.KnownBytes.{Consumes, IsAtEnd};
ghost use Rattle.grpc_frames.specs.FrameFaults.{WhereKnown, Writes};
ghost use Rattle.grpc_frames.specs.FrameSteps.{MovesTo, FailsBehind, next_len};
ghost use Rattle.grpc_frames.specs.declared.fault.FrameFault.TheVariants.{Io};

use crate::fault::FrameFault;
use std::alloc::{AllocError, Global};
use std::io::{Read, Write};

/// The bytes that a payload of any length has room for before the first of them has come.
pub const FIRST_ROOM: usize = 65_536;

/// Reads until the buffer is full or the input ends, and says how many bytes came.
///
/// `Io` is the only fault: a read failed or was interrupted before the buffer was full. What had come by then stands at
/// the front of the buffer, and the reader stands behind it.
pub fn fill<R: Read>(r: &mut R, buf: &mut [u8]) -> Result<usize, FrameFault>
    ensures bound { IfOk result (λ n. n ≤ length buf.new) }
    ensures bytes { IfOk result (λ n. Consumes (R.remaining r.old) (R.remaining r.new) (take n buf.new)) }
    // Fewer bytes than there is room for come only where the input ends.
    ensures end { IfOk result (λ n. n < length buf.new → IsAtEnd (R.remaining r.new)) }
    ensures err { OnErr result ((n : ℕ) × (n < length buf.new)
        × Consumes (R.remaining r.old) (R.remaining r.new) (take n buf.new)) }
    ensures io { IfErr result (λ e. e ≡ Io) }
{
    let mut at = 0;
    while at < buf.len() {
        match r.read(&mut buf[at..]) {
            Ok(0) => return Ok(at),
            Ok(n) => at += n,
            Err(_) => return Err(FrameFault::Io),
        }
    }
    Ok(at)
}

/// Writes all of the bytes.
///
/// `Io` is the only fault: a write failed, was interrupted or took no byte, and a beginning of the bytes has gone out,
/// fewer than all.
pub fn put<W: Write>(w: &mut W, bytes: &[u8]) -> Result<(), FrameFault>
    ensures written { WhereKnown (W.contents w.old) (W.contents w.new) (Writes result bytes.now) }
    ensures io { IfErr result (λ e. e ≡ Io) }
{
    let mut at = 0;
    while at < bytes.len() {
        match w.write(&bytes[at..]) {
            Ok(0) => return Err(FrameFault::Io),
            Ok(n) => at += n,
            Err(_) => return Err(FrameFault::Io),
        }
    }
    Ok(())
}

/// Reads a payload of `len` bytes, which takes memory as they come: room for [`FIRST_ROOM`] bytes at first, and for
/// twice the bytes that have come whenever these fill it, as [`read_more`] says.
///
/// `Truncated` comes where the input ends before, `Io` where a read failed or was interrupted, and `OutOfMemory` where
/// memory was refused, with bytes of the payload still unread.
pub fn read_payload<R: Read>(alloc: Global, r: &mut R, len: usize) -> Result<Vec<u8>, FrameFault>
    ensures len { IfOk result (λ v. length v.items ≡ len) }
    // There is room for the payload, and for no byte more.
    ensures room { IfOk result (λ v. vec_capacity v ≡ len) }
    ensures bytes { IfOk result (λ v. Consumes (R.remaining r.old) (R.remaining r.new) v.items) }
    ensures fault { IfErr result (λ e. WhereKnown (R.remaining r.old) (R.remaining r.new) (FailsBehind [] e len)) }
{
    let mut payload = Vec::new(alloc);
    while payload.len() < len {
        read_more(r, &mut payload, len)?;
    }
    Ok(payload)
}

/// Reads more bytes behind those that the vector holds, on the way to `len` bytes: until it holds twice as many, or
/// [`FIRST_ROOM`] where that is more, or all `len`. It never asks for room for more bytes than these.
///
/// The faults are those of [`read_payload`]. What the vector held stands at its front still, after a fault too; behind it
/// may then stand anything.
pub fn read_more<R: Read>(r: &mut R, bytes: &mut Vec<u8>, len: usize) -> Result<(), FrameFault>
    ensures front { StartsWith bytes.new.items bytes.old.items }
    ensures grown { OnOk result (vec_len bytes.new ≡ next_len (vec_len bytes.old) len) }
    ensures room { vec_capacity bytes.new ≤ max (vec_capacity bytes.old) (next_len (vec_len bytes.old) len) }
    ensures moved { OnOk result (WhereKnown (R.remaining r.old) (R.remaining r.new)
        (MovesTo bytes.old.items bytes.new.items)) }
    ensures fault { IfErr result (λ e. WhereKnown (R.remaining r.old) (R.remaining r.new)
        (FailsBehind bytes.old.items e len)) }
{
    let start = bytes.len();
    lengthen(bytes, len)?;
    let got = fill(r, &mut bytes.as_mut_slice()[start..])?;
    if start + got < bytes.len() {
        return Err(FrameFault::Truncated);
    }
    Ok(())
}

/// Makes the vector longer by zeros, to the length that [`read_more`] reads to.
fn lengthen(bytes: &mut Vec<u8>, len: usize) -> Result<(), AllocError>
    ensures front { StartsWith bytes.new.items bytes.old.items }
    ensures len { OnOk result (vec_len bytes.new ≡ next_len (vec_len bytes.old) len) }
    ensures room { OnOk result (vec_capacity bytes.new ≡ max (vec_capacity bytes.old) (vec_len bytes.new)) }
    ensures err { OnErr result ((bytes.new.items ≡ bytes.old.items)
        × (vec_capacity bytes.new ≡ vec_capacity bytes.old)) }
    ensures refused { OnErr result (vec_len bytes.old < len) }
{
    let came = bytes.len();
    let next = came.saturating_mul(2).max(FIRST_ROOM).min(len).max(came);
    bytes.reserve_exact(next - came)?;
    pad(bytes, next);
    Ok(())
}

/// Appends zeros up to this length, for which there is room.
fn pad(bytes: &mut Vec<u8>, len: usize)
    requires { len ≤ vec_capacity bytes.old }
    ensures front { StartsWith bytes.new.items bytes.old.items }
    ensures len { vec_len bytes.new ≡ max (vec_len bytes.old) len }
    ensures room { vec_capacity bytes.new ≡ vec_capacity bytes.old }
{
    while bytes.len() < len {
        bytes.push_reserved(0);
    }
}
