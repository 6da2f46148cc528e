//! The lines that say where each node is served.

ghost use Rattle.std.specs.Prelude.{◌≡◌, ℕ, List, IfOk, OnOk, OnErr, string_bytes};
ghost use Rattle.std.specs.Io.KnownBytes.{Appends};
ghost use Rattle.grpc_frames.specs.FrameFaults.{IsBeginning};
ghost use Rattle.serve_command.specs.Addresses.{address_line, addresses_text};

use crate::fault::ServeFault;
use grpc_frames::transfer::put;
use std::alloc::{AllocError, Global};
use std::io::Write;

// The line of the node of this number.
fn address_line(alloc: Global, first_port: u16, node: u8) -> Result<String, AllocError>
    ensures { IfOk result (λ text. string_bytes text ≡ address_line first_port node) }
{
    let port = u32::from(first_port) + u32::from(node);
    format!(in alloc; "node {node} at 127.0.0.1:{port}\n")
}

// The lines of so many nodes.
fn addresses_text(alloc: Global, first_port: u16, count: u8) -> Result<String, AllocError>
    ensures { IfOk result (λ text. string_bytes text ≡ addresses_text first_port count) }
{
    let mut text = String::new(alloc);
    for node in 0..count {
        let line = address_line(alloc, first_port, node)?;
        text.push_str(line.as_str())?;
    }
    Ok(text)
}

/// Writes a line for each of so many nodes, which says at which address it is served: node k at the port that is k more than
/// the first. The writer is flushed.
///
/// [`ServeFault::OutOfMemory`] says that memory was refused; then nothing was written. [`ServeFault::Io`] says that a write or
/// the flush failed, and then a beginning of the lines was written, or all of them.
pub fn tell_addresses<W: Write>(
    alloc: Global,
    first_port: u16,
    count: u8,
    w: &mut W,
) -> Result<(), ServeFault>
    ensures all { OnOk result (Appends (W.contents w.old) (W.contents w.new) (addresses_text first_port count)) }
    ensures part { OnErr result ((written : List ℕ) × IsBeginning written (addresses_text first_port count)
        × Appends (W.contents w.old) (W.contents w.new) written) }
{
    let Ok(text) = addresses_text(alloc, first_port, count) else {
        return Err(ServeFault::OutOfMemory);
    };
    if put(w, text.as_bytes()).is_err() {
        return Err(ServeFault::Io);
    }
    if w.flush().is_err() {
        return Err(ServeFault::Io);
    }
    Ok(())
}
