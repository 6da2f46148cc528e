//! Lines that are printed.

ghost use Rattle.std.specs.Prelude.{◌≡◌, IfErr, IfOk, string_bytes};
ghost use Rattle.grpc_frames.specs.FrameFaults.{WhereKnown};
ghost use Rattle.client_command.specs.declared.fault.CommandFault.TheVariants.{Io};
ghost use Rattle.client_command.specs.Writing.{IsOfLines, WritesText, put_line, repeat_line};

use crate::fault::CommandFault;
use grpc_frames::transfer::put;
use std::alloc::{AllocError, Global};
use std::io::Write;

/// Writes a text, and flushes the writer.
pub(crate) fn write_text<O: Write>(out: &mut O, text: &[u8]) -> Result<(), CommandFault>
    ensures written { WhereKnown (O.contents out.old) (O.contents out.new) (WritesText text.now result) }
    ensures fault { IfErr result (λ fault. fault ≡ Io) }
{
    if put(out, text).is_err() {
        return Err(CommandFault::Io);
    }
    if out.flush().is_err() {
        return Err(CommandFault::Io);
    }
    Ok(())
}

/// The line of an upload that was taken.
fn put_line(alloc: Global, id: [u8; 16], version: u64) -> Result<String, AllocError>
    ensures { IfOk result (λ line. string_bytes line ≡ put_line id version) }
{
    let digits = hex::encode(alloc, &id)?;
    format!(in alloc; "{digits} {version}\n")
}

/// Prints the line of an upload that was taken: its id and the version that it made.
pub(crate) fn tell_put<O: Write>(
    alloc: Global,
    out: &mut O,
    id: [u8; 16],
    version: u64,
) -> Result<(), CommandFault>
    ensures written { WhereKnown (O.contents out.old) (O.contents out.new) (WritesText (put_line id version) result) }
    ensures fault { IfErr result IsOfLines }
{
    let line = put_line(alloc, id, version)?;
    write_text(out, line.as_bytes())
}

/// The line that says by which id an upload is put again.
fn repeat_line(alloc: Global, id: [u8; 16]) -> Result<String, AllocError>
    ensures { IfOk result (λ line. string_bytes line ≡ repeat_line id) }
{
    let digits = hex::encode(alloc, &id)?;
    format!(in alloc; "flightd: put it again with --id {digits}\n")
}

/// Writes the line that says by which id an upload is put again.
pub(crate) fn tell_repeat<E: Write>(
    alloc: Global,
    err: &mut E,
    id: [u8; 16],
) -> Result<(), CommandFault>
    ensures written { WhereKnown (E.contents err.old) (E.contents err.new) (WritesText (repeat_line id) result) }
    ensures fault { IfErr result IsOfLines }
{
    let line = repeat_line(alloc, id)?;
    write_text(err, line.as_bytes())
}
