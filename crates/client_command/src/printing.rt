//! Rows that are printed.

ghost use Rattle.std.specs.Prelude.{IfErr};
ghost use Rattle.grpc_frames.specs.FrameFaults.{WhereKnown};
ghost use Rattle.json_client.specs.Prints.{Prints, batches_in};
ghost use Rattle.header_types.specs.Views.{schema_of};
ghost use Rattle.downloads.specs.Taken.{downloaded_in};
ghost use Rattle.client_command.specs.Printed.{IsOfRows, PrintsRows};

use crate::fault::CommandFault;
use client_calls::Download;
use json_client::write_rows;
use std::alloc::Global;
use std::io::Write;

/// Prints the lines of a version's rows.
pub(crate) fn tell_rows<O: Write>(
    alloc: Global,
    out: &mut O,
    download: &Download,
) -> Result<(), CommandFault>
    ensures written { WhereKnown (O.contents out.old) (O.contents out.new)
        (PrintsRows (schema_of download.now.schema).fields (batches_in (downloaded_in download.now)) result) }
    ensures fault { IfErr result IsOfRows }
{
    if let Err(fault) = write_rows(alloc, out, download) {
        return Err(CommandFault::of_rows(fault));
    }
    if out.flush().is_err() {
        return Err(CommandFault::Io);
    }
    Ok(())
}
