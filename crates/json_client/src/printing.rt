//! The lines of what was served.

ghost use Rattle.std.specs.Prelude.{IfErr};
ghost use Rattle.std.specs.List.{flat_map};
ghost use Rattle.grpc_frames.specs.FrameFaults.{WhereKnown};
ghost use Rattle.header_types.specs.Views.{schema_of};
ghost use Rattle.downloads.specs.Taken.{downloaded_in};
ghost use Rattle.json_client.specs.Prints.{IsOfPrinting, Prints, RefusesUntold, batches_in, rows_alone, rows_served};

use crate::fault::RowCallFault;
use batch_columns::Batch;
use client_calls::{Download, ServedUpload};
use grpc_frames::transfer::put;
use header_types::Schema;
use json_rows::rows_text;
use std::alloc::Global;
use std::io::Write;

/// Writes the lines of a batch of this schema.
fn write_batch<O: Write>(
    alloc: Global,
    out: &mut O,
    schema: &Schema,
    batch: &Batch,
) -> Result<(), RowCallFault>
    ensures written { WhereKnown (O.contents out.old) (O.contents out.new)
        (Prints (schema_of schema.now).fields (rows_alone batch.now) result) }
    ensures cell { RefusesUntold (schema_of schema.now).fields (rows_alone batch.now) result }
    ensures kind { IfErr result IsOfPrinting }
{
    let text = match rows_text(alloc, schema, batch) {
        Ok(text) => text,
        Err(fault) => return Err(RowCallFault::Rows(fault)),
    };
    match put(out, &text) {
        Ok(()) => Ok(()),
        Err(_) => Err(RowCallFault::Output),
    }
}

/// Writes the lines of some batches of this schema.
fn write_batches<O: Write>(
    alloc: Global,
    out: &mut O,
    schema: &Schema,
    batches: &[Batch],
) -> Result<(), RowCallFault>
    ensures written { WhereKnown (O.contents out.old) (O.contents out.new)
        (Prints (schema_of schema.now).fields (flat_map rows_alone batches.now) result) }
    ensures cell { RefusesUntold (schema_of schema.now).fields (flat_map rows_alone batches.now) result }
    ensures kind { IfErr result IsOfPrinting }
{
    for batch in batches {
        write_batch(alloc, out, schema, batch)?;
    }
    Ok(())
}

/// Writes the lines of the batches of some uploads to a table of this schema.
fn write_uploads<O: Write>(
    alloc: Global,
    out: &mut O,
    schema: &Schema,
    uploads: &[ServedUpload],
) -> Result<(), RowCallFault>
    ensures written { WhereKnown (O.contents out.old) (O.contents out.new)
        (Prints (schema_of schema.now).fields (flat_map rows_served uploads.now) result) }
    ensures cell { RefusesUntold (schema_of schema.now).fields (flat_map rows_served uploads.now) result }
    ensures kind { IfErr result IsOfPrinting }
{
    for upload in uploads {
        write_batches(alloc, out, schema, &upload.batches)?;
    }
    Ok(())
}

/// Writes the lines of a version's rows, one behind the other, each with a line feed (RFC 8259; JSON Lines): of the batches in
/// the order of the uploads. Read with the version's schema they tell the same rows.
///
/// - [`RowCallFault::Rows`]: rows have no lines, as [`rows_text`] tells it, where N is the row in its batch, from 1. The lines of
///   the batches before it have gone out.
/// - [`RowCallFault::Output`]: a write failed. A beginning of the lines has gone out.
///
/// Nothing is flushed.
pub fn write_rows<O: Write>(
    alloc: Global,
    out: &mut O,
    download: &Download,
) -> Result<(), RowCallFault>
    ensures written { WhereKnown (O.contents out.old) (O.contents out.new)
        (Prints (schema_of download.now.schema).fields (batches_in (downloaded_in download.now)) result) }
    // A cell is refused only where no values tell the rows.
    ensures cell { RefusesUntold (schema_of download.now.schema).fields (batches_in (downloaded_in download.now)) result }
    ensures kind { IfErr result IsOfPrinting }
{
    write_uploads(alloc, out, &download.schema, &download.uploads)
}
