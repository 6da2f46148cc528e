//! A report, written.

ghost use Rattle.folder_report.specs.Lines.{WritesText, report_text};

use crate::fault::WriteFault;
use crate::lines::report_text;
use crate::report::FolderReport;
use grpc_frames::transfer::put;
use std::alloc::Global;
use std::io::Write;

/// Writes the lines of a report to `w`, which is flushed:
/// - `slots COUNT`, how many slots are decided from slot 0 on;
/// - for each table `table NAME version VERSION`;
/// - for each later slot for which an acceptance is recorded `slot NUMBER undecided`, or
///   `slot NUMBER decided, and served once the slots before it are`.
///
/// [`WriteFault::OutOfMemory`] says that memory was refused, and nothing was written. On [`WriteFault::Io`] a write or
/// the flush failed or was interrupted, and a beginning of the lines has gone out, or all of them.
pub fn write_report<W: Write>(
    alloc: Global,
    report: &FolderReport,
    w: &mut W,
) -> Result<(), WriteFault>
    ensures { WritesText (report_text report.now) result (W.contents w.old) (W.contents w.new) }
{
    let Ok(text) = report_text(alloc, report) else {
        return Err(WriteFault::OutOfMemory);
    };
    write_text(w, text.as_bytes())
}

// Writes the text, and flushes the writer.
fn write_text<W: Write>(w: &mut W, text: &[u8]) -> Result<(), WriteFault>
    ensures { WritesText text.now result (W.contents w.old) (W.contents w.new) }
{
    if put(w, text).is_err() {
        return Err(WriteFault::Io);
    }
    if w.flush().is_err() {
        return Err(WriteFault::Io);
    }
    Ok(())
}
