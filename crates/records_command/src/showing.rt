//! `flightd records FILE`, over any writers: a line is written for each record of a node's file.

ghost use Rattle.std.specs.Prelude.{◌≡◌, ◌⊎◌, ℕ, List, IfErr, OnOk, OnErr};
ghost use Rattle.std.specs.Io.KnownBytes.{Appends, Keeps};
ghost use Rattle.grpc_frames.specs.FrameFaults.{IsBeginning};
ghost use Rattle.records_command.specs.Lines.{line_of, lines_of};
ghost use Rattle.records_command.specs.Showing.{IsOfWriting, ShowFails, Shows, ShowsAll, ShowsRead};

use crate::fault::ShowFault;
use crate::lines::line_of;
use crate::status::{FAILURE, SUCCESS};
use ballots::Record;
use disk_records::laws::files_mean_one;
use disk_records::read_records;
use grpc_frames::transfer::put;
use record_sums::{damage_in, first_misfit};
use stable_records::StoreFault;
use std::alloc::Global;
use std::io::Write;

/// `flightd records FILE`: writes a line for each record that the file's bytes mean to `w`, as a store on a disk reads them, and gives
/// the exit status. `sums` are the bytes of the file of their sums, none where there is no such file. docs/FORMATS.md has the files and
/// the lines.
///
/// A fault's line goes to `e`: `flightd: Damaged` where the bytes mean no records, or one that is not the record whose sum was entered,
/// and behind it a line with the place of the damage; `flightd: OutOfMemory` where memory is refused, `flightd: Io` where `w` fails.
/// Where that can't be written, the status alone tells.
pub fn records_run<W: Write, E: Write>(
    alloc: Global,
    file: &[u8],
    sums: &[u8],
    w: &mut W,
    e: &mut E,
) -> u8
    ensures status { (result ≡ 0) ⊎ (result ≡ 1) }
    ensures told { result ≡ 0 → ShowsAll file.now sums.now (W.contents w.old) (W.contents w.new) }
    // Without a fault nothing is said.
    ensures silent { result ≡ 0 → Keeps (E.contents e.old) (E.contents e.new) }
    ensures failed { result ≡ 1 → ShowFails file.now sums.now (W.contents w.old) (W.contents w.new) }
{
    match show_records(alloc, file, sums, w) {
        Ok(()) => SUCCESS,
        Err(fault) => {
            report(alloc, file, sums, fault, e);
            FAILURE
        }
    }
}

// Reports a fault. Where this fails too, the status alone tells.
fn report<E: Write>(alloc: Global, file: &[u8], sums: &[u8], fault: ShowFault, e: &mut E) {
    let _ = writeln!(e, "flightd: {fault}");
    if fault == ShowFault::Damaged
        && let Ok(Some(damage)) = damage_in(alloc, file, sums)
    {
        let _ = writeln!(e, "{damage}");
    }
    let _ = e.flush();
}

/// Writes a line for each record that a file's bytes mean to `w`, which is flushed.
///
/// [`ShowFault::Damaged`] says that they mean none, or that these do not fit their sums; nothing was written then. On
/// [`ShowFault::OutOfMemory`] nothing was written, or a beginning of the lines. On [`ShowFault::Io`] a write or the flush failed or was
/// interrupted, and a beginning of the lines has gone out, or all of them.
pub fn show_records<W: Write>(
    alloc: Global,
    file: &[u8],
    sums: &[u8],
    w: &mut W,
) -> Result<(), ShowFault>
    ensures { Shows file.now sums.now result (W.contents w.old) (W.contents w.new) }
{
    files_mean_one();
    match read_records(alloc, file) {
        Ok(read) => show_read(alloc, sums, read.records.as_slice(), w),
        Err(StoreFault::Damaged) => Err(ShowFault::Damaged),
        Err(StoreFault::OutOfMemory) => Err(ShowFault::OutOfMemory),
        // Bytes that are there do not fail.
        Err(StoreFault::Device | StoreFault::Broken) => unreachable!(),
    }
}

/// Writes the lines of records that fit these sums.
fn show_read<W: Write>(
    alloc: Global,
    sums: &[u8],
    records: &[Record],
    w: &mut W,
) -> Result<(), ShowFault>
    ensures { ShowsRead sums.now records.now result (W.contents w.old) (W.contents w.new) }
{
    match first_misfit(alloc, sums, records) {
        Ok(None) => tell(alloc, records, w),
        Ok(Some(_)) => Err(ShowFault::Damaged),
        Err(_) => Err(ShowFault::OutOfMemory),
    }
}

/// Writes the lines of the records, and flushes the writer.
fn tell<W: Write>(alloc: Global, records: &[Record], w: &mut W) -> Result<(), ShowFault>
    ensures all { OnOk result (Appends (W.contents w.old) (W.contents w.new) (lines_of records.now)) }
    ensures part { OnErr result ((written : List ℕ) × IsBeginning written (lines_of records.now)
        × Appends (W.contents w.old) (W.contents w.new) written) }
    ensures fault { IfErr result IsOfWriting }
{
    write_lines(alloc, records, w)?;
    if w.flush().is_err() {
        return Err(ShowFault::Io);
    }
    Ok(())
}

/// Writes the lines of the records.
fn write_lines<W: Write>(alloc: Global, records: &[Record], w: &mut W) -> Result<(), ShowFault>
    ensures all { OnOk result (Appends (W.contents w.old) (W.contents w.new) (lines_of records.now)) }
    ensures part { OnErr result ((written : List ℕ) × IsBeginning written (lines_of records.now)
        × Appends (W.contents w.old) (W.contents w.new) written) }
    ensures fault { IfErr result IsOfWriting }
{
    for number in 0..records.len() {
        write_line(alloc, number, &records[number], w)?;
    }
    Ok(())
}

/// Writes the line of a record.
fn write_line<W: Write>(
    alloc: Global,
    number: usize,
    kept: &Record,
    w: &mut W,
) -> Result<(), ShowFault>
    ensures all { OnOk result (Appends (W.contents w.old) (W.contents w.new) (line_of number kept.now)) }
    ensures part { OnErr result ((written : List ℕ) × IsBeginning written (line_of number kept.now)
        × Appends (W.contents w.old) (W.contents w.new) written) }
    ensures fault { IfErr result IsOfWriting }
{
    let Ok(line) = line_of(alloc, number, kept) else {
        return Err(ShowFault::OutOfMemory);
    };
    if put(w, line.as_bytes()).is_err() {
        return Err(ShowFault::Io);
    }
    Ok(())
}
