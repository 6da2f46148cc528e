//! `flightd audit FILE`, over any writers: the judgement of a recorded run, and where it is written.

ghost use Rattle.std.specs.Prelude.{◌≡◌, ◌⊎◌, ◌↔◌, ℕ, List, true, IsTrue, IfOk, IfErr, OnOk, OnErr};
ghost use Rattle.std.specs.Io.KnownBytes.{Appends, Keeps};
ghost use Rattle.grpc_frames.specs.FrameFaults.{IsBeginning};
ghost use Rattle.audit_command.specs.TraceFile.{Judges, Tells, MeansLawful, AuditFails, judgement_line};
ghost use Rattle.lawful_histories.specs.Recorded.{members_of, sent_of};
ghost use Rattle.lawful_histories.specs.Lawful.{IsLawful};
ghost use Rattle.audit_command.specs.declared.judging.AuditFault.TheVariants.{Io, OutOfMemory};

use crate::status::{FAILURE, SUCCESS};
use crate::trace_file::{TraceFault, read_trace};
use grpc_frames::transfer::put;
use lawful_histories::SentMessages;
use run_breaches::are_lawful_by_slot;
use std::alloc::Global;
use std::io::Write;
use thiserror::Error;

/// The line of a history that correct nodes may have sent.
pub const LAWFUL_LINE: &[u8] = b"lawful\n";

/// The line of any other history.
pub const UNLAWFUL_LINE: &[u8] = b"unlawful\n";

/// What kept a judgement from being made or written.
#[derive(Clone, Copy, Debug, PartialEq, Eq, Error)]
pub enum AuditFault {
    /// The file tells no recorded run.
    #[error("BadTrace")]
    BadTrace,
    /// Memory was refused.
    #[error("OutOfMemory")]
    OutOfMemory,
    /// The judgement could not be written.
    #[error("Io")]
    Io,
}

/// `flightd audit FILE`: judges the recorded run that the file's bytes tell (`read_trace` says how), writes `lawful` or
/// `unlawful` and a newline to `w`, and gives the exit status: [`SUCCESS`] for lawful alone.
///
/// A fault's line goes to `e`: `flightd: BadTrace` where the bytes tell no recorded run, and behind it a line with what is
/// wrong with them; `flightd: OutOfMemory` where memory is refused, `flightd: Io` where `w` fails. Where that can't be
/// written, the status alone tells.
pub fn audit_run<W: Write, E: Write>(alloc: Global, file: &[u8], w: &mut W, e: &mut E) -> u8
    ensures status { (result ≡ 0) ⊎ (result ≡ 1) }
    ensures lawful { result ≡ 0 → MeansLawful file.now }
    ensures told { result ≡ 0 → Appends (W.contents w.old) (W.contents w.new) (judgement_line true) }
    // With a judgement nothing is said.
    ensures silent { result ≡ 0 → Keeps (E.contents e.old) (E.contents e.new) }
    ensures failed { result ≡ 1 → AuditFails file.now (W.contents w.old) (W.contents w.new) (E.contents e.old) (E.contents e.new) }
{
    match audit_file(alloc, file, w) {
        Ok(true) => SUCCESS,
        Ok(false) => FAILURE,
        Err(fault) => {
            say(alloc, file, fault, e);
            FAILURE
        }
    }
}

// Says the fault, and what is wrong with a file that tells no run. Where this fails too, the status alone tells.
fn say<E: Write>(alloc: Global, file: &[u8], fault: AuditFault, e: &mut E) {
    let _ = writeln!(e, "flightd: {fault}");
    if fault == AuditFault::BadTrace
        && let Err(TraceFault::BadTrace(flaw)) = read_trace(alloc, file)
    {
        let _ = writeln!(e, "flightd: {flaw}");
    }
    let _ = e.flush();
}

/// Judges the recorded run that a file tells, as [`read_trace`] reads it, and writes `lawful` or `unlawful` and a
/// newline to `w`, which is flushed. The result is whether it is lawful.
///
/// It is judged slot by slot, by an index that holds a clone of each message: its time grows with the number of messages,
/// and at most with the square of the number of one slot's messages.
///
/// On [`AuditFault::BadTrace`] and [`AuditFault::OutOfMemory`] nothing was written; on [`AuditFault::Io`] a write or
/// the flush failed or was interrupted, and a beginning of the line of the file's own judgement has gone out, or all of
/// it.
pub fn audit_file<W: Write>(alloc: Global, file: &[u8], w: &mut W) -> Result<bool, AuditFault>
    ensures judged { Judges result file.now }
    ensures told { Tells file.now result (W.contents w.old) (W.contents w.new) }
{
    let trace = match read_trace(alloc, file) {
        Ok(trace) => trace,
        Err(TraceFault::BadTrace(_)) => return Err(AuditFault::BadTrace),
        Err(TraceFault::OutOfMemory) => return Err(AuditFault::OutOfMemory),
    };
    let is_lawful = is_lawful(alloc, &trace)?;
    tell(is_lawful, w)?;
    Ok(is_lawful)
}

fn is_lawful(alloc: Global, trace: &SentMessages) -> Result<bool, AuditFault>
    ensures judged { IfOk result (λ lawful. IsTrue lawful ↔ IsLawful (members_of trace.now) (sent_of trace.now)) }
    ensures memory { IfErr result (λ fault. fault ≡ OutOfMemory) }
{
    match are_lawful_by_slot(alloc, trace.members(), trace.sent()) {
        Ok(is_lawful) => Ok(is_lawful),
        Err(_) => Err(AuditFault::OutOfMemory),
    }
}

fn line_of(is_lawful: bool) -> &'static [u8]
    ensures { result.now ≡ judgement_line is_lawful }
{
    if is_lawful {
        LAWFUL_LINE
    } else {
        UNLAWFUL_LINE
    }
}

fn tell<W: Write>(is_lawful: bool, w: &mut W) -> Result<(), AuditFault>
    ensures written { OnOk result (Appends (W.contents w.old) (W.contents w.new) (judgement_line is_lawful)) }
    ensures part { OnErr result ((written : List ℕ) × IsBeginning written (judgement_line is_lawful)
        × Appends (W.contents w.old) (W.contents w.new) written) }
    ensures io { IfErr result (λ fault. fault ≡ Io) }
{
    write_flushed(line_of(is_lawful), w)
}

/// Writes all of the text and flushes the writer, or fails, and then a beginning of it has gone out, or all.
pub(crate) fn write_flushed<W: Write>(text: &[u8], w: &mut W) -> Result<(), AuditFault>
    ensures written { OnOk result (Appends (W.contents w.old) (W.contents w.new) text.now) }
    ensures part { OnErr result ((written : List ℕ) × IsBeginning written text.now
        × Appends (W.contents w.old) (W.contents w.new) written) }
    ensures io { IfErr result (λ fault. fault ≡ Io) }
{
    if put(w, text).is_err() {
        return Err(AuditFault::Io);
    }
    if w.flush().is_err() {
        return Err(AuditFault::Io);
    }
    Ok(())
}
