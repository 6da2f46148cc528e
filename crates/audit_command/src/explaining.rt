//! An audit that is explained, over any writers: the judgement of a recorded run, and why it is unlawful.

ghost use Rattle.std.specs.Prelude.{◌≡◌, ◌⊎◌, ◌++◌, true, false, IfOk, IfErr, string_bytes};
ghost use Rattle.std.specs.Io.KnownBytes.{Appends, Keeps};
ghost use Rattle.lawful_histories.specs.Recorded.{members_of, sent_of};
ghost use Rattle.breach_words.specs.Explanation.{explanation_of};
ghost use Rattle.audit_command.specs.TraceFile.{MeansLawful, judgement_line};
ghost use Rattle.audit_command.specs.Explained.{IsVerdict, RunTold, ExplainedTo, ExplainFails};
ghost use Rattle.audit_command.specs.declared.explaining.ExplainFault.TheVariants.{OutOfMemory};

use crate::judging::write_flushed;
use crate::status::{FAILURE, SUCCESS};
use crate::trace_file::{TraceFault, TraceFlaw, read_trace};
use ballots::{Members, Message};
use breach_words::explanation;
use lawful_histories::SentMessages;
use run_breaches::{Breach, first_breach_by_slot};
use std::alloc::{AllocError, Global};
use std::io::Write;
use thiserror::Error;

/// What kept a judgement from being made, explained or written.
#[derive(Clone, Copy, Debug, PartialEq, Eq, Error)]
pub enum ExplainFault {
    /// The file tells no recorded run, and this is what is wrong with it.
    #[error("BadTrace")]
    BadTrace(TraceFlaw),
    /// Memory was refused.
    #[error("OutOfMemory")]
    OutOfMemory,
    /// The text could not be written.
    #[error("Io")]
    Io,
}

impl From<AllocError> for ExplainFault {
    ghost use Rattle.std.specs.Prelude.{◌≡◌};
    ghost use Rattle.audit_command.specs.declared.explaining.ExplainFault.TheVariants.{OutOfMemory};

    ghost from_gives = { λ _ fault. fault ≡ OutOfMemory };

    fn from(_: AllocError) -> ExplainFault {
        ExplainFault::OutOfMemory
    }
}

/// A judgement, and the text that tells it.
#[derive(Drop)]
struct Verdict {
    is_lawful: bool,
    text: String,
}

/// An audit that is explained: what [`audit_run`](crate::audit_run) does, and behind the line `unlawful` it writes
/// why: the first message that breaks the rules, by its number, from 0, with its slot and its line, and each rule that
/// it breaks, with the earlier message that it goes against.
///
/// The exit status and the first line are those of the audit. Of a file that tells no recorded run a second line goes to
/// `e`, which says what is wrong with it, and of a message of `sent` which one it is.
pub fn explain_run<W: Write, E: Write>(alloc: Global, file: &[u8], w: &mut W, e: &mut E) -> u8
    ensures status { (result ≡ 0) ⊎ (result ≡ 1) }
    ensures lawful { result ≡ 0 → MeansLawful file.now }
    ensures told { result ≡ 0 → Appends (W.contents w.old) (W.contents w.new) (judgement_line true) }
    // With a judgement nothing is said.
    ensures silent { result ≡ 0 → Keeps (E.contents e.old) (E.contents e.new) }
    ensures failed { result ≡ 1 → ExplainFails file.now (W.contents w.old) (W.contents w.new) (E.contents e.old) (E.contents e.new) }
{
    match explain_file(alloc, file, w) {
        Ok(true) => SUCCESS,
        Ok(false) => FAILURE,
        Err(fault) => {
            say(fault, e);
            FAILURE
        }
    }
}

/// Judges the recorded run that a file tells, and writes the judgement and, where it is unlawful, why, to `w`, which is
/// flushed. The result is whether it is lawful.
///
/// On [`ExplainFault::BadTrace`] and [`ExplainFault::OutOfMemory`] nothing was written; on [`ExplainFault::Io`] a write
/// or the flush failed or was interrupted, and a beginning of the text has gone out, or all of it.
pub fn explain_file<W: Write>(alloc: Global, file: &[u8], w: &mut W) -> Result<bool, ExplainFault>
    ensures { ExplainedTo file.now result (W.contents w.old) (W.contents w.new) }
{
    match read_trace(alloc, file) {
        Ok(trace) => explain_trace(alloc, &trace, w),
        Err(TraceFault::BadTrace(flaw)) => Err(ExplainFault::BadTrace(flaw)),
        Err(TraceFault::OutOfMemory) => Err(ExplainFault::OutOfMemory),
    }
}

fn explain_trace<W: Write>(
    alloc: Global,
    trace: &SentMessages,
    w: &mut W,
) -> Result<bool, ExplainFault>
    ensures { RunTold (members_of trace.now) (sent_of trace.now) result (W.contents w.old) (W.contents w.new) }
{
    let verdict = verdict_on(alloc, trace.members(), trace.sent())?;
    match write_flushed(verdict.text.as_bytes(), w) {
        Ok(_) => Ok(verdict.is_lawful),
        Err(_) => Err(ExplainFault::Io),
    }
}

fn verdict_on(alloc: Global, members: Members, sent: &[Message]) -> Result<Verdict, ExplainFault>
    ensures verdict { IfOk result (λ verdict. IsVerdict members sent.now verdict.is_lawful (string_bytes verdict.text)) }
    ensures memory { IfErr result (λ fault. fault ≡ OutOfMemory) }
{
    match first_breach_by_slot(alloc, members, sent) {
        Ok(None) => Ok(Verdict {
            is_lawful: true,
            text: format!(in alloc; "lawful\n")?,
        }),
        Ok(Some(breach)) => Ok(Verdict {
            is_lawful: false,
            text: unlawful_text(alloc, sent, &breach)?,
        }),
        Err(_) => Err(ExplainFault::OutOfMemory),
    }
}

fn unlawful_text(alloc: Global, sent: &[Message], breach: &Breach) -> Result<String, AllocError>
    ensures { IfOk result (λ text. string_bytes text ≡ judgement_line false ++ explanation_of sent.now breach.now) }
{
    let why = explanation(alloc, sent, breach)?;
    format!(in alloc; "unlawful\n{why}")
}

// Says the fault, and what is wrong with a file that tells no run. Where this fails too, the status alone tells.
fn say<E: Write>(fault: ExplainFault, e: &mut E) {
    let _ = writeln!(e, "flightd: {fault}");
    if let ExplainFault::BadTrace(flaw) = fault {
        let _ = writeln!(e, "flightd: {flaw}");
    }
    let _ = e.flush();
}
