//! `flightd replay FILE`, over any writers: a schedule is played, and a line is written for each event.

ghost use Rattle.std.specs.Prelude.{◌≡◌, ◌⊎◌, ℕ, List, IfErr, OnOk, OnErr};
ghost use Rattle.std.specs.Io.KnownBytes.{Appends, Keeps};
ghost use Rattle.grpc_frames.specs.FrameFaults.{IsBeginning};
ghost use Rattle.replay_command.specs.Lines.{line_of, lines_of};
ghost use Rattle.replay_command.specs.Replaying.{Replays, ReplayFails, TellsAll, IsOfTelling};

use crate::fault::ReplayFault;
use crate::lines::line_of;
use crate::status::{FAILURE, SUCCESS};
use grpc_frames::transfer::put;
use run_files::{ScheduleFault, read_schedule, schedule_flaw};
use schedule_runner::{RunFault, run};
use std::alloc::Global;
use std::hash::RandomState;
use std::io::Write;
use traces::{Step, Trace};

/// `flightd replay FILE`: applies the events of the schedule that the file's bytes are (`read_schedule` says how) to nodes
/// of its own, writes a line for each to `w`, and gives the exit status. docs/FORMATS.md has the lines. `hashing` has the
/// random keys that keep look-ups fast whatever names the file chooses.
///
/// A fault's line goes to `e`: `flightd: BadSchedule` where the bytes tell no schedule, and behind it a line with what is
/// wrong with them ([`schedule_flaw`]); `flightd: OutOfMemory` where memory is refused, `flightd: Io` where `w` fails. Where
/// that can't be written, the status alone tells.
pub fn replay_run<W: Write, E: Write>(
    alloc: Global,
    hashing: RandomState,
    file: &[u8],
    w: &mut W,
    e: &mut E,
) -> u8
    ensures status { (result ≡ 0) ⊎ (result ≡ 1) }
    ensures told { result ≡ 0 → TellsAll file.now (W.contents w.old) (W.contents w.new) }
    // Without a fault nothing is said.
    ensures silent { result ≡ 0 → Keeps (E.contents e.old) (E.contents e.new) }
    ensures failed { result ≡ 1 → ReplayFails file.now (W.contents w.old) (W.contents w.new) }
{
    match replay_file(alloc, hashing, file, w) {
        Ok(()) => SUCCESS,
        Err(fault) => {
            say(alloc, file, fault, e);
            FAILURE
        }
    }
}

// Says the fault, and what is wrong with a file that tells no schedule. Where this fails too, the status alone tells.
fn say<E: Write>(alloc: Global, file: &[u8], fault: ReplayFault, e: &mut E) {
    let _ = writeln!(e, "flightd: {fault}");
    if fault == ReplayFault::BadSchedule
        && let Ok(Some(flaw)) = schedule_flaw(alloc, file)
    {
        let _ = writeln!(e, "flightd: {flaw}");
    }
    let _ = e.flush();
}

/// Plays the schedule that a file tells, as [`read_schedule`] reads it, and writes a line for each of its events to `w`,
/// which is flushed.
///
/// [`ReplayFault::BadSchedule`] says that the file tells no schedule; nothing was played then, and nothing written. On
/// [`ReplayFault::OutOfMemory`] nothing was written, or a beginning of the lines; a node that wants memory refuses its
/// event, and its line says so. On [`ReplayFault::Io`] a write or the flush failed or was interrupted, and a beginning of
/// the lines has gone out, or all of them.
pub fn replay_file<W: Write>(
    alloc: Global,
    hashing: RandomState,
    file: &[u8],
    w: &mut W,
) -> Result<(), ReplayFault>
    ensures { Replays file.now result (W.contents w.old) (W.contents w.new) }
{
    let schedule = match read_schedule(alloc, file) {
        Ok(schedule) => schedule,
        Err(ScheduleFault::BadSchedule) => return Err(ReplayFault::BadSchedule),
        Err(ScheduleFault::OutOfMemory) => return Err(ReplayFault::OutOfMemory),
    };
    let trace = match run(alloc, hashing, schedule.config, &schedule.events) {
        Ok(trace) => trace,
        // A schedule that is read is within the limits of a run.
        Err(RunFault::BadConfig) => unreachable!(),
        Err(RunFault::OutOfMemory) => return Err(ReplayFault::OutOfMemory),
    };
    tell(alloc, &trace, w)
}

/// Writes the lines of the trace's steps, and flushes the writer.
fn tell<W: Write>(alloc: Global, trace: &Trace, w: &mut W) -> Result<(), ReplayFault>
    ensures all { OnOk result (Appends (W.contents w.old) (W.contents w.new) (lines_of trace.now.steps)) }
    ensures part { OnErr result ((written : List ℕ) × IsBeginning written (lines_of trace.now.steps)
        × Appends (W.contents w.old) (W.contents w.new) written) }
    ensures fault { IfErr result IsOfTelling }
{
    write_lines(alloc, trace.steps(), w)?;
    if w.flush().is_err() {
        return Err(ReplayFault::Io);
    }
    Ok(())
}

/// Writes the lines of the steps.
fn write_lines<W: Write>(alloc: Global, steps: &[Step], w: &mut W) -> Result<(), ReplayFault>
    ensures all { OnOk result (Appends (W.contents w.old) (W.contents w.new) (lines_of steps.now)) }
    ensures part { OnErr result ((written : List ℕ) × IsBeginning written (lines_of steps.now)
        × Appends (W.contents w.old) (W.contents w.new) written) }
    ensures fault { IfErr result IsOfTelling }
{
    for number in 0..steps.len() {
        write_line(alloc, number, &steps[number], w)?;
    }
    Ok(())
}

/// Writes the line of a step.
fn write_line<W: Write>(
    alloc: Global,
    number: usize,
    step: &Step,
    w: &mut W,
) -> Result<(), ReplayFault>
    ensures all { OnOk result (Appends (W.contents w.old) (W.contents w.new) (line_of number step.now)) }
    ensures part { OnErr result ((written : List ℕ) × IsBeginning written (line_of number step.now)
        × Appends (W.contents w.old) (W.contents w.new) written) }
    ensures fault { IfErr result IsOfTelling }
{
    let Ok(line) = line_of(alloc, number, step) else {
        return Err(ReplayFault::OutOfMemory);
    };
    if put(w, line.as_bytes()).is_err() {
        return Err(ReplayFault::Io);
    }
    Ok(())
}
