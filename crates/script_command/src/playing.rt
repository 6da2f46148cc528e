//! `flightd script FILE`, over any writers.

ghost use Rattle.std.specs.Prelude.{◌≡◌, ◌⊎◌, ℕ, List, OnOk, IfOk, IsErrOf, length, if◌then◌else◌, []};
ghost use Rattle.std.specs.Io.KnownBytes.{Appends, Keeps};
ghost use Rattle.run_files.specs.declared.script.ClusterSize.{ClusterSize as Counted};
ghost use Rattle.run_files.specs.declared.script.ScriptCall.{ScriptCall as Calling};
ghost use Rattle.run_files.specs.ScriptFile.{MeansScript};
ghost use Rattle.script_command.specs.Playing.{MeansNoScript, WritesAll, confirmed_line, unconfirmed_line};

use crate::calling::{FIRST_PORT, play_calls};
use crate::fault::{PlayFault, Unplayed, not_served};
use crate::status::{FAILURE, SUCCESS};
use crossbeam_channel::Receiver;
use flight_service::{
    AllReceipts, Beginning, Note, OwnEntry, Works, join_all, nodes_in_memory, open_service,
};
use ghost_log::Opened;
use grpc_frames::transfer::put;
use run_files::{ClusterSize, ScriptCall, ScriptFault, read_script, script_flaw};
use std::alloc::Global;
use std::hash::RandomState;
use std::io::Write;
use std::marker::Brand;
use std::net::{Net, TcpListener, TcpStream};
use std::sync::Wait;
use std::thread::Threads;
use std::time::Clock;

/// `flightd script FILE`: makes the calls of the script that the file's bytes are (`read_script` says how), one after the other, of
/// a cluster of its own, whose node k is served at the port of 127.0.0.1 that is k more than [`FIRST_PORT`], and writes a line for
/// each to `w`. docs/FORMATS.md has the lines. A `get` that can't be served yet is made again, 1 ms later, up to
/// [`crate::MOST_TRIES`] times in all. The last line is `receipts ok`, and the status 0, where the cluster's journal has each
/// answer that its nodes gave, and else `receipts bad`, and the status 1. `hashing` has the random keys that keep look-ups fast
/// whatever names the file chooses.
///
/// A fault's line goes to `e`, and the status is 1: `flightd: BadScript` where the bytes tell no script, which is told before a
/// port is opened and anything is written to `w`, and behind it a line with what is wrong with them ([`script_flaw`]);
/// `flightd: Bind` where a port can't be had; `flightd: OutOfMemory` where memory or a thread is refused; `flightd: Io` where
/// `w` or a connection fails; `flightd: BadAnswer` where a node's answer is none. Where that can't be written, the status alone
/// tells.
pub fn script_run<
    R: Net<Listener = TcpListener, Stream = TcpStream>
        + Threads
        + Wait
        + Clock
        + Copy
        + Send
        + 'static,
    W: Write,
    E: Write,
>(rt: R, alloc: Global, hashing: RandomState, file: &[u8], w: &mut W, e: &mut E) -> u8
    ensures status { (result ≡ 0) ⊎ (result ≡ 1) }
    ensures played { result ≡ 0 → (nodes : Counted) × (calls : List Calling) × MeansScript file.now nodes calls
        × WritesAll (W.contents w.old) (length calls) confirmed_line (W.contents w.new) }
    ensures silent { result ≡ 0 → Keeps (E.contents e.old) (E.contents e.new) }
    ensures none { MeansNoScript file.now → Keeps (W.contents w.old) (W.contents w.new) }
{
    match script_file(rt, alloc, hashing, file, w) {
        Ok(true) => SUCCESS,
        Ok(false) => FAILURE,
        Err(fault) => {
            say(alloc, file, fault, e);
            FAILURE
        }
    }
}

// Says the fault, and what is wrong with a file that tells no script. Where this fails too, the status alone tells.
fn say<E: Write>(alloc: Global, file: &[u8], fault: PlayFault, e: &mut E) {
    let _ = writeln!(e, "flightd: {fault}");
    if fault == PlayFault::BadScript
        && let Ok(Some(flaw)) = script_flaw(alloc, file)
    {
        let _ = writeln!(e, "flightd: {flaw}");
    }
    let _ = e.flush();
}

/// Plays the script that a file tells as [`script_run`] does, and says whether each answer is confirmed, or gives the fault
/// itself: [`PlayFault::BadScript`] only where the file tells none.
pub fn script_file<
    R: Net<Listener = TcpListener, Stream = TcpStream>
        + Threads
        + Wait
        + Clock
        + Copy
        + Send
        + 'static,
    W: Write,
>(rt: R, alloc: Global, hashing: RandomState, file: &[u8], w: &mut W) -> Result<bool, PlayFault>
    ensures played { IfOk result (λ ok. (nodes : Counted) × (calls : List Calling) × MeansScript file.now nodes calls
        × WritesAll (W.contents w.old) (length calls) (if ok then confirmed_line else unconfirmed_line) (W.contents w.new)) }
    ensures bad { IsErrOf result PlayFault.BadScript → MeansNoScript file.now }
    ensures none { MeansNoScript file.now → Keeps (W.contents w.old) (W.contents w.new) }
{
    let script = match read_script(alloc, file) {
        Ok(script) => script,
        Err(ScriptFault::BadScript) => return Err(PlayFault::BadScript),
        Err(ScriptFault::OutOfMemory) => return Err(PlayFault::Unplayed(Unplayed::OutOfMemory)),
    };
    let calls = script.calls.as_slice();
    let played = play_at_new::<R, W, Brand>(
        rt,
        alloc,
        hashing,
        script.nodes,
        calls,
        w,
        Opened::new(),
    );
    match played {
        Ok(ok) => Ok(ok),
        Err(fault) => Err(PlayFault::Unplayed(fault)),
    }
}

// Plays the calls at so many new nodes, whose journal has this log. Their number is written out where threads take them: what a thread takes
// lives for `'static`, and there is no saying so of a type whose size is a parameter.
fn play_at_new<
    R: Net<Listener = TcpListener, Stream = TcpStream>
        + Threads
        + Wait
        + Clock
        + Copy
        + Send
        + 'static,
    W: Write,
    J: Beginning + Send + Sync + 'static,
>(
    rt: R,
    alloc: Global,
    hashing: RandomState,
    size: ClusterSize,
    calls: &[ScriptCall],
    w: &mut W,
    log: Opened<OwnEntry>,
) -> Result<bool, Unplayed>
    requires named { log ≡ J.book }
    requires start { J.start ≡ [] }
    ensures { IfOk result (λ ok. WritesAll (W.contents w.old) (length calls.now)
        (if ok then confirmed_line else unconfirmed_line) (W.contents w.new)) }
{
    match size {
        ClusterSize::Three => match nodes_in_memory::<R, J, 3>(&rt, alloc, hashing, log) {
            Ok((nodes, notes)) => play_at(rt, alloc, nodes, notes, 3, calls, w),
            Err(fault) => Err(not_served(fault)),
        },
        ClusterSize::Five => match nodes_in_memory::<R, J, 5>(&rt, alloc, hashing, log) {
            Ok((nodes, notes)) => play_at(rt, alloc, nodes, notes, 5, calls, w),
            Err(fault) => Err(not_served(fault)),
        },
    }
}

// Plays the calls at these nodes.
fn play_at<
    R: Net<Listener = TcpListener, Stream = TcpStream>
        + Threads
        + Wait
        + Clock
        + Copy
        + Send
        + 'static,
    W: Write,
    C: Works + Drop + 'static,
>(
    rt: R,
    alloc: Global,
    nodes: C,
    notes: Vec<Receiver<Note>>,
    count: u8,
    calls: &[ScriptCall],
    w: &mut W,
) -> Result<bool, Unplayed>
    ensures { IfOk result (λ ok. WritesAll (W.contents w.old) (length calls.now)
        (if ok then confirmed_line else unconfirmed_line) (W.contents w.new)) }
{
    let receipts = AllReceipts::new(alloc);
    let (service, workers) = match open_service(
        rt, alloc, nodes, receipts, notes, FIRST_PORT, count, None,
    ) {
        Ok(opened) => opened,
        Err(fault) => return Err(not_served(fault)),
    };
    let played = play_calls(&rt, alloc, calls, w);
    service.nodes().stop(&rt);
    join_all(&rt, workers);
    played?;
    let ok = service.nodes().confirm_all(&rt, service.receipts());
    tell_receipts(ok, w)?;
    Ok(ok)
}

// Writes the last line, and flushes the writer.
fn tell_receipts<W: Write>(ok: bool, w: &mut W) -> Result<(), Unplayed>
    ensures { OnOk result (Appends (W.contents w.old) (W.contents w.new)
        (if ok then confirmed_line else unconfirmed_line)) }
{
    let line = if ok {
        "receipts ok\n"
    } else {
        "receipts bad\n"
    };
    if put(w, line.as_bytes()).is_err() {
        return Err(Unplayed::Io);
    }
    if w.flush().is_err() {
        return Err(Unplayed::Io);
    }
    Ok(())
}
