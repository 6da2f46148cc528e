//! The calls of a script.

ghost use Rattle.std.specs.Prelude.{◌≡◌, OnOk, length};
ghost use Rattle.std.specs.Io.KnownBytes.{Appends};
ghost use Rattle.script_calls.specs.Lines.{line_of};
ghost use Rattle.script_calls.specs.declared.told.Told.{Told as Answered};
ghost use Rattle.script_command.specs.Playing.{WritesLines};

use crate::fault::{Unplayed, not_answered};
use grpc_frames::transfer::put;
use run_files::ScriptCall;
use script_calls::{Told, ask, asks_again};
use std::alloc::Global;
use std::io::{BufReader, BufWriter, Write};
use std::net::{Ipv4Addr, Net, SocketAddr, TcpStream};
use std::thread;
use std::thread::Threads;
use std::time::{Clock, Duration};

/// The port of node 0; node k has the port that is k more.
pub const FIRST_PORT: u16 = 42_000;

/// How often a version is asked for that can't be served yet, at most.
pub const MOST_TRIES: u32 = 10_000;

/// How long is waited before it is asked for again, in milliseconds.
const AGAIN_MILLISECONDS: u64 = 1;

/// How long a node may let no byte pass while one is waited for, in seconds.
const SILENCE_SECONDS: u64 = 60;

// Makes the call of its node, over a connection of its own.
fn ask_node<R: Net<Stream = TcpStream>>(
    rt: &R,
    alloc: Global,
    call: &ScriptCall,
) -> Result<Told, Unplayed> {
    let address = SocketAddr::from((Ipv4Addr::LOCALHOST, FIRST_PORT + u16::from(call.node)));
    let Ok(stream) = TcpStream::connect(rt, address) else {
        return Err(Unplayed::Io);
    };
    let silence = Some(Duration::from_secs(SILENCE_SECONDS));
    // A stream without these options is used all the same.
    let _ = stream.set_read_timeout(silence);
    let _ = stream.set_nodelay(true);
    ask_over(alloc, &stream, call)
}

// Makes the call over this connection.
fn ask_over(alloc: Global, stream: &TcpStream, call: &ScriptCall) -> Result<Told, Unplayed> {
    let (Ok(mut input), Ok(mut output)) = (
        BufReader::new(alloc, stream),
        BufWriter::new(alloc, stream),
    ) else {
        return Err(Unplayed::OutOfMemory);
    };
    match ask(alloc, &mut input, &mut output, &call.asked) {
        Ok(told) => Ok(told),
        Err(fault) => Err(not_answered(fault)),
    }
}

// What is told to the call: where a version can't be served yet, it is asked for again, [`MOST_TRIES`] times in all.
fn told_to<R: Net<Stream = TcpStream> + Threads + Clock>(
    rt: &R,
    alloc: Global,
    call: &ScriptCall,
) -> Result<Told, Unplayed> {
    let mut told = ask_node(rt, alloc, call)?;
    for _ in 1..MOST_TRIES {
        if !asks_again(&call.asked, &told) {
            return Ok(told);
        }
        let _ = thread::sleep(rt, Duration::from_millis(AGAIN_MILLISECONDS));
        told = ask_node(rt, alloc, call)?;
    }
    Ok(told)
}

// Writes the line of what was told.
fn write_line<W: Write>(
    alloc: Global,
    number: usize,
    told: &Told,
    w: &mut W,
) -> Result<(), Unplayed>
    ensures { OnOk result (Appends (W.contents w.old) (W.contents w.new) (line_of number told.now)) }
{
    let Ok(line) = told.line(alloc, number) else {
        return Err(Unplayed::OutOfMemory);
    };
    if put(w, line.as_bytes()).is_err() {
        return Err(Unplayed::Io);
    }
    Ok(())
}

// Makes the call, and writes its line.
fn play_call<R: Net<Stream = TcpStream> + Threads + Clock, W: Write>(
    rt: &R,
    alloc: Global,
    number: usize,
    call: &ScriptCall,
    w: &mut W,
) -> Result<(), Unplayed>
    ensures { OnOk result ((told : Answered) × Appends (W.contents w.old) (W.contents w.new) (line_of number told)) }
{
    let told = told_to(rt, alloc, call)?;
    write_line(alloc, number, &told, w)?;
    Ok(())
}

/// Makes the calls, one after the other, and writes the line of each to `w`.
pub(crate) fn play_calls<R: Net<Stream = TcpStream> + Threads + Clock, W: Write>(
    rt: &R,
    alloc: Global,
    calls: &[ScriptCall],
    w: &mut W,
) -> Result<(), Unplayed>
    ensures { OnOk result (WritesLines (W.contents w.old) (length calls.now) (W.contents w.new)) }
{
    for number in 0..calls.len() {
        play_call(rt, alloc, number, &calls[number], w)?;
    }
    Ok(())
}
