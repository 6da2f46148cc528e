//! One connection.

ghost use Rattle.std.specs.Prelude.{map, string_bytes};
ghost use Rattle.grpc_frames.specs.FrameFaults.{WhereKnown};
ghost use Rattle.flight_service.specs.Connections.{ServesAt};

use crate::peer::Peer;
use crate::service::Service;
use crate::timely::TimelyWriter;
use call_protocol::CallFault;
use cluster_backend::{Caller, ClusterBackend, Nodes, Receipts};
use flight_calls::serve_call;
use std::alloc::Global;
use std::io::{BufReader, BufWriter, Read, Write};
use std::net::{Shutdown, TcpStream};
use std::sync::Wait;
use std::time::{Clock, Duration};

/// How long a peer may let no byte pass while one is waited for, in seconds; and in how long it has to take the bytes of one
/// write, [`MOST_WRITE_BYTES`] at most.
///
/// [`MOST_WRITE_BYTES`]: crate::MOST_WRITE_BYTES
pub const SILENCE_SECONDS: u64 = 60;

/// How many bytes of a request are read and let go behind its answer, at most, so that the answer is not lost with them.
const MOST_LEFT_BYTES: usize = 33_554_432;

/// Serves one call of this caller to the node of this number, as [`serve_call`] does over a [`ClusterBackend`].
pub fn serve_connection<R: Wait + Clock, I: Read, O: Write, C: Nodes, K: Receipts, P: Caller>(
    alloc: Global,
    rt: &R,
    nodes: &C,
    receipts: &K,
    caller: &P,
    node: usize,
    locations: &[String],
    input: &mut I,
    output: &mut O,
) -> Result<(), CallFault>
    ensures { WhereKnown (I.remaining input.old) (I.remaining input.new)
        (λ text rest. WhereKnown (O.contents output.old) (O.contents output.new)
        (ServesAt C.entered C.holds C.fails P.may_leave result node (map string_bytes locations.now) text rest)) }
{
    let mut backend = ClusterBackend::new(alloc, rt, nodes, receipts, caller, node, locations);
    serve_call(alloc, input, output, &mut backend)
}

/// Serves the call of a peer, and ends the connection.
pub(crate) fn answer_peer<R: Wait + Clock, C: Nodes + Drop, K: Receipts + Drop>(
    rt: &R,
    alloc: Global,
    service: &Service<C, K>,
    node: usize,
    stream: &TcpStream,
) {
    let silence = Some(Duration::from_secs(SILENCE_SECONDS));
    // A stream without these options is served all the same.
    let _ = stream.set_read_timeout(silence);
    let _ = stream.set_write_timeout(silence);
    let _ = stream.set_nodelay(true);
    let (Ok(mut input), Ok(mut output)) = (
        BufReader::new(alloc, stream),
        BufWriter::new(alloc, TimelyWriter::new(stream)),
    ) else {
        return;
    };
    let served = serve_connection(
        alloc,
        rt,
        service.nodes(),
        service.receipts(),
        &Peer::new(stream, service.longest_wait()),
        node,
        service.locations(),
        &mut input,
        &mut output,
    );
    let flushed = output.flush();
    let _ = stream.shutdown(Shutdown::Write);
    if served.is_ok() && flushed.is_ok() {
        read_rest(stream);
    }
}

// Reads what is left of a request, and lets it go: a connection that is closed over bytes that were not read may lose the
// answer on its way.
fn read_rest(stream: &TcpStream) {
    let mut stream = stream;
    let mut buffer = [0u8; 4096];
    for _ in 0..MOST_LEFT_BYTES / 4096 {
        match stream.read(&mut buffer) {
            Ok(0) | Err(_) => return,
            Ok(_) => {}
        }
    }
}
