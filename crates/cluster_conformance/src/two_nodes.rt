//! Two calls at once at two nodes, over the threads of a service: the first is held at the gate of its node, and then waits for a seat
//! that the test holds, until the second is answered.

ghost use Rattle.std.specs.Prelude.{◌≡◌, []};

use crate::asked::Asked;
use crate::flag::Flag;
use crate::ports::{address_of, three_ports};
use crate::support::{Nodes, Why, check, had, three, ticket, told};
use client_calls::{ClientFault, call_get};
use flight_service::{
    Beginning, Gate, NoReceipts, OwnEntry, Running, Service, Works, start_listening,
};
use ghost_log::Opened;
use std::alloc::Global;
use std::hash::RandomState;
use std::io::{BufReader, BufWriter};
use std::marker::Brand;
use std::net::{Net, TcpListener, TcpStream};
use std::sync::{Arc, Wait};
use std::test::Fail;
use std::thread;
use std::thread::{JoinHandle, Threads};
use std::time::{Clock, Duration};

/// How often a thread looks for what it waits for, 1 ms apart.
const TURNS: u32 = 10_000;

/// What becomes of calls at a gate.
#[derive(Drop)]
pub(crate) struct Signals {
    /// A call of node 0 has come to the gate.
    has_come: Flag,
    /// The gate holds calls no more.
    is_open: Flag,
    /// A call waited too long.
    is_late: Flag,
}

/// A gate that holds each call at node 0 back until it is opened, or until the call has waited too long.
#[derive(Drop)]
pub(crate) struct HoldingGate<R> {
    rt: Arc<R, Global>,
    signals: Signals,
}

impl<R> HoldingGate<R> {
    fn new(rt: Arc<R, Global>) -> HoldingGate<R> {
        HoldingGate {
            rt,
            signals: Signals {
                has_come: Flag::new(),
                is_open: Flag::new(),
                is_late: Flag::new(),
            },
        }
    }
}

impl<R: Threads + Wait + Clock> Gate for HoldingGate<R> {
    fn pass(&self, node: usize) {
        if node != 0 {
            return;
        }
        self.signals.has_come.raise(&*self.rt);
        if !self.signals.is_open.is_up_within(&*self.rt, TURNS) {
            self.signals.is_late.raise(&*self.rt);
        }
    }
}

/// Nodes with such a gate, which threads share.
pub(crate) trait Held: Works {
    /// What becomes of calls at their gate.
    fn signals(&self) -> &Signals;

    /// Holds the seat of node 0, and raises the flag then, until node 0 is asked and the node at the other end of the stream was: whether
    /// the first came to pass in time, and the other node answered.
    fn hold_beside<Q: Threads + Wait + Clock>(
        &self,
        rt: &Q,
        alloc: Global,
        held: &Flag,
        stream: &TcpStream,
    ) -> (bool, bool);
}

impl<R: Threads + Wait + Clock + Drop + Send + Sync, J: Beginning + Send + Sync> Held
    for Asked<Nodes<J, HoldingGate<R>>> {
    fn signals(&self) -> &Signals {
        &Running::gate(&self.nodes).signals
    }

    fn hold_beside<Q: Threads + Wait + Clock>(
        &self,
        rt: &Q,
        alloc: Global,
        held: &Flag,
        stream: &TcpStream,
    ) -> (bool, bool) {
        let Some(seat) = self.nodes.cluster().seat(0) else {
            return (false, false);
        };
        self.is_asked.lower(rt);
        let guard = seat.lock(rt);
        held.raise(rt);
        let is_asked = self.is_asked.is_up_within(rt, TURNS);
        let answered = answers(alloc, stream);
        drop(guard);
        (is_asked, answered)
    }
}

// A connection to the node at this port, which waits so many milliseconds for a byte.
fn connected<R: Net<Stream = TcpStream>>(rt: &R, port: u16, within: u32) -> Result<TcpStream, Why> {
    let stream = had(TcpStream::connect(rt, address_of(port)))?;
    had(stream.set_read_timeout(Some(Duration::from_millis(u64::from(within)))))?;
    Ok(stream)
}

// Whether the node at the other end says of a version that nobody has put that it is unavailable.
fn answers(alloc: Global, stream: &TcpStream) -> bool {
    let Ok(ticket) = ticket(alloc, 1) else {
        return false;
    };
    let (Ok(mut input), Ok(mut output)) = (
        BufReader::new(alloc, stream),
        BufWriter::new(alloc, stream),
    ) else {
        return false;
    };
    match call_get(alloc, &mut input, &mut output, &ticket) {
        Err(ClientFault::Status(code, text)) => code == 14 && text.as_str() == "Unavailable",
        _ => false,
    }
}

// Whether node 1 answers.
fn asks_beside<R: Net<Stream = TcpStream>>(rt: &R, alloc: Global, first_port: u16) -> bool {
    match connected(rt, first_port.saturating_add(1), TURNS) {
        Ok(stream) => answers(alloc, &stream),
        Err(_) => false,
    }
}

// A thread that asks node 0, and waits for its answer three times as long as the call may be held.
fn start_asking<R: Net<Stream = TcpStream> + Threads + Copy + Send + 'static>(
    rt: R,
    alloc: Global,
    first_port: u16,
) -> Result<JoinHandle<bool>, Why> {
    let stream = connected(&rt, first_port, 3 * TURNS)?;
    let job = move || answers(alloc, &stream);
    had(thread::spawn(&rt, job))
}

// A thread that asks node 0 once its seat is held.
fn start_waiting<R: Threads + Wait + Clock + Copy + Send + 'static>(
    rt: R,
    alloc: Global,
    held: Arc<Flag, Global>,
    stream: TcpStream,
) -> Result<JoinHandle<bool>, Why> {
    let job = move || held.is_up_within(&rt, TURNS) && answers(alloc, &stream);
    had(thread::spawn(&rt, job))
}

// A call waits for the seat of node 0 until node 1 has answered another.
fn answer_beside<
    R: Net<Stream = TcpStream> + Threads + Wait + Clock + Copy + Send + 'static,
    C: Held,
>(rt: R, alloc: Global, nodes: &C, first_port: u16) -> Result<(), Why> {
    let held = had(Arc::new(alloc, Flag::new()))?;
    let raised = had(Arc::try_clone(&held))?;
    let beside = connected(&rt, first_port.saturating_add(1), TURNS)?;
    let stream = connected(&rt, first_port, 3 * TURNS)?;
    let waiting = start_waiting(rt, alloc, raised, stream)?;
    let (is_asked, answered) = nodes.hold_beside(&rt, alloc, &*held, &beside);
    let waited = waiting.join(&rt);
    check(is_asked, "the end of a call is not read")?;
    check(answered, "node 1 waits for the seat of node 0")?;
    check(waited, "the call that waited has another answer")
}

// A call is held at the gate of node 0 until node 1 has answered another.
fn answer_meanwhile<
    R: Net<Stream = TcpStream> + Threads + Wait + Clock + Copy + Send + 'static,
    C: Held,
>(rt: R, alloc: Global, nodes: &C, first_port: u16) -> Result<(), Why> {
    let signals = nodes.signals();
    let held = start_asking(rt, alloc, first_port)?;
    let has_come = signals.has_come.is_up_within(&rt, TURNS);
    let answered = asks_beside(&rt, alloc, first_port);
    signals.is_open.raise(&rt);
    let waited = held.join(&rt);
    check(has_come, "no call comes to the gate")?;
    check(answered, "node 1 does not answer while a call is held")?;
    check(
        !signals.is_late.is_up(&rt),
        "the call was not held until then",
    )?;
    check(waited, "the call that was held has another answer")
}

// The nodes are served, and two calls are made at once, beside a connection to node 1 over which nothing comes.
fn call_at_once<
    R: Net<Listener = TcpListener, Stream = TcpStream>
        + Threads
        + Wait
        + Clock
        + Copy
        + Send
        + 'static,
    C: Held + Drop + 'static,
>(rt: R, alloc: Global, nodes: C) -> Result<(), Why> {
    let (first_port, listeners) = three_ports(&rt, alloc)?;
    let service = had(Service::new(alloc, nodes, NoReceipts, first_port, 3, None))?;
    let service = had(Arc::new(alloc, service))?;
    had(start_listening(rt, alloc, &service, listeners))?;
    let silent = TcpStream::connect(&rt, address_of(first_port.saturating_add(1)));
    check(silent.is_ok(), "no connection")?;
    answer_meanwhile(rt, alloc, service.nodes(), first_port)?;
    answer_beside(rt, alloc, service.nodes(), first_port)
}

fn plays<
    R: Net<Listener = TcpListener, Stream = TcpStream>
        + Threads
        + Wait
        + Clock
        + Copy
        + Drop
        + Send
        + Sync
        + 'static,
    J: Beginning + Send + Sync + 'static,
>(rt: R, alloc: Global, hashing: RandomState, log: Opened<OwnEntry>) -> Result<(), Why>
    requires named { log ≡ J.book }
    requires start { J.start ≡ [] }
{
    let gate = HoldingGate::new(had(Arc::new(alloc, rt))?);
    let (nodes, notes) = three::<R, J, HoldingGate<R>>(&rt, alloc, hashing, log, gate)?;
    drop(notes);
    let nodes = Asked {
        nodes,
        is_asked: Flag::new(),
    };
    call_at_once(rt, alloc, nodes)
}

#[test]
fn gate_holds_two_nodes(rt: HostRuntime) -> Result<(), Fail> {
    let hashing = RandomState::new(&rt)?;
    told(plays::<_, Brand>(rt, rt.alloc(), hashing, Opened::new()))
}
