//! Puts that nothing decides, over the threads of a service whose nodes have no workers.

ghost use Rattle.std.specs.Prelude.{◌≡◌, []};

use crate::ports::{address_of, three_ports};
use crate::support::{Why, check, had, three, told, upload};
use crate::tested::Tested;
use client_calls::{ClientFault, call_put};
use flight_service::{Beginning, NoReceipts, OpenGate, OwnEntry, Service, start_listening};
use ghost_log::Opened;
use std::alloc::Global;
use std::hash::RandomState;
use std::io::{BufReader, BufWriter};
use std::marker::Brand;
use std::net::{Net, TcpListener, TcpStream};
use std::sync::{Arc, Wait};
use std::test::Fail;
use std::thread;
use std::thread::Threads;
use std::time::{Clock, Duration};

/// How long is looked for what is due, in turns of 1 ms.
const TURNS: u32 = 10_000;

/// In how many turns of 1 ms it is seen that a caller has left.
const SEEN_TURNS: u32 = 1_000;

/// For how many turns of 1 ms a caller stays that has to be waited for.
const STAYS_TURNS: u32 = 600;

/// How long a put is waited for where it ends by itself, in milliseconds.
const WAIT_MILLISECONDS: u64 = 600;

/// What threads share here.
type Shared<C> = Arc<Service<C, NoReceipts>, Global>;

// Serves the nodes, whose puts are waited for so long, and gives the first port.
fn served<
    R: Net<Listener = TcpListener, Stream = TcpStream>
        + Threads
        + Wait
        + Clock
        + Copy
        + Send
        + 'static,
    C: Tested + Drop + 'static,
>(rt: R, alloc: Global, nodes: C, longest_wait: Option<Duration>) -> Result<(u16, Shared<C>), Why> {
    let (first_port, listeners) = three_ports(&rt, alloc)?;
    let service = had(Service::new(alloc, nodes, NoReceipts, first_port, 3, longest_wait))?;
    let service = had(Arc::new(alloc, service))?;
    had(start_listening(rt, alloc, &service, listeners))?;
    Ok((first_port, service))
}

// Whether an upload waits at node 0, or none does, at one of so many looks, 1 ms apart.
fn comes_to<R: Threads + Wait + Clock, C: Tested>(
    rt: &R,
    nodes: &C,
    is_waiting: bool,
    turns: u32,
) -> bool {
    for _ in 0..turns {
        if nodes.has_waiting(rt, 0) == is_waiting {
            return true;
        }
        let _ = thread::sleep(rt, Duration::from_millis(1));
    }
    false
}

// What becomes of an upload whose caller waits for the answer over this stream.
fn put_over(alloc: Global, stream: &TcpStream) -> Result<(), Why> {
    let upload = had(Box::new(alloc, upload(alloc, 1)?))?;
    let mut input = had(BufReader::new(alloc, stream))?;
    let mut output = had(BufWriter::new(alloc, stream))?;
    match call_put(alloc, &mut input, &mut output, &upload) {
        Err(ClientFault::Status(14, text)) => check(text.as_str() == "Unavailable", "another text"),
        Err(_) => Err("another fault"),
        Ok(_) => Err("a put is decided"),
    }
}

// Sends an upload over this stream, and reads no answer.
fn send_over(alloc: Global, stream: &TcpStream) -> Result<(), Why> {
    let upload = had(Box::new(alloc, upload(alloc, 1)?))?;
    let mut nothing: &[u8] = &[];
    let mut output = had(BufWriter::new(alloc, stream))?;
    drop(call_put(alloc, &mut nothing, &mut output, &upload));
    Ok(())
}

// A caller that waits is answered once the time is over, and not before, and its upload waits no more.
fn end_in_time<
    R: Net<Listener = TcpListener, Stream = TcpStream>
        + Threads
        + Wait
        + Clock
        + Copy
        + Send
        + 'static,
    C: Tested + Drop + 'static,
>(rt: R, alloc: Global, nodes: C) -> Result<(), Why> {
    let wait = Duration::from_millis(WAIT_MILLISECONDS);
    let (first_port, service) = served(rt, alloc, nodes, Some(wait))?;
    let stream = had(TcpStream::connect(&rt, address_of(first_port)))?;
    let began = had(rt.monotonic())?;
    put_over(alloc, &stream)?;
    let ended = had(rt.monotonic())?;
    check(ended.saturating_sub(began) >= wait, "a put ends too early")?;
    check(
        !service.nodes().has_waiting(&rt, 0),
        "an upload waits that was given up",
    )
}

// A caller that stays is waited for; that it has left is seen, and its upload waits no more.
fn end_with_the_caller<
    R: Net<Listener = TcpListener, Stream = TcpStream>
        + Threads
        + Wait
        + Clock
        + Copy
        + Send
        + 'static,
    C: Tested + Drop + 'static,
>(rt: R, alloc: Global, nodes: C) -> Result<(), Why> {
    let (first_port, service) = served(rt, alloc, nodes, None)?;
    let nodes = service.nodes();
    let stream = had(TcpStream::connect(&rt, address_of(first_port)))?;
    send_over(alloc, &stream)?;
    check(comes_to(&rt, nodes, true, TURNS), "no upload waits")?;
    check(
        !comes_to(&rt, nodes, false, STAYS_TURNS),
        "a caller that stays is not waited for",
    )?;
    drop(stream);
    check(
        comes_to(&rt, nodes, false, SEEN_TURNS),
        "a caller that has left is waited for",
    )
}

fn ends_in_time<
    R: Net<Listener = TcpListener, Stream = TcpStream>
        + Threads
        + Wait
        + Clock
        + Copy
        + Send
        + 'static,
    J: Beginning + Send + Sync + 'static,
>(rt: R, alloc: Global, hashing: RandomState, log: Opened<OwnEntry>) -> Result<(), Why>
    requires named { log ≡ J.book }
    requires start { J.start ≡ [] }
{
    let (nodes, notes) = three::<R, J, OpenGate>(&rt, alloc, hashing, log, OpenGate)?;
    drop(notes);
    end_in_time(rt, alloc, nodes)
}

fn ends_with_the_caller<
    R: Net<Listener = TcpListener, Stream = TcpStream>
        + Threads
        + Wait
        + Clock
        + Copy
        + Send
        + 'static,
    J: Beginning + Send + Sync + 'static,
>(rt: R, alloc: Global, hashing: RandomState, log: Opened<OwnEntry>) -> Result<(), Why>
    requires named { log ≡ J.book }
    requires start { J.start ≡ [] }
{
    let (nodes, notes) = three::<R, J, OpenGate>(&rt, alloc, hashing, log, OpenGate)?;
    drop(notes);
    end_with_the_caller(rt, alloc, nodes)
}

#[test]
fn a_put_ends_that_is_not_decided_in_time(rt: HostRuntime) -> Result<(), Fail> {
    let hashing = RandomState::new(&rt)?;
    told(ends_in_time::<_, Brand>(rt, rt.alloc(), hashing, Opened::new()))
}

#[test]
fn a_put_is_waited_for_until_its_caller_leaves(rt: HostRuntime) -> Result<(), Fail> {
    let hashing = RandomState::new(&rt)?;
    told(ends_with_the_caller::<_, Brand>(rt, rt.alloc(), hashing, Opened::new()))
}
