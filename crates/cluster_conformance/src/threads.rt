//! Workers in threads: two callers put uploads at two nodes, while a third is started again and again. Another thread sees to it that
//! this ends.

ghost use Rattle.std.specs.Prelude.{◌≡◌, []};

use crate::flag::Flag;
use crate::support::{Why, check, had, owned, three, three_on_disks, ticket, upload};
use crate::tested::Tested;
use crate::watched::outcome_of;
use call_protocol::BackFault;
use client_calls::{Download, call_get};
use crossbeam_channel::Receiver;
use flight_calls::Backend;
use flight_service::{
    AllReceipts, Beginning, ClusterBackend, Nodes, Note, OpenGate, OwnEntry, Patient, Service,
    join_all, serve_connection, start_workers,
};
use ghost_log::Opened;
use std::alloc::Global;
use std::hash::RandomState;
use std::marker::Brand;
use std::sync::{Arc, Wait};
use std::test::Fail;
use std::thread;
use std::thread::{JoinHandle, Threads};
use std::time::{Clock, Duration};
use table_versions::Outcome;

/// How many uploads each caller puts.
const PUTS: u64 = 10;

/// How often the third node is started again.
const RESTARTS: u32 = 5;

/// How often a version is asked for that a node has not learned, 1 ms apart.
const TRIES: u32 = 10_000;

/// The numbers of uploads, with the versions that they made.
type Versions = Vec<(u64, u64)>;

/// What threads share here.
type Shared<C> = Arc<Service<C, AllReceipts>, Global>;

// Puts an upload at a node, and gives the version that it made.
fn put_one<R: Wait + Clock, C: Nodes + Drop>(
    rt: &R,
    alloc: Global,
    service: &Service<C, AllReceipts>,
    node: usize,
    number: u64,
) -> Result<u64, Why> {
    let upload = had(Box::new(alloc, upload(alloc, number)?))?;
    let mut backend = ClusterBackend::new(
        alloc,
        rt,
        service.nodes(),
        service.receipts(),
        &Patient,
        node,
        &[],
    );
    check(backend.put(&upload).is_ok(), "a put fails")?;
    match backend.outcome(&upload) {
        Ok(Outcome::Applied(version)) => Ok(version),
        _ => Err("a put has no version"),
    }
}

// Puts the uploads of a caller from this number on, one after the other.
fn put_all<R: Wait + Clock, C: Nodes + Drop>(
    rt: &R,
    alloc: Global,
    service: &Service<C, AllReceipts>,
    node: usize,
    first: u64,
) -> Result<Versions, Why> {
    let mut versions = Vec::new(alloc);
    for number in first..first.saturating_add(PUTS) {
        let version = put_one(rt, alloc, service, node, number)?;
        had(versions.push((number, version)))?;
    }
    Ok(versions)
}

// The same, and nothing where a put fails.
fn all_put<R: Wait + Clock, C: Nodes + Drop>(
    rt: &R,
    alloc: Global,
    service: &Service<C, AllReceipts>,
    node: usize,
    first: u64,
) -> Option<Versions> {
    match put_all(rt, alloc, service, node, first) {
        Ok(versions) => Some(versions),
        Err(_) => None,
    }
}

// A thread for a caller.
fn start_caller<R: Threads + Wait + Clock + Copy + Send + 'static, C: Tested + Drop + 'static>(
    rt: R,
    alloc: Global,
    service: Shared<C>,
    node: usize,
    first: u64,
) -> Result<JoinHandle<Option<Versions>>, Why> {
    let job = move || all_put(&rt, alloc, &*service, node, first);
    had(thread::spawn(&rt, job))
}

// What a connection to a node is answered to the ticket for this version, once the node has learned it.
fn got<R: Threads + Wait + Clock, C: Nodes + Drop>(
    rt: &R,
    alloc: Global,
    service: &Service<C, AllReceipts>,
    node: usize,
    version: u64,
) -> Result<Vec<u8>, Why> {
    let ticket = ticket(alloc, version)?;
    let mut backend = ClusterBackend::new(
        alloc,
        rt,
        service.nodes(),
        service.receipts(),
        &Patient,
        node,
        &[],
    );
    for _ in 0..TRIES {
        if let Ok(answer) = backend.get(alloc, &ticket) {
            return had(answer.to_vec(alloc));
        }
        let _ = thread::sleep(rt, Duration::from_millis(1));
    }
    Err("a version is not served")
}

// A version, as a client reads it of a node.
fn downloaded<R: Wait + Clock, C: Nodes + Drop>(
    rt: &R,
    alloc: Global,
    service: &Service<C, AllReceipts>,
    node: usize,
    version: u64,
) -> Result<Download, Why> {
    let ticket = ticket(alloc, version)?;
    let (mut request, mut answer, mut unread) = (Vec::new(alloc), Vec::new(alloc), Vec::new(alloc));
    let mut nothing: &[u8] = &[];
    drop(call_get(alloc, &mut nothing, &mut request, &ticket));
    let mut input = request.as_slice();
    let (nodes, receipts) = (service.nodes(), service.receipts());
    let served = serve_connection(
        alloc,
        rt,
        nodes,
        receipts,
        &Patient,
        node,
        &[],
        &mut input,
        &mut answer,
    );
    check(served.is_ok(), "a call is not served")?;
    let mut output = answer.as_slice();
    match call_get(alloc, &mut output, &mut unread, &ticket) {
        Ok(download) => Ok(download),
        Err(_) => Err("no download"),
    }
}

// The id of the upload at this version.
fn id_at(download: &Download, version: u64) -> Option<[u8; 16]> {
    let place = usize::try_from(version.checked_sub(1)?).ok()?;
    Some(download.uploads.get(place)?.id)
}

// Whether each of these uploads stands at its version.
fn stand_there(download: &Download, versions: &[(u64, u64)]) -> Result<(), Why> {
    for (number, version) in versions {
        let id = u128::from(*number).to_be_bytes();
        check(
            id_at(download, *version) == Some(id),
            "another upload stands there",
        )?;
    }
    Ok(())
}

// All nodes serve all uploads, each once and where its caller was told.
fn serve_all<R: Threads + Wait + Clock, C: Nodes + Drop>(
    rt: &R,
    alloc: Global,
    service: &Service<C, AllReceipts>,
    first: &[(u64, u64)],
    second: &[(u64, u64)],
) -> Result<(), Why> {
    let answer = got(rt, alloc, service, 0, 2 * PUTS)?;
    check(
        got(rt, alloc, service, 1, 2 * PUTS)? == answer,
        "answers differ",
    )?;
    check(
        got(rt, alloc, service, 2, 2 * PUTS)? == answer,
        "one that was started again differs",
    )?;
    drop(answer);
    let download = had(Box::new(alloc, downloaded(rt, alloc, service, 2, 2 * PUTS)?))?;
    check(
        download.uploads.len() as u64 == 2 * PUTS,
        "another number of uploads",
    )?;
    stand_there(&download, first)?;
    stand_there(&download, second)
}

// Starts the third node again, a few times. Where a call of its disk may fail, which it does once, a start may be tried again.
fn start_again<R: Threads + Wait + Clock, C: Tested + Drop>(
    rt: &R,
    nodes: &C,
    may_fail: bool,
) -> Result<(), Why> {
    for _ in 0..RESTARTS {
        let _ = thread::sleep(rt, Duration::from_millis(20));
        let starts = nodes.start_again(rt, 2) || (may_fail && nodes.start_again(rt, 2));
        check(starts, "a node does not start again")?;
    }
    Ok(())
}

// Waits for the third node to serve a version, and starts it again where it is down.
fn revive<R: Threads + Wait + Clock, C: Tested + Drop>(
    rt: &R,
    alloc: Global,
    service: &Service<C, AllReceipts>,
    version: u64,
) -> Result<(), Why> {
    let (nodes, receipts) = (service.nodes(), service.receipts());
    let ticket = ticket(alloc, version)?;
    let mut backend = ClusterBackend::new(alloc, rt, nodes, receipts, &Patient, 2, &[]);
    for _ in 0..TRIES {
        match backend.get(alloc, &ticket) {
            Ok(_) => return Ok(()),
            Err(BackFault::Down) => drop(nodes.start_again(rt, 2)),
            Err(_) => drop(thread::sleep(rt, Duration::from_millis(1))),
        }
    }
    Err("a node does not come back")
}

// Two callers put their uploads beside the restarts, and beside a call of the third node's disk that may fail.
fn call_twice<R: Threads + Wait + Clock + Copy + Send + 'static, C: Tested + Drop + 'static>(
    rt: R,
    alloc: Global,
    service: &Shared<C>,
    may_fail: bool,
) -> Result<(), Why> {
    let first = start_caller(rt, alloc, had(Arc::try_clone(service))?, 0, 0)?;
    let second = start_caller(rt, alloc, had(Arc::try_clone(service))?, 1, PUTS)?;
    let started = start_again(&rt, service.nodes(), may_fail);
    let first = first.join(&rt);
    let second = second.join(&rt);
    started?;
    let (Some(first), Some(second)) = (first, second) else {
        return Err("a put fails");
    };
    if may_fail {
        revive(&rt, alloc, &**service, 2 * PUTS)?;
    }
    serve_all(&rt, alloc, &**service, &first, &second)
}

// The nodes work, and two callers call.
fn work<R: Threads + Wait + Clock + Copy + Send + 'static, C: Tested + Drop + 'static>(
    rt: R,
    alloc: Global,
    nodes: C,
    notes: Vec<Receiver<Note>>,
    may_fail: bool,
) -> Result<(), Why> {
    let receipts = AllReceipts::new(alloc);
    let service = had(Service::new(alloc, nodes, receipts, 42_000, 3, None))?;
    let service = had(Arc::new(alloc, service))?;
    let Ok(workers) = start_workers(rt, alloc, &service, notes) else {
        return Err("no workers");
    };
    let called = call_twice(rt, alloc, &service, may_fail);
    service.nodes().stop(&rt);
    join_all(&rt, workers);
    called?;
    check(
        service.nodes().confirm_all(&rt, service.receipts()),
        "a receipt is not confirmed",
    )?;
    check(
        service.nodes().is_lawful(&rt),
        "what was sent is not lawful",
    )
}

// The same in a thread, which raises the flag behind it.
fn start_working<R: Threads + Wait + Clock + Copy + Send + 'static, C: Tested + Drop + 'static>(
    rt: R,
    alloc: Global,
    nodes: C,
    notes: Vec<Receiver<Note>>,
    may_fail: bool,
    ended: Arc<Flag, Global>,
) -> Result<JoinHandle<Result<(), String>>, Why> {
    let job = move || {
        let worked = owned(alloc, work(rt, alloc, nodes, notes, may_fail));
        ended.raise(&rt);
        worked
    };
    had(thread::spawn(&rt, job))
}

// The nodes work, and two callers call, as long as a story may take.
fn work_in_time<R: Threads + Wait + Clock + Copy + Send + 'static, C: Tested + Drop + 'static>(
    rt: R,
    alloc: Global,
    nodes: C,
    notes: Vec<Receiver<Note>>,
    may_fail: bool,
) -> Result<(), String> {
    let ended = owned(alloc, had(Arc::new(alloc, Flag::new())))?;
    let raised = owned(alloc, had(Arc::try_clone(&ended)))?;
    let started = start_working(rt, alloc, nodes, notes, may_fail, raised);
    outcome_of(&rt, alloc, owned(alloc, started)?, &ended)
}

fn plays<R: Threads + Wait + Clock + Copy + Send + 'static, J: Beginning + Send + Sync + 'static>(
    rt: R,
    alloc: Global,
    hashing: RandomState,
    log: Opened<OwnEntry>,
) -> Result<(), String>
    requires named { log ≡ J.book }
    requires start { J.start ≡ [] }
{
    let (nodes, notes) = owned(
        alloc,
        three::<R, J, OpenGate>(&rt, alloc, hashing, log, OpenGate),
    )?;
    work_in_time(rt, alloc, nodes, notes, false)
}

fn plays_on_disks<
    R: Threads + Wait + Clock + Copy + Send + 'static,
    J: Beginning + Send + Sync + 'static,
>(
    rt: R,
    alloc: Global,
    hashing: RandomState,
    log: Opened<OwnEntry>,
    calls_left: u64,
) -> Result<(), String>
    requires named { log ≡ J.book }
    requires start { J.start ≡ [] }
{
    let (nodes, notes) = owned(
        alloc,
        three_on_disks::<R, J>(&rt, alloc, hashing, log, calls_left),
    )?;
    work_in_time(rt, alloc, nodes, notes, true)
}

#[test]
fn callers_put_beside_restarts(rt: HostRuntime) -> Result<(), Fail> {
    let hashing = RandomState::new(&rt)?;
    Ok(plays::<_, Brand>(rt, rt.alloc(), hashing, Opened::new())?)
}

// A disk's sixth call is of its node's first keep, and its sixtieth of a later one.
#[test]
fn callers_put_beside_a_disk_that_fails_at_first(rt: HostRuntime) -> Result<(), Fail> {
    let hashing = RandomState::new(&rt)?;
    Ok(plays_on_disks::<_, Brand>(rt, rt.alloc(), hashing, Opened::new(), 5)?)
}

#[test]
fn callers_put_beside_a_disk_that_fails_later(rt: HostRuntime) -> Result<(), Fail> {
    let hashing = RandomState::new(&rt)?;
    Ok(plays_on_disks::<_, Brand>(rt, rt.alloc(), hashing, Opened::new(), 59)?)
}
