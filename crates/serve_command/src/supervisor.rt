//! Nodes that went down, and are started again.

use crate::backoff::Backoff;
use crate::fault::ServeFault;
use crossbeam_channel::{Receiver, RecvTimeoutError, Sender, unbounded};
use flight_service::{Beginning, Gate, NoReceipts, Retention, Running, SeatFault, Service, Works};
use stable_records::Stable;
use std::alloc::Global;
use std::io::Eprint;
use std::sync::{Arc, Wait};
use std::thread::{self, JoinHandle, Threads};
use std::time::{Clock, Duration};

/// How often it is looked whether a node is down, in seconds.
const LOOK_SECONDS: u64 = 1;

/// Nodes with a worker each, of which one that went down can be started again.
pub(crate) trait Restarts: Works {
    /// Whether the node is down.
    fn is_down<R: Wait>(&self, rt: &R, node: usize) -> bool;

    /// Starts the node again with the records that its store gives back. The fault says why it is still down.
    fn start_again<R: Wait>(&self, rt: &R, node: usize) -> Result<(), SeatFault>;
}

impl<
    const N: usize,
    S: Stable + Drop + Send,
    J: Beginning + Send + Sync,
    G: Gate + Drop + Send + Sync,
    M: Retention + Send + Sync,
> Restarts for Running<N, S, J, G, M> {
    fn is_down<R: Wait>(&self, rt: &R, node: usize) -> bool {
        match self.cluster().seat(node) {
            Some(seat) => seat.lock(rt).node().is_err(),
            None => false,
        }
    }

    fn start_again<R: Wait>(&self, rt: &R, node: usize) -> Result<(), SeatFault> {
        match self.restart(rt, node) {
            Ok(_) => Ok(()),
            Err(fault) => Err(fault),
        }
    }
}

/// A service whose nodes are supervised.
type Shared<C> = Arc<Service<C, NoReceipts>, Global>;

/// The thread that supervises nodes, and what ends it once it is dropped.
#[derive(Drop)]
pub(crate) struct Supervisor {
    ending: Sender<()>,
    thread: JoinHandle<()>,
}

impl Supervisor {
    /// Starts a thread that supervises so many nodes of this service: each second it starts those again that are down, a second
    /// after they went down and then after twice as long each time, up to a minute, and says so on standard error.
    /// [`ServeFault::OutOfMemory`] says that memory or a thread was refused.
    pub(crate) fn start<
        R: Threads + Wait + Clock + Eprint + Copy + Send + 'static,
        C: Restarts + Drop + 'static,
    >(rt: R, alloc: Global, service: &Shared<C>, count: u8) -> Result<Supervisor, ServeFault> {
        let Ok((ending, ended)) = unbounded(alloc) else {
            return Err(ServeFault::OutOfMemory);
        };
        let Ok(shared) = Arc::try_clone(service) else {
            return Err(ServeFault::OutOfMemory);
        };
        let job = move || supervise(&rt, shared.nodes(), count, &ended);
        match thread::spawn(&rt, job) {
            Ok(thread) => Ok(Supervisor { ending, thread }),
            Err(refused) => {
                drop(refused);
                Err(ServeFault::OutOfMemory)
            }
        }
    }

    /// Ends the thread, and waits for its end.
    pub(crate) fn stop<R: Threads>(self, rt: &R) {
        let Supervisor { ending, thread } = self;
        drop(ending);
        let _ = thread.join(rt);
    }
}

// Supervises these nodes until it is to end.
fn supervise<R: Wait + Clock + Eprint, C: Restarts>(
    rt: &R,
    nodes: &C,
    count: u8,
    ended: &Receiver<()>,
) {
    let mut backoffs = [Backoff::new(); 5];
    for _ in rt.forever() {
        match ended.recv_timeout(rt, Duration::from_secs(LOOK_SECONDS)) {
            Err(RecvTimeoutError::Timeout) => look(rt, nodes, count, &mut backoffs),
            Ok(()) | Err(RecvTimeoutError::Disconnected) => return,
        }
    }
}

// Starts those nodes again for which it is time.
fn look<R: Wait + Eprint, C: Restarts>(rt: &R, nodes: &C, count: u8, backoffs: &mut [Backoff; 5]) {
    for node in 0..usize::from(count).min(backoffs.len()) {
        if backoffs[node].is_due(nodes.is_down(rt, node)) {
            report(rt, node, nodes.start_again(rt, node));
        }
    }
}

// Says what became of a node that was down. Where this can't be written, nothing is lost.
fn report<R: Eprint>(rt: &R, node: usize, restarted: Result<(), SeatFault>) {
    let _ = match restarted {
        Ok(()) => eprintln!(rt; "node {node} was down, and has started again"),
        Err(fault) => eprintln!(rt; "node {node} is down, and can't be started again yet: {fault}"),
    };
}
