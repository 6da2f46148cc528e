//! The workers of nodes, in threads.

use crate::fault::ServiceFault;
use crate::service::Service;
use ballots::NodeId;
use cluster_backend::{
    AllReceipts, Beginning, Gate, Nodes, Note, Pace, Receipts, Retention, Running,
};
use crossbeam_channel::Receiver;
use stable_records::Stable;
use std::alloc::{AllocError, Global};
use std::sync::{Arc, Wait};
use std::thread;
use std::thread::{JoinHandle, Threads};
use std::time::Clock;

/// Nodes with a worker each, which threads share.
pub trait Works: Nodes + Send + Sync {
    /// Does the work of a node, until it is told to stop.
    fn work<R: Wait + Clock>(&self, rt: &R, node: usize, notes: &Receiver<Note>);

    /// Tells all workers to stop.
    fn stop<R: Wait>(&self, rt: &R);

    /// Whether the nodes' journal holds the entry of each receipt that was kept, and none was lost for want of memory. A journal
    /// that forgets holds none.
    fn confirm_all<R: Wait>(&self, rt: &R, receipts: &AllReceipts) -> bool;
}

impl<
    const N: usize,
    S: Stable + Drop + Send,
    J: Beginning + Send + Sync,
    G: Gate + Drop + Send + Sync,
    M: Retention + Send + Sync,
> Works for Running<N, S, J, G, M> {
    fn work<R: Wait + Clock>(&self, rt: &R, node: usize, notes: &Receiver<Note>) {
        let members = self.cluster().journal().lock(rt).config().members;
        let Ok(number) = u8::try_from(node) else {
            return;
        };
        let Some(me) = NodeId::new(number) else {
            return;
        };
        Running::work(self, rt, node, Pace::new(me, members), notes);
    }

    fn stop<R: Wait>(&self, rt: &R) {
        Running::stop(self, rt);
    }

    fn confirm_all<R: Wait>(&self, rt: &R, receipts: &AllReceipts) -> bool {
        let journal = self.cluster().journal().lock(rt);
        receipts.are_confirmed(rt, &journal)
    }
}

// A thread for the worker of a node.
fn start_worker<
    R: Threads + Wait + Clock + Copy + Send + 'static,
    C: Works + Drop + 'static,
    K: Receipts + Drop + Send + Sync + 'static,
>(
    rt: R,
    service: Arc<Service<C, K>, Global>,
    node: usize,
    notes: Receiver<Note>,
) -> Result<JoinHandle<()>, ServiceFault> {
    let job = move || service.nodes().work(&rt, node, &notes);
    match thread::spawn(&rt, job) {
        Ok(worker) => Ok(worker),
        Err(refused) => {
            drop(refused);
            Err(ServiceFault::OutOfMemory)
        }
    }
}

/// A thread for the worker of each node, which reads these notes. [`ServiceFault::OutOfMemory`] says that memory or a thread
/// was refused; then some work.
pub fn start_workers<
    R: Threads + Wait + Clock + Copy + Send + 'static,
    C: Works + Drop + 'static,
    K: Receipts + Drop + Send + Sync + 'static,
>(
    rt: R,
    alloc: Global,
    service: &Arc<Service<C, K>, Global>,
    notes: Vec<Receiver<Note>>,
) -> Result<Vec<JoinHandle<()>>, ServiceFault> {
    let mut workers = Vec::new(alloc);
    for (node, notes) in notes.into_iter().enumerate() {
        let shared = Arc::try_clone(service)?;
        let worker = start_worker(rt, shared, node, notes)?;
        kept(&mut workers, worker)?;
    }
    Ok(workers)
}

// Keeps what was started.
fn kept(workers: &mut Vec<JoinHandle<()>>, worker: JoinHandle<()>) -> Result<(), AllocError> {
    Ok(workers.push(worker)?)
}
