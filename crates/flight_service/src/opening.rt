//! A service, from its ports to the end of its workers.

use crate::fault::ServiceFault;
use crate::listening::{bind_all, start_listening};
use crate::service::Service;
use crate::works::{Works, start_workers};
use cluster_backend::{Note, Receipts};
use crossbeam_channel::Receiver;
use std::alloc::Global;
use std::net::{Net, TcpListener, TcpStream};
use std::sync::{Arc, Wait};
use std::thread::{JoinHandle, Threads};
use std::time::{Clock, Duration};

/// A service whose ports are open, and the threads of its workers.
pub type OpenService<C, K> = (Arc<Service<C, K>, Global>, Vec<JoinHandle<()>>);

/// Opens so many ports for these nodes, one behind the other from the first on, and starts all threads of theirs. Whoever ends
/// the service tells the workers to stop ([`Works::stop`]) and waits for them ([`join_all`]). A put ends as `Unavailable` if it is
/// not decided within the longest wait, if there is one.
///
/// [`ServiceFault::Bind`] says that a port can't be had; then none is open. [`ServiceFault::OutOfMemory`] says that memory or a
/// thread was refused; then some threads run.
pub fn open_service<
    R: Net<Listener = TcpListener, Stream = TcpStream>
        + Threads
        + Wait
        + Clock
        + Copy
        + Send
        + 'static,
    C: Works + Drop + 'static,
    K: Receipts + Drop + Send + Sync + 'static,
>(
    rt: R,
    alloc: Global,
    nodes: C,
    receipts: K,
    notes: Vec<Receiver<Note>>,
    first_port: u16,
    count: u8,
    longest_wait: Option<Duration>,
) -> Result<OpenService<C, K>, ServiceFault> {
    let listeners = bind_all(&rt, alloc, first_port, count)?;
    let service = Service::new(alloc, nodes, receipts, first_port, count, longest_wait)?;
    let service = shared(alloc, service)?;
    let workers = start_workers(rt, alloc, &service, notes)?;
    start_listening(rt, alloc, &service, listeners)?;
    Ok((service, workers))
}

// The service, so that threads can share it.
fn shared<C: Works + Drop, K: Receipts + Drop>(
    alloc: Global,
    service: Service<C, K>,
) -> Result<Arc<Service<C, K>, Global>, ServiceFault> {
    match Arc::new(alloc, service) {
        Ok(shared) => Ok(shared),
        Err(refused) => {
            drop(refused);
            Err(ServiceFault::OutOfMemory)
        }
    }
}

/// Waits until all workers have ended.
pub fn join_all<R: Threads + Wait>(rt: &R, workers: Vec<JoinHandle<()>>) {
    for worker in workers {
        worker.join(rt);
    }
}
