//! The ports of nodes.

use crate::connection::answer_peer;
use crate::fault::ServiceFault;
use crate::service::Service;
use crate::works::Works;
use cluster_backend::Receipts;
use std::alloc::{AllocError, Global};
use std::net::{Ipv4Addr, Net, SocketAddr, TcpListener, TcpStream};
use std::sync::{Arc, Wait};
use std::thread;
use std::thread::Threads;
use std::time::{Clock, Duration};

/// How long is waited behind a connection that could not be accepted, in milliseconds.
const AGAIN_MILLISECONDS: u64 = 10;

/// Opens so many ports at 127.0.0.1, one behind the other from the first on. [`ServiceFault::Bind`] says that one of them
/// can't be had, and [`ServiceFault::OutOfMemory`] that memory was refused; then none is open.
pub fn bind_all<R: Net<Listener = TcpListener, Stream = TcpStream>>(
    rt: &R,
    alloc: Global,
    first_port: u16,
    count: u8,
) -> Result<Vec<TcpListener>, ServiceFault> {
    let mut listeners = Vec::new(alloc);
    for node in 0..count {
        let Some(port) = first_port.checked_add(u16::from(node)) else {
            return Err(ServiceFault::Bind);
        };
        let address = SocketAddr::from((Ipv4Addr::LOCALHOST, port));
        let Ok(listener) = TcpListener::bind(rt, address) else {
            return Err(ServiceFault::Bind);
        };
        kept(&mut listeners, listener)?;
    }
    Ok(listeners)
}

// Keeps what was opened.
fn kept(listeners: &mut Vec<TcpListener>, listener: TcpListener) -> Result<(), AllocError> {
    Ok(listeners.push(listener)?)
}

// A thread for a connection; where there is none, the connection ends.
fn start_connection<
    R: Threads + Wait + Clock + Copy + Send + 'static,
    C: Works + Drop + 'static,
    K: Receipts + Drop + Send + Sync + 'static,
>(
    rt: R,
    alloc: Global,
    service: Arc<Service<C, K>, Global>,
    node: usize,
    stream: TcpStream,
) -> Result<(), ServiceFault> {
    let job = move || {
        answer_peer(&rt, alloc, &*service, node, &stream);
        if let Some(places) = service.places(node) {
            places.free(&rt);
        }
    };
    match thread::spawn(&rt, job) {
        Ok(serving) => {
            drop(serving);
            Ok(())
        }
        Err(refused) => {
            drop(refused);
            Err(ServiceFault::OutOfMemory)
        }
    }
}

// Accepts the connections of a node, as long as there are places for them.
fn accept_all<
    R: Threads + Wait + Clock + Copy + Send + 'static,
    C: Works + Drop + 'static,
    K: Receipts + Drop + Send + Sync + 'static,
>(
    rt: &R,
    alloc: Global,
    service: &Arc<Service<C, K>, Global>,
    node: usize,
    listener: &TcpListener,
) {
    let Some(places) = service.places(node) else {
        return;
    };
    for _ in rt.forever() {
        places.take(rt);
        if accept_one(rt, alloc, service, node, listener).is_err() {
            places.free(rt);
            let _ = thread::sleep(rt, Duration::from_millis(AGAIN_MILLISECONDS));
        }
    }
}

// Accepts a connection, and starts to serve it.
fn accept_one<
    R: Threads + Wait + Clock + Copy + Send + 'static,
    C: Works + Drop + 'static,
    K: Receipts + Drop + Send + Sync + 'static,
>(
    rt: &R,
    alloc: Global,
    service: &Arc<Service<C, K>, Global>,
    node: usize,
    listener: &TcpListener,
) -> Result<(), ServiceFault> {
    let Ok((stream, _)) = listener.accept() else {
        return Err(ServiceFault::Bind);
    };
    let shared = Arc::try_clone(service)?;
    start_connection(*rt, alloc, shared, node, stream)
}

// A thread for the port of a node.
fn start_one<
    R: Threads + Wait + Clock + Copy + Send + 'static,
    C: Works + Drop + 'static,
    K: Receipts + Drop + Send + Sync + 'static,
>(
    rt: R,
    alloc: Global,
    service: Arc<Service<C, K>, Global>,
    node: usize,
    listener: TcpListener,
) -> Result<(), ServiceFault> {
    let job = move || accept_all(&rt, alloc, &service, node, &listener);
    match thread::spawn(&rt, job) {
        Ok(accepting) => {
            drop(accepting);
            Ok(())
        }
        Err(refused) => {
            drop(refused);
            Err(ServiceFault::OutOfMemory)
        }
    }
}

/// A thread for the port of each node, which accepts connections and starts a thread for each. [`ServiceFault::OutOfMemory`]
/// says that memory or a thread was refused; then some accept.
pub fn start_listening<
    R: Threads + Wait + Clock + Copy + Send + 'static,
    C: Works + Drop + 'static,
    K: Receipts + Drop + Send + Sync + 'static,
>(
    rt: R,
    alloc: Global,
    service: &Arc<Service<C, K>, Global>,
    listeners: Vec<TcpListener>,
) -> Result<(), ServiceFault> {
    for (node, listener) in listeners.into_iter().enumerate() {
        let shared = Arc::try_clone(service)?;
        start_one(rt, alloc, shared, node, listener)?;
    }
    Ok(())
}
