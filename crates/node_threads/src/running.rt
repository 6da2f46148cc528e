//! Nodes that run.

ghost use Rattle.std.specs.Prelude.{IfOk};
ghost use Rattle.std.specs.Option.{IfSome};
ghost use Rattle.node_threads.specs.Told.{IsTold, IsGotAt};

use crate::cluster::Cluster;
use crate::desk::{Desk, Ending};
use crate::faults::fault_of;
use crate::gate::Gate;
use crate::steps::Taken;
use crate::workplace::NodeWorkplace;
use agreement::Refusal;
use crossbeam_channel::{Receiver, RecvTimeoutError, bounded, unbounded};
use node_worker::{Note, PutId, end_each, end_of, look_at_each};
use seats::{Beginning, Receipt, Retention, SeatFault, SeatInput, Whole};
use stable_records::Stable;
use std::alloc::{AllocError, Global};
use std::ops::Range;
use std::sync::{Mutex, Wait};
use std::time::{Clock, Duration};
use table_types::Ticket;
use table_versions::Answer;
use uploads::Upload;

/// A put that a node took. What becomes of the upload is told once it is known there.
#[derive(Drop)]
pub struct Pending {
    put: PutId,
    ending: Receiver<Ending>,
}

impl Pending {
    /// Waits until it is known what has become of the upload, and entered: or why nothing is known of it. It may be decided even
    /// so, and whoever puts the same upload again is told then. [`SeatFault::Down`] also where the node's work is over.
    pub fn wait<R: Wait>(&self, rt: &R) -> Ending {
        match self.ending.recv(rt) {
            Ok(ending) => ending,
            Err(_) => Err(SeatFault::Down),
        }
    }

    /// As [`Pending::wait`], for so long at most: `None` where nothing is known by then.
    pub fn wait_for<R: Wait + Clock>(&self, rt: &R, time: Duration) -> Option<Ending> {
        match self.ending.recv_timeout(rt, time) {
            Ok(ending) => Some(ending),
            Err(RecvTimeoutError::Timeout) => None,
            Err(RecvTimeoutError::Disconnected) => Some(Err(SeatFault::Down)),
        }
    }
}

/// A cluster whose nodes have a worker each.
pub struct Running<
    const N: usize,
    S: Stable + Drop,
    J: Beginning,
    G: Gate + Drop,
    M: Retention = Whole,
> {
    alloc: Global,
    cluster: Cluster<N, S, J, M>,
    gate: G,
    desks: Vec<Desk>,
    is_stopping: Mutex<bool>,
}

// Written out, so that whoever drops nodes does so by one call, and does not prove again what is inside them.
impl<const N: usize, S: Stable + Drop, J: Beginning, G: Gate + Drop, M: Retention> Drop
    for Running<N, S, J, G, M> {
    fn drop(self) {
        let Running {
            alloc: _,
            cluster,
            gate,
            desks,
            is_stopping,
        } = self;
        drop(cluster);
        drop(gate);
        drop(desks);
        drop(is_stopping);
    }
}

impl<const N: usize, S: Stable + Drop, J: Beginning, G: Gate + Drop, M: Retention> Running<
    N,
    S,
    J,
    G,
    M,
> {
    /// The cluster with nothing waiting, and what the worker of each node reads. [`AllocError`] says that memory was refused.
    pub fn new(
        alloc: Global,
        cluster: Cluster<N, S, J, M>,
        gate: G,
    ) -> Result<(Running<N, S, J, G, M>, Vec<Receiver<Note>>), AllocError> {
        let mut desks = Vec::new(alloc);
        let mut receivers = Vec::new(alloc);
        for _ in 0..N {
            let (notes, receiver) = unbounded(alloc)?;
            desks.push(Desk::new(alloc, notes))?;
            receivers.push(receiver)?;
        }
        let running = Running {
            alloc,
            cluster,
            gate,
            desks,
            is_stopping: Mutex::new(false),
        };
        Ok((running, receivers))
    }

    /// The cluster.
    pub fn cluster(&self) -> &Cluster<N, S, J, M> {
        &self.cluster
    }

    /// What each call passes.
    pub fn gate(&self) -> &G {
        &self.gate
    }

    /// Where the worker of this node works, `None` where there is no such node.
    pub(crate) fn workplace<'a, R: Wait>(
        &'a self,
        rt: &'a R,
        node: usize,
    ) -> Option<NodeWorkplace<'a, N, R, S, J, G, M>> {
        let locks = self.cluster.locks(node)?;
        let desk = self.desks.get(node)?;
        Some(NodeWorkplace::new(rt, &self.gate, locks, desk, &self.desks))
    }

    /// Hands an upload to the node, and has it wait there until its outcome is known. Its worker is told to look.
    pub fn put<R: Wait>(&self, rt: &R, node: usize, upload: &Upload) -> Result<Pending, SeatFault> {
        let Some(desk) = self.desks.get(node) else {
            return Err(SeatFault::Down);
        };
        let Ok((copy, kept)) = two_of(upload) else {
            return Err(SeatFault::Refused(Refusal::OutOfMemory));
        };
        // It waits before the node takes it, so that a restart in between ends it.
        let Ok((put, pending)) = begin(rt, self.alloc, desk, kept) else {
            return Err(SeatFault::Refused(Refusal::OutOfMemory));
        };
        match self.take_input(rt, node, SeatInput::Put(copy)) {
            Ok(taken) => {
                drop(taken);
                desk.tell(rt, Note::Look);
                Ok(pending)
            }
            Err(fault) => {
                drop(desk.leave(rt, put));
                Err(fault)
            }
        }
    }

    /// The upload of a put waits at the node no more, and nothing tries for its sake to have it decided; it may be decided even so.
    /// Gives how the put had ended before, if it had.
    pub fn leave<R: Wait + Clock>(&self, rt: &R, node: usize, pending: Pending) -> Option<Ending> {
        if let Some(desk) = self.desks.get(node) {
            drop(desk.leave(rt, pending.put));
        }
        pending.ending.recv_timeout(rt, Duration::ZERO).ok()
    }

    /// Hands an input to the node. Its worker is told nothing of it.
    pub fn take_input<R: Wait>(
        &self,
        rt: &R,
        node: usize,
        input: SeatInput,
    ) -> Result<Taken, SeatFault>
        ensures { IfOk result (IsTold node input) }
    {
        self.cluster.take(rt, &self.gate, node, input)
    }

    /// What the node answers to a ticket.
    pub fn get<R: Wait>(
        &self,
        rt: &R,
        node: usize,
        ticket: Ticket,
    ) -> Result<Option<(Answer, Receipt)>, SeatFault>
        ensures { IfOk result (λ got. IfSome got (λ found. IsGotAt node ticket.table ticket.version found.0 found.1)) }
    {
        self.cluster.get(rt, &self.gate, node, ticket)
    }

    /// Tells the workers of all nodes that these messages were sent. A note that finds no memory is a message that was lost.
    pub fn send<R: Wait>(&self, rt: &R, numbers: Range<u64>) {
        for number in numbers {
            for desk in &self.desks {
                desk.tell(rt, Note::Message(number));
            }
        }
    }

    /// Ends the work of all nodes, and with it the puts that wait: a worker ends behind the notes that it was sent before. It
    /// needs no memory: where there is none for a note, the workers end once they look, [`LOOK_MILLISECONDS`] later at most.
    ///
    /// [`LOOK_MILLISECONDS`]: crate::LOOK_MILLISECONDS
    pub fn stop<R: Wait>(&self, rt: &R) {
        for desk in &self.desks {
            if !desk.tell(rt, Note::Stop) {
                *self.is_stopping.lock(rt) = true;
            }
        }
    }

    /// Whether the work of all nodes is to end though a worker could not be told.
    pub(crate) fn is_stopping<R: Wait>(&self, rt: &R) -> bool {
        *self.is_stopping.lock(rt)
    }

    /// Starts the node again, with the records that it kept, and enters that. The puts that wait at it end as
    /// [`SeatFault::Down`]: a node that starts again has no upload that waits. Its worker is told to look.
    pub fn restart<R: Wait>(&self, rt: &R, node: usize) -> Result<Receipt, SeatFault> {
        let receipt = self.cluster.restart(rt, &self.gate, node)?;
        self.end_all(rt, node, SeatFault::Down);
        if let Some(desk) = self.desks.get(node) {
            desk.tell(rt, Note::Look);
        }
        Ok(receipt)
    }

    /// Whether an upload waits at the node.
    pub fn waits<R: Wait>(&self, rt: &R, node: usize) -> bool {
        match self.desks.get(node) {
            Some(desk) => desk.waits(rt),
            None => false,
        }
    }

    /// Looks at all puts that wait at the node: whose outcome is known is told it once it is entered, and waits no more.
    pub fn settle_all<R: Wait>(&self, rt: &R, node: usize) {
        if let Some(mut place) = self.workplace(rt, node) {
            look_at_each(&mut place);
        }
    }

    /// Ends all puts that wait at the node, where the node's later inputs meet this fault too. [`SeatFault::Strange`] and
    /// [`SeatFault::Lost`] are told as a store's.
    pub fn end_all<R: Wait>(&self, rt: &R, node: usize, fault: SeatFault) {
        let Some(end) = end_of(fault_of(fault)) else {
            return;
        };
        if let Some(mut place) = self.workplace(rt, node) {
            end_each(&mut place, end);
        }
    }
}

// The upload twice.
fn two_of(upload: &Upload) -> Result<(Upload, Upload), AllocError> {
    let first = upload.clone()?;
    let second = upload.clone()?;
    Ok((first, second))
}

// Has an upload wait at a node's desk, and whoever handed it in.
fn begin<R: Wait>(
    rt: &R,
    alloc: Global,
    desk: &Desk,
    upload: Upload,
) -> Result<(PutId, Pending), AllocError> {
    // There is room for the one end that is told, so that telling it needs no memory.
    let (reply, ending) = match bounded(alloc, 1) {
        Ok(channel) => channel,
        Err(refused) => {
            drop(upload);
            return Err(refused);
        }
    };
    let put = desk.begin(rt, upload, reply)?;
    Ok((put, Pending { put, ending }))
}
