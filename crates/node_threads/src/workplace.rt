//! Where the worker of a node works.

ghost use Rattle.std.specs.Prelude.{◌≡◌};
ghost use Rattle.node_worker.specs.Deeds.{Answered};
ghost use Rattle.node_threads.specs.Working.{seat_input, IsDone};

use crate::desk::Desk;
use crate::faults::{fault_of, told_as};
use crate::gate::Gate;
use crate::locks::Locks;
use crate::settled::Settled;
use crate::steps::Taken;
use ballots::Message;
use node_worker::{End, Note, PutId, Sent, WorkInput, Workplace, WorkplaceFault};
use seats::{Beginning, Retention, SeatFault, SeatInput};
use stable_records::Stable;
use std::sync::Wait;

/// Where the worker of one of N nodes works: the locks of its node, its desk, and the desks of all.
///
/// An input that its node took has an entry, which tells just the messages that went out, and what a put is told is what was
/// entered. That a message is the one of its number, that a note comes to a worker, and that a put is answered its own upload's
/// outcome, is claimed by no contract: that lies behind locks and channels.
#[derive(Drop)]
pub(crate) struct NodeWorkplace<
    'a,
    const N: usize,
    R: Wait,
    S: Stable + Drop,
    J: Beginning,
    G: Gate,
    M: Retention,
> {
    rt: &'a R,
    gate: &'a G,
    locks: Locks<'a, S, J, M>,
    desk: &'a Desk,
    desks: &'a [Desk],
}

impl<
    'a,
    const N: usize,
    R: Wait,
    S: Stable + Drop,
    J: Beginning,
    G: Gate,
    M: Retention,
> NodeWorkplace<'a, N, R, S, J, G, M> {
    /// The workplace of the node of these locks and this desk.
    pub(crate) fn new(
        rt: &'a R,
        gate: &'a G,
        locks: Locks<'a, S, J, M>,
        desk: &'a Desk,
        desks: &'a [Desk],
    ) -> NodeWorkplace<'a, N, R, S, J, G, M> {
        NodeWorkplace {
            rt,
            gate,
            locks,
            desk,
            desks,
        }
    }
}

impl<'a, const N: usize, R: Wait, S: Stable + Drop, J: Beginning, G: Gate, M: Retention> Workplace
    for NodeWorkplace<'a, N, R, S, J, G, M> {
    type Settled = Settled;

    ghost nodes = { N };

    ghost does = { λ old deed new. IsDone deed };

    fn count(&self) -> usize {
        N
    }

    fn read(&mut self, number: u64) -> Option<Message> {
        match self.locks.message(self.rt, number) {
            Ok(message) => Some(message),
            Err(_) => None,
        }
    }

    fn hand(&mut self, input: WorkInput) -> Result<Sent, WorkplaceFault> {
        match self.locks.take(self.rt, self.gate, input_of(input)) {
            Ok(taken) => Ok(sent_by(taken)),
            Err(fault) => Err(fault_of(fault)),
        }
    }

    fn tell(&mut self, node: usize, number: u64) {
        if let Some(desk) = self.desks.get(node) {
            desk.tell(self.rt, Note::Message(number));
        }
    }

    fn places(&mut self) -> usize {
        self.desk.places(self.rt)
    }

    fn find(&mut self, place: usize) -> Option<PutId> {
        self.desk.find(self.rt, place)
    }

    fn enter(&mut self, put: PutId) -> Result<Option<Settled>, WorkplaceFault> {
        let Some(upload) = self.desk.upload(self.rt, put) else {
            return Ok(None);
        };
        let Ok(upload) = upload else {
            return Err(WorkplaceFault::OutOfMemory);
        };
        match self.locks.settle(self.rt, self.gate, &upload) {
            Ok(known) => Ok(known),
            Err(fault) => Err(fault_of(fault)),
        }
    }

    fn answer(&mut self, put: PutId, ending: Result<Settled, End>)
        ensures { IsDone (Answered put ending) }
    {
        let Some(reply) = self.desk.leave(self.rt, put) else {
            drop(ending);
            return;
        };
        let told = match ending {
            Ok(settled) => Ok(settled),
            Err(end) => Err(told_as(end)),
        };
        let _ = reply.send(self.rt, told);
    }

    fn waits(&mut self) -> bool {
        self.desk.waits(self.rt)
    }
}

// A worker's input, as a seat takes it.
fn input_of(input: WorkInput) -> SeatInput
    ensures { result ≡ seat_input input }
{
    match input {
        WorkInput::Deliver(number, message) => SeatInput::Deliver(number, message),
        WorkInput::Tick(left) => SeatInput::Tick(left),
    }
}

// The numbers of the messages that went out.
fn sent_by(taken: Taken) -> Sent
    ensures first { result.first ≡ taken.sent.start }
    ensures next { result.next ≡ taken.sent.end }
{
    let sent = Sent {
        first: taken.sent.start,
        next: taken.sent.end,
    };
    drop(taken);
    sent
}
