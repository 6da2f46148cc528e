//! Three nodes that run, as a test sees them.

use crate::calls::{Call, Gave, made};
use crate::support::{Why, config, members, ticket};
use ballots::NodeId;
use crossbeam_channel::Receiver;
use node_events::Event;
use node_threads::{
    Beginning, Journal, Note, OpenGate, Pace, Pending, Receipt, Retention, Running, SeatFault,
    audit,
};
use stable_records::Stable;
use std::alloc::Global;
use std::mem;
use std::sync::Wait;
use std::time::Clock;
use table_versions::{Answer, Outcome};
use uploads::Upload;

/// What a node reports of an upload, `None` where it is down, and whether a put waits there.
#[derive(Clone, Copy, PartialEq, Eq)]
pub(crate) struct AtNode {
    pub(crate) outcome: Option<Outcome>,
    pub(crate) waits: bool,
}

/// How many entries the journal has, and how many messages.
#[derive(Clone, Copy, PartialEq, Eq)]
pub(crate) struct Counts {
    pub(crate) entries: u64,
    pub(crate) messages: u64,
}

/// Three nodes that run, whatever they keep their records in and whatever their journal holds.
pub(crate) trait Tested {
    /// Makes the call at the node.
    fn make<R: Wait>(&self, rt: &R, alloc: Global, node: usize, call: Call) -> Result<Gave, Why>;

    /// Hands an upload to the node, where it waits.
    fn put<R: Wait>(&self, rt: &R, node: usize, upload: &Upload) -> Result<Pending, SeatFault>;

    /// Whether a put waits at the node.
    fn waits<R: Wait>(&self, rt: &R, node: usize) -> bool;

    /// Looks at the puts that wait at the node.
    fn settle_all<R: Wait>(&self, rt: &R, node: usize);

    /// Ends the puts that wait at the node.
    fn end_all<R: Wait>(&self, rt: &R, node: usize, fault: SeatFault);

    /// What the node reports of the upload.
    fn at_node<R: Wait>(&self, rt: &R, upload: &Upload, node: usize) -> Result<AtNode, Why>;

    /// How long the journal is.
    fn counts<R: Wait>(&self, rt: &R) -> Counts;

    /// The fault of a call for the message of this number, `None` where there is a copy.
    fn no_message<R: Wait>(&self, rt: &R, number: u64) -> Option<SeatFault>;

    /// The first version at the node, and its receipt.
    fn first_version<R: Wait>(
        &self,
        rt: &R,
        alloc: Global,
        node: usize,
    ) -> Result<(Answer, Receipt), Why>;
}

impl<S: Stable + Drop, J: Beginning, M: Retention> Tested for Running<3, S, J, OpenGate, M> {
    fn make<R: Wait>(&self, rt: &R, alloc: Global, node: usize, call: Call) -> Result<Gave, Why> {
        made(rt, alloc, self, node, call)
    }

    fn put<R: Wait>(&self, rt: &R, node: usize, upload: &Upload) -> Result<Pending, SeatFault> {
        Running::put(self, rt, node, upload)
    }

    fn waits<R: Wait>(&self, rt: &R, node: usize) -> bool {
        Running::waits(self, rt, node)
    }

    fn settle_all<R: Wait>(&self, rt: &R, node: usize) {
        Running::settle_all(self, rt, node)
    }

    fn end_all<R: Wait>(&self, rt: &R, node: usize, fault: SeatFault) {
        Running::end_all(self, rt, node, fault)
    }

    fn at_node<R: Wait>(&self, rt: &R, upload: &Upload, node: usize) -> Result<AtNode, Why> {
        let waits = Running::waits(self, rt, node);
        let seat = self.cluster().seat(node).ok_or("no seat")?.lock(rt);
        let outcome = match seat.node() {
            Ok(node) => Some(node.outcome(upload)),
            Err(_) => None,
        };
        Ok(AtNode { outcome, waits })
    }

    fn counts<R: Wait>(&self, rt: &R) -> Counts {
        let journal = self.cluster().journal().lock(rt);
        Counts {
            entries: journal.step_count(),
            messages: journal.sent_count(),
        }
    }

    fn no_message<R: Wait>(&self, rt: &R, number: u64) -> Option<SeatFault> {
        match self.cluster().message(rt, number) {
            Ok(message) => {
                drop(message);
                None
            }
            Err(fault) => Some(fault),
        }
    }

    fn first_version<R: Wait>(
        &self,
        rt: &R,
        alloc: Global,
        node: usize,
    ) -> Result<(Answer, Receipt), Why> {
        match self.get(rt, node, ticket(alloc, 1)?) {
            Ok(Some(found)) => Ok(found),
            _ => Err("no answer"),
        }
    }
}

/// Such nodes whose journal holds all of its entries.
pub(crate) trait Holding: Tested {
    /// The journals of such nodes.
    type Journal: Drop;

    /// Whether the last entry is that of this node, which went down in the midst.
    fn ends_in_a_cut<R: Wait>(&self, rt: &R, node: u64) -> bool;

    /// Whether the journal confirms these receipts together.
    fn meets<R: Wait>(&self, rt: &R, one: &Receipt, other: &Receipt) -> bool;

    /// Whether correct nodes may have sent the journal's messages.
    fn is_lawful<R: Wait>(&self, rt: &R) -> bool;

    /// Has the worker of this node work once all are told to stop.
    fn works_to_its_end<R: Wait + Clock>(
        &self,
        rt: &R,
        node: u8,
        notes: &Receiver<Note>,
    ) -> Result<(), Why>;

    /// A journal without an entry.
    fn another_journal(alloc: Global) -> Result<Self::Journal, Why>;

    /// Puts a journal in the place of the nodes' own, which it returns.
    fn exchanged<R: Wait>(&self, rt: &R, other: Self::Journal) -> Self::Journal;
}

// Puts another journal in the place of the one that is held, which it returns.
fn put_in<J: Beginning>(held: &mut Journal<J>, other: Journal<J>) -> Journal<J> {
    mem::replace(held, other)
}

impl<S: Stable + Drop, J: Beginning> Holding for Running<3, S, J, OpenGate> {
    type Journal = Journal<J>;

    fn ends_in_a_cut<R: Wait>(&self, rt: &R, node: u64) -> bool {
        let journal = self.cluster().journal().lock(rt);
        match journal.trace().steps().last() {
            Some(step) => {
                matches!(step.event, Event::TickCut(at, _) | Event::DeliverCut(at, _) if at == node)
            }
            None => false,
        }
    }

    fn meets<R: Wait>(&self, rt: &R, one: &Receipt, other: &Receipt) -> bool {
        self.cluster().journal().lock(rt).meet(one, other)
    }

    fn is_lawful<R: Wait>(&self, rt: &R) -> bool {
        audit(self.cluster().journal().lock(rt).trace())
    }

    fn works_to_its_end<R: Wait + Clock>(
        &self,
        rt: &R,
        node: u8,
        notes: &Receiver<Note>,
    ) -> Result<(), Why> {
        self.stop(rt);
        let pace = Pace::new(NodeId::new(node).ok_or("no node")?, members()?);
        self.work(rt, usize::from(node), pace, notes);
        Ok(())
    }

    fn another_journal(alloc: Global) -> Result<Journal<J>, Why> {
        let config = config(10, 1000)?;
        if !config.is_within_limits() {
            return Err("no configuration");
        }
        Ok(Journal::new(alloc, config))
    }

    fn exchanged<R: Wait>(&self, rt: &R, other: Journal<J>) -> Journal<J> {
        let mut journal = self.cluster().journal().lock(rt);
        put_in(&mut journal, other)
    }
}
