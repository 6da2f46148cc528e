//! The steps of a cluster's nodes.

ghost use Rattle.std.specs.Prelude.{◌≡◌, IfOk};
ghost use Rattle.std.specs.Option.{IfSome};
ghost use Rattle.seats.specs.parts.ballots.specs.declared.message.Message.{Message as Sent};
ghost use Rattle.seats.specs.declared.input.SeatInput.TheVariants.{Deliver};
ghost use Rattle.node_threads.specs.Told.{IsTold, IsAskedAt, IsGotAt, IsOfTables};

use crate::cluster::Cluster;
use crate::gate::Gate;
use crate::locks::message_in;
use crate::settled::Settled;
use agreement::Refusal;
use ballots::Message;
use node_events::EventResult;
use seats::{Beginning, Query, Receipt, Retention, SeatFault, SeatInput};
use stable_records::Stable;
use std::alloc::AllocError;
use std::ops::Range;
use std::sync::Wait;
use table_types::Ticket;
use table_versions::Answer;
use uploads::Upload;

/// What came of an input that a node took.
#[derive(Debug, Drop)]
pub struct Taken {
    /// Its entry.
    pub receipt: Receipt,
    /// The numbers of the messages that went out.
    pub sent: Range<u64>,
}

impl<const N: usize, S: Stable + Drop, J: Beginning, M: Retention> Cluster<N, S, J, M> {
    /// Hands an input to the node: its record is kept, the node does what is due, and that is entered.
    ///
    /// The faults are those of `Seat::prepare` and `Seat::take`; [`SeatFault::Down`] also where there is no such node.
    pub fn take<R: Wait, G: Gate>(
        &self,
        rt: &R,
        gate: &G,
        node: usize,
        input: SeatInput,
    ) -> Result<Taken, SeatFault>
        ensures { IfOk result (IsTold node input) }
    {
        match self.locks(node) {
            Some(locks) => locks.take(rt, gate, input),
            None => {
                drop(input);
                Err(SeatFault::Down)
            }
        }
    }

    /// Hands the message of this number to the node.
    ///
    /// [`SeatFault::NotSent`] where the journal has no such message; else as [`Cluster::take`].
    pub fn deliver<R: Wait, G: Gate>(
        &self,
        rt: &R,
        gate: &G,
        node: usize,
        number: u64,
    ) -> Result<Taken, SeatFault>
        ensures { IfOk result (λ taken. (message : Sent) × IsTold node (Deliver number message) taken) }
    {
        let message = self.message(rt, number)?;
        self.take(rt, gate, node, SeatInput::Deliver(number, message))
    }

    /// A copy of the message of this number; [`SeatFault::NotSent`] where none was sent.
    pub fn message<R: Wait>(&self, rt: &R, number: u64) -> Result<Message, SeatFault> {
        message_in(rt, self.journal(), number)
    }

    /// Asks the node, and enters the query with its answer, which is in the receipt and is that of some tables.
    ///
    /// The faults are those of `Seat::read` and `Seat::serve`; [`SeatFault::Down`] also where there is no such node.
    pub fn ask<R: Wait, G: Gate>(
        &self,
        rt: &R,
        gate: &G,
        node: usize,
        query: Query,
    ) -> Result<Receipt, SeatFault>
        ensures { IfOk result (IsAskedAt node query) }
    {
        match self.locks(node) {
            Some(locks) => locks.ask(rt, gate, query),
            None => {
                drop(query);
                Err(SeatFault::Down)
            }
        }
    }

    /// What the node answers to a ticket, entered: the frames of the ticket's version, or `None` where the node has none.
    ///
    /// The faults are those of [`Cluster::ask`]; and want of memory for a copy of the answer, where the query stands entered.
    pub fn get<R: Wait, G: Gate>(
        &self,
        rt: &R,
        gate: &G,
        node: usize,
        ticket: Ticket,
    ) -> Result<Option<(Answer, Receipt)>, SeatFault>
        ensures { IfOk result (λ got. IfSome got (λ found. IsGotAt node ticket.table ticket.version found.0 found.1)) }
    {
        let receipt = self.ask(rt, gate, node, Query::Get(ticket))?;
        match &receipt.answer {
            EventResult::Answer(answer) => {
                let copy: Result<Answer, AllocError> = answer.clone();
                match copy {
                    Ok(copy) => Ok(Some((copy, receipt))),
                    Err(_) => Err(SeatFault::Refused(Refusal::OutOfMemory)),
                }
            }
            _ => Ok(None),
        }
    }

    /// What has become of an upload, by the node's tables, entered: or `None`, and nothing is entered, where nothing is known
    /// of it there.
    ///
    /// The faults are those of [`Cluster::ask`].
    pub fn settle<R: Wait, G: Gate>(
        &self,
        rt: &R,
        gate: &G,
        node: usize,
        upload: &Upload,
    ) -> Result<Option<Settled>, SeatFault>
        ensures { IfOk result (λ found. IfSome found (λ settled.
            (settled.node ≡ node) × (settled.upload ≡ upload.now) × IsOfTables settled)) }
    {
        match self.locks(node) {
            Some(locks) => locks.settle(rt, gate, upload),
            None => Err(SeatFault::Down),
        }
    }

    /// Starts the node again, up or down, with the records that it kept, and enters that.
    ///
    /// The faults are those of `Seat::restart`; [`SeatFault::Down`] where there is no such node.
    pub fn restart<R: Wait, G: Gate>(
        &self,
        rt: &R,
        gate: &G,
        node: usize,
    ) -> Result<Receipt, SeatFault> {
        match self.locks(node) {
            Some(locks) => locks.restart(rt, gate),
            None => Err(SeatFault::Down),
        }
    }
}
