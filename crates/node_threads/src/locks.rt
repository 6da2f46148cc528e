//! The two locks of a node's calls.

ghost use Rattle.std.specs.Prelude.{◌≡◌, IfOk};
ghost use Rattle.std.specs.Option.{IfSome};
ghost use Rattle.seats.specs.declared.query.Query.TheVariants.{Outcome as Asked};
ghost use Rattle.seats.specs.Steps.{IsPreparedFor};
ghost use Rattle.node_threads.specs.Told.{IsTold, IsAskedAt, IsOfTables};

use crate::gate::Gate;
use crate::settled::Settled;
use crate::steps::Taken;
use agreement::Refusal;
use ballots::Message;
use node_events::{Event, EventResult};
use seats::{Beginning, Journal, Prepared, Query, Receipt, Retention, Seat, SeatFault, SeatInput};
use stable_records::Stable;
use std::alloc::AllocError;
use std::sync::{Mutex, Wait};
use table_versions::Outcome;
use uploads::Upload;

/// The locks that the calls of one node take: always its seat's first, and then the journal's. Between the two each call
/// passes its gate.
#[derive(Drop)]
pub(crate) struct Locks<'a, S: Stable + Drop, J: Beginning, M: Retention> {
    node: usize,
    seat: &'a Mutex<Seat<S, J, M>>,
    journal: &'a Mutex<Journal<J, M>>,
}

impl<'a, S: Stable + Drop, J: Beginning, M: Retention> Locks<'a, S, J, M> {
    /// The locks of the node of this number.
    pub(crate) fn new(
        node: usize,
        seat: &'a Mutex<Seat<S, J, M>>,
        journal: &'a Mutex<Journal<J, M>>,
    ) -> Locks<'a, S, J, M>
        ensures { result.node ≡ node }
    {
        Locks {
            node,
            seat,
            journal,
        }
    }

    /// Hands an input to the node: its record is kept, the node does what is due, and that is entered.
    ///
    /// The faults are those of `Seat::prepare` and `Seat::take`.
    pub(crate) fn take<R: Wait, G: Gate>(
        &self,
        rt: &R,
        gate: &G,
        input: SeatInput,
    ) -> Result<Taken, SeatFault>
        ensures { IfOk result (IsTold self.now.node input) }
    {
        let mut seat = self.seat.lock(rt);
        is_at(&seat, self.node)?;
        let prepared = seat.prepare(input)?;
        gate.pass(self.node);
        let mut journal = self.journal.lock(rt);
        take_prepared(&mut seat, &mut journal, prepared)
    }

    /// A copy of the message of this number; [`SeatFault::NotSent`] where none was sent.
    pub(crate) fn message<R: Wait>(&self, rt: &R, number: u64) -> Result<Message, SeatFault> {
        message_in(rt, self.journal, number)
    }

    /// Asks the node, and enters the query with its answer, which is in the receipt and is that of some tables.
    ///
    /// The faults are those of `Seat::read` and `Seat::serve`.
    pub(crate) fn ask<R: Wait, G: Gate>(
        &self,
        rt: &R,
        gate: &G,
        query: Query,
    ) -> Result<Receipt, SeatFault>
        ensures { IfOk result (IsAskedAt self.now.node query) }
    {
        let seat = self.seat.lock(rt);
        self.ask_at(rt, gate, &seat, query)
    }

    // Asks the node at its seat, whose lock is held.
    fn ask_at<R: Wait, G: Gate>(
        &self,
        rt: &R,
        gate: &G,
        seat: &Seat<S, J, M>,
        query: Query,
    ) -> Result<Receipt, SeatFault>
        ensures { IfOk result (IsAskedAt self.now.node query) }
    {
        is_at(seat, self.node)?;
        let found = seat.read(query)?;
        gate.pass(self.node);
        let mut journal = self.journal.lock(rt);
        seat.serve(&mut journal, found)
    }

    /// What has become of an upload, by the node's tables, entered: or `None`, and nothing is entered, where nothing is known
    /// of it there.
    ///
    /// The faults are those of [`Locks::ask`].
    pub(crate) fn settle<R: Wait, G: Gate>(
        &self,
        rt: &R,
        gate: &G,
        upload: &Upload,
    ) -> Result<Option<Settled>, SeatFault>
        ensures { IfOk result (λ found. IfSome found (λ settled.
            (settled.node ≡ self.now.node) × (settled.upload ≡ upload.now) × IsOfTables settled)) }
    {
        let seat = self.seat.lock(rt);
        if seat.node()?.outcome(upload) == Outcome::Unknown {
            return Ok(None);
        }
        let copy: Result<Upload, AllocError> = upload.clone();
        let Ok(copy) = copy else {
            return Err(SeatFault::Refused(Refusal::OutOfMemory));
        };
        let receipt = self.ask_at(rt, gate, &seat, Query::Outcome(copy))?;
        Ok(settled_by(self.node, upload, receipt))
    }

    /// Starts the node again, up or down, with the records that it kept, and enters that.
    ///
    /// The faults are those of `Seat::restart`.
    pub(crate) fn restart<R: Wait, G: Gate>(&self, rt: &R, gate: &G) -> Result<Receipt, SeatFault> {
        let mut seat = self.seat.lock(rt);
        gate.pass(self.node);
        let mut journal = self.journal.lock(rt);
        seat.restart(&mut journal)
    }
}

/// A copy of the journal's message of this number; [`SeatFault::NotSent`] where none was sent.
pub(crate) fn message_in<R: Wait, J: Beginning, M: Retention>(
    rt: &R,
    journal: &Mutex<Journal<J, M>>,
    number: u64,
) -> Result<Message, SeatFault> {
    let journal = journal.lock(rt);
    let Some(message) = journal.message(number) else {
        return Err(SeatFault::NotSent);
    };
    let copy: Result<Message, AllocError> = message.clone();
    match copy {
        Ok(copy) => Ok(copy),
        Err(_) => Err(SeatFault::Refused(Refusal::OutOfMemory)),
    }
}

// Whether it is the seat of the node of this number: a cluster is made of seats that are each at the place of their number.
fn is_at<S: Stable + Drop, J: Beginning, M: Retention>(
    seat: &Seat<S, J, M>,
    node: usize,
) -> Result<(), SeatFault>
    ensures { IfOk result (λ done. seat.now.node.me ≡ node) }
{
    if usize::from(seat.me().number()) == node {
        Ok(())
    } else {
        Err(SeatFault::Strange)
    }
}

// What has become of this upload by the receipt of the query at this node.
fn settled_by(node: usize, upload: &Upload, receipt: Receipt) -> Option<Settled>
    requires { IsAskedAt node (Asked upload.now) receipt }
    ensures { IfSome result (λ settled.
        (settled.node ≡ node) × (settled.upload ≡ upload.now) × IsOfTables settled) }
{
    let Receipt {
        number,
        event,
        answer,
    } = receipt;
    match event {
        Event::Outcome(node, upload) => match answer {
            EventResult::Outcome(outcome) => Some(Settled {
                number,
                node,
                upload,
                outcome,
            }),
            _ => None,
        },
        _ => None,
    }
}

// Does what was prepared, and tells the numbers of the messages that went out.
fn take_prepared<S: Stable + Drop, J: Beginning, M: Retention>(
    seat: &mut Seat<S, J, M>,
    journal: &mut Journal<J, M>,
    prepared: Prepared,
) -> Result<Taken, SeatFault>
    requires { IsPreparedFor seat.old prepared }
    ensures { IfOk result (IsTold seat.old.node.me prepared.input) }
{
    let first = journal.sent_count();
    let receipt = seat.take(journal, prepared)?;
    let next = journal.sent_count();
    Ok(Taken {
        receipt,
        sent: first..next,
    })
}
