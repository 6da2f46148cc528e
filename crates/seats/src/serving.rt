//! An answer that is served.

ghost use Rattle.std.specs.Prelude.{◌≡◌, List, IfOk, OnOk, length};
ghost use Rattle.journal.specs.parts.table_types.specs.Uploads.{Upload as Uploaded};
ghost use Rattle.journal.specs.Journaled.{HasRoom, TellsSame};
ghost use Rattle.journal.specs.Logged.{KeepsLog};
ghost use Rattle.seats.specs.Steps.{asked_at, AnswersQuery, IsFoundBy, ServeGives, OthersAgree};

use crate::fault::SeatFault;
use crate::query::{Found, Query};
use crate::seat::Seat;
use agreement::Refusal;
use ballots::NodeId;
use journal::{Beginning, Journal, Receipt, Retention, Step};
use node_events::{Event, EventResult, copy_of};
use stable_records::Stable;
use std::alloc::{AllocError, Global};

// The event of a query at this node.
fn event_for(me: NodeId, query: Query) -> Event
    ensures { result ≡ asked_at me query }
{
    let node = u64::from(me.number());
    match query {
        Query::Get(ticket) => Event::Get(node, ticket),
        Query::Outcome(upload) => Event::Outcome(node, upload),
    }
}

impl<S: Stable + Drop, J: Beginning, M: Retention> Seat<S, J, M> {
    /// Enters what was read: the query at this node, with the answer, which is that of some tables. The seat is as
    /// [`Seat::read`] found it.
    ///
    /// The first of these faults is told that stands, memory apart: [`SeatFault::Strange`] exactly where the seat is not
    /// seen to agree with the journal; [`SeatFault::JournalFull`]. These, and [`SeatFault::Refused`] where memory was refused,
    /// change nothing. The journal knows its log still, if it did, unless it has seen it go on without it.
    ///
    /// Where the seat and the journal know the log of their name, it takes the same time however many entries there are; else the
    /// entries are compared, one by one.
    pub fn serve(&self, journal: &mut Journal<J, M>, found: Found) -> Result<Receipt, SeatFault>
        requires { IsFoundBy self.now found }
        ensures gives { ServeGives self.now journal.old journal.new found result }
        ensures answers { IfOk result (λ receipt. (uploads : List Uploaded)
            × AnswersQuery uploads found.query receipt.answer) }
        ensures others { OthersAgree self.now.node.me journal.old journal.new }
        ensures log { KeepsLog journal.old journal.new }
    {
        self.is_open(journal)?;
        let Found { query, answer } = found;
        let event = event_for(self.me, query);
        match made_ready(self.alloc, journal, event, answer) {
            Ok((step, receipt)) => {
                journal.enter(step, Vec::new(self.alloc), false, None);
                Ok(receipt)
            }
            Err(_) => Err(SeatFault::Refused(Refusal::OutOfMemory)),
        }
    }
}

// All that an answer takes memory for, made before anything is entered.
fn made_ready<J: Beginning, M: Retention>(
    alloc: Global,
    journal: &mut Journal<J, M>,
    event: Event,
    answer: EventResult,
) -> Result<(Step, Receipt), AllocError>
    ensures step { IfOk result (λ made. made.0 ≡ record { event = event; result = answer }) }
    ensures told { IfOk result (λ made. made.1 ≡ record { number = length journal.old.trace.steps; event = event; answer = answer }) }
    ensures room { OnOk result (HasRoom journal.new 0) }
    ensures journal { TellsSame journal.old journal.new }
{
    let number = journal.step_count();
    journal.reserve(0)?;
    let told = copy_of(alloc, &event)?;
    let copy = answer.clone()?;
    Ok((
        Step {
            event,
            result: answer,
        },
        Receipt {
            number,
            event: told,
            answer: copy,
        },
    ))
}
