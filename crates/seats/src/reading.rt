//! What a client reads of a node.

ghost use Rattle.std.specs.Prelude.{◌≡◌};
ghost use Rattle.seats.specs.Steps.{NodeReads, ReadGives};

use crate::fault::SeatFault;
use crate::query::{Found, Query};
use crate::seat::Seat;
use agreement::Refusal;
use journal::{Beginning, Retention};
use node_core::Node;
use node_events::EventResult;
use stable_records::Stable;

// What the node answers, or that memory was refused.
fn answer_of(node: &Node, query: &Query) -> Result<EventResult, Refusal>
    ensures { NodeReads node.now query.now result }
{
    match query {
        Query::Get(ticket) => match node.get(ticket) {
            Ok(Some(answer)) => Ok(EventResult::Answer(answer)),
            Ok(None) => Ok(EventResult::Unavailable),
            Err(_) => Err(Refusal::OutOfMemory),
        },
        Query::Outcome(upload) => {
            // the type keeps that it is the encoding of one
            let _text = upload.as_slice();
            Ok(EventResult::Outcome(node.outcome(upload)))
        }
    }
}

impl<S: Stable + Drop, J: Beginning, M: Retention> Seat<S, J, M> {
    /// What the node answers to a query, which [`Seat::serve`] enters: from the tables of its prefix, and memory apart
    /// ([`SeatFault::Refused`]); or [`SeatFault::Down`], exactly where the node is down. Nothing changes.
    pub fn read(&self, query: Query) -> Result<Found, SeatFault>
        ensures { ReadGives self.now query result }
    {
        let answer = match self.node.node() {
            Some(node) => answer_of(node, &query),
            None => {
                drop(query);
                return Err(SeatFault::Down);
            }
        };
        match answer {
            Ok(answer) => Ok(Found { query, answer }),
            Err(refusal) => {
                drop(query);
                Err(SeatFault::Refused(refusal))
            }
        }
    }
}
