//! Messages as one line each, as in `node 1 slot 5 Promise 2.1 accepted 1.0 616263`: who sends it, for which slot, and
//! what it says, by the names of the [`Body`], with ballots and values as their own lines. Each has one line, and no
//! other is read.

use crate::acceptance::Acceptance;
use crate::ballot::Ballot;
use crate::message::{Body, Message};
use crate::node::NodeId;
use crate::printed::{LineFault, number_of};
use crate::slot::Slot;
use crate::value::Value;
use std::alloc::Global;
use std::fmt;

/// The ballot, a space and the value.
impl fmt::Display for Acceptance {
    fn fmt<W: fmt::Write>(&self, f: &mut fmt::Formatter<W>) -> fmt::Result {
        let ballot = self.ballot;
        let value = &self.value;
        write!(f, "{ballot} {value}")
    }
}

/// The name of what is said, and behind it its ballot and what else it has, each behind a space.
impl fmt::Display for Body {
    fn fmt<W: fmt::Write>(&self, f: &mut fmt::Formatter<W>) -> fmt::Result {
        match self {
            Body::Prepare { ballot } => write!(f, "Prepare {ballot}"),
            Body::Promise {
                ballot,
                report: None,
            } => write!(f, "Promise {ballot}"),
            Body::Promise {
                ballot,
                report: Some(report),
            } => write!(f, "Promise {ballot} accepted {report}"),
            Body::Nack { ballot, promised } => write!(f, "Nack {ballot} promised {promised}"),
            Body::Accept(proposal) => write!(f, "Accept {proposal}"),
            Body::Accepted(acceptance) => write!(f, "Accepted {acceptance}"),
            Body::Ask => f.write_str("Ask"),
            Body::Decided { value } => write!(f, "Decided {value}"),
        }
    }
}

/// The sender behind `node`, the slot behind `slot`, and the body.
impl fmt::Display for Message {
    fn fmt<W: fmt::Write>(&self, f: &mut fmt::Formatter<W>) -> fmt::Result {
        let sender = self.sender.number();
        let slot = self.slot.number();
        let body = &self.body;
        write!(f, "node {sender} slot {slot} {body}")
    }
}

impl Message {
    /// Reads what `Display` writes, and no other line. It stands in the place of `FromStr`, which has no allocator.
    pub fn from_str(alloc: Global, line: &str) -> Result<Message, LineFault> {
        let Some((sender, rest)) = envelope_of(line) else {
            return Err(LineFault::BadMessage);
        };
        let (slot, said) = rest.split_once(' ').ok_or(LineFault::BadMessage)?;
        let slot = slot_of(slot).ok_or(LineFault::BadMessage)?;
        let body = body_of(alloc, said)?;
        Ok(Message { sender, slot, body })
    }
}

// The sender, and what stands behind `slot`.
fn envelope_of(line: &str) -> Option<(NodeId, &str)> {
    let (sender, rest) = line.strip_prefix("node ")?.split_once(" slot ")?;
    let number = u8::try_from(number_of(sender)?).ok()?;
    Some((NodeId::new(number)?, rest))
}

fn slot_of(digits: &str) -> Option<Slot> {
    Slot::new(number_of(digits)?)
}

fn body_of(alloc: Global, said: &str) -> Result<Body, LineFault> {
    if said == "Ask" {
        return Ok(Body::Ask);
    }
    let (name, rest) = said.split_once(' ').ok_or(LineFault::BadMessage)?;
    match name {
        "Prepare" => Ok(Body::Prepare {
            ballot: rest.parse::<Ballot>()?,
        }),
        "Promise" => promise_of(alloc, rest),
        "Nack" => nack_of(rest),
        "Accept" => Ok(Body::Accept(acceptance_of(alloc, rest)?)),
        "Accepted" => Ok(Body::Accepted(acceptance_of(alloc, rest)?)),
        "Decided" => Ok(Body::Decided {
            value: Value::from_str(alloc, rest)?,
        }),
        _ => Err(LineFault::BadMessage),
    }
}

fn promise_of(alloc: Global, rest: &str) -> Result<Body, LineFault> {
    let Some((ballot, report)) = rest.split_once(" accepted ") else {
        return Ok(Body::Promise {
            ballot: rest.parse::<Ballot>()?,
            report: None,
        });
    };
    Ok(Body::Promise {
        ballot: ballot.parse::<Ballot>()?,
        report: Some(acceptance_of(alloc, report)?),
    })
}

fn nack_of(rest: &str) -> Result<Body, LineFault> {
    let (ballot, promised) = rest.split_once(" promised ").ok_or(LineFault::BadMessage)?;
    Ok(Body::Nack {
        ballot: ballot.parse::<Ballot>()?,
        promised: promised.parse::<Ballot>()?,
    })
}

fn acceptance_of(alloc: Global, rest: &str) -> Result<Acceptance, LineFault> {
    let (ballot, value) = rest.split_once(' ').ok_or(LineFault::BadMessage)?;
    Ok(Acceptance {
        ballot: ballot.parse::<Ballot>()?,
        value: Value::from_str(alloc, value)?,
    })
}
