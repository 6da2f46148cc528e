//! When ticks are due, by rows that were drawn.

use crate::pace_rows::ROWS;
use crate::support::{Why, check, members, told};
use ballots::{Acceptance, Ballot, Body, Message, NodeId, Slot, Value};
use node_worker::Pace;
use std::test::Fail;

fn digit(word: &[u8], place: usize) -> Result<u8, Why> {
    match word.get(place) {
        Some(digit) if digit.is_ascii_digit() => Ok(*digit - b'0'),
        _ => Err("no digit"),
    }
}

// The number in the digits of the word behind its letter.
fn number(word: &str) -> Result<u64, Why> {
    let Some(digits) = word.strip_prefix('p') else {
        return Err("no number");
    };
    match digits.parse() {
        Ok(number) => Ok(number),
        Err(_) => Err("no number"),
    }
}

// A message of this node for the slot whose digit stands at this place of the word.
fn message(sender: u8, word: &[u8], place: usize, body: Body) -> Result<Message, Why> {
    match head(sender, word, place) {
        Ok((sender, slot)) => Ok(Message { sender, slot, body }),
        Err(why) => {
            drop(body);
            Err(why)
        }
    }
}

// Its sender, and the slot whose digit stands at this place of the word, 0 where none does.
fn head(sender: u8, word: &[u8], place: usize) -> Result<(NodeId, Slot), Why> {
    let slot = match word.get(place) {
        Some(_) => digit(word, place)?,
        None => 0,
    };
    let sender = NodeId::new(sender).ok_or("no node")?;
    let slot = Slot::new(u32::from(slot)).ok_or("no slot")?;
    Ok((sender, slot))
}

// The ballot of node 1 of the round whose digit stands at this place of the word.
fn ballot(word: &[u8], place: usize) -> Result<Ballot, Why> {
    let node = NodeId::new(1).ok_or("no node")?;
    Ok(Ballot::new(u32::from(digit(word, place)?), node).ok_or("no ballot")?)
}

// The message that comes with a word.
fn coming(word: &[u8]) -> Result<Message, Why> {
    let sender = digit(word, 1)?;
    let Some(kind) = word.get(2) else {
        return Err("no kind");
    };
    match *kind {
        b'k' => message(sender, word, 3, Body::Ask),
        b'd' => message(sender, word, 3, Body::Decided { value: Value::Noop }),
        b'r' => {
            let ballot = ballot(word, 3)?;
            let report = None;
            message(sender, word, 4, Body::Promise { ballot, report })
        }
        b'n' => {
            let ballot = ballot(word, 3)?;
            let promised = ballot;
            message(sender, word, 4, Body::Nack { ballot, promised })
        }
        b'y' => {
            let ballot = ballot(word, 3)?;
            let value = Value::Noop;
            let accepted = Body::Accepted(Acceptance { ballot, value });
            message(sender, word, 4, accepted)
        }
        _ => Err("no kind"),
    }
}

// A word comes to pass.
fn happen(pace: &mut Pace, word: &str) -> Result<(), Why> {
    let bytes = word.as_bytes();
    match bytes.first() {
        Some(b'p') => pace.pass(number(word)?),
        Some(b'a') => pace.hear_event(),
        Some(b't') => pace.tick(None),
        Some(b'q') => return ticks(pace, message(1, bytes, 1, Body::Ask)),
        Some(b'b') => return ticks(pace, prepare(bytes)),
        Some(b'c') => return hears(pace, coming(bytes)),
        _ => return Err("no word"),
    }
    Ok(())
}

// The Prepare of the ballot whose round is the word's second character.
fn prepare(word: &[u8]) -> Result<Message, Why> {
    let ballot = ballot(word, 1)?;
    message(1, word, 2, Body::Prepare { ballot })
}

// A tick at which the node sends this message.
fn ticks(pace: &mut Pace, message: Result<Message, Why>) -> Result<(), Why> {
    pace.tick(Some(&message?));
    Ok(())
}

// This message comes to the node.
fn hears(pace: &mut Pace, message: Result<Message, Why>) -> Result<(), Why> {
    pace.hear(&message?);
    Ok(())
}

// Whether the pace tells what stands behind the word.
fn tells(pace: &Pace, told: &[u8]) -> Result<bool, Why> {
    let due = digit(told, 0)? == 1;
    let due_for_one = digit(told, 1)? == 1;
    Ok(
        pace.is_due(false) == due
            && pace.is_due(true) == due_for_one
            && pace.left() == digit(told, 2)?,
    )
}

fn plays(row: &str) -> Result<(), Why> {
    let mut pace = Pace::new(NodeId::new(1).ok_or("no node")?, members()?);
    for cell in row.split(' ') {
        let (word, told) = cell.split_once('=').ok_or("no answer")?;
        happen(&mut pace, word)?;
        check(tells(&pace, told.as_bytes())?, "another pace")?;
    }
    Ok(())
}

fn all_rows() -> Result<(), Why> {
    let mut count = 0u32;
    for row in ROWS.lines() {
        plays(row)?;
        count = count.saturating_add(1);
    }
    check(count == 66, "another number of rows")
}

#[test]
fn paces_are_as_they_were_drawn(_rt: HostRuntime) -> Result<(), Fail> {
    told(all_rows())
}
