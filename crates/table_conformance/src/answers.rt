//! What answers tickets: frames that are shared, of few uploads and of many.

use crate::support::{made, no_tables, small_value, value_of};
use ballots::Value;
use std::alloc::{AllocError, Global};
use std::test::Fail;
use table_types::Ticket;
use table_versions::{Answer, Tables};

/// Takes these values.
fn take(tables: &mut Tables, values: &[Value]) -> Result<(), Fail> {
    if tables.taken() > 500_000 || values.len() > 500_000 {
        return Err(Fail::from("too many"));
    }
    let ready = tables.ready(values)?;
    tables.apply(ready);
    Ok(())
}

/// The answer to the ticket for this version of the table `t`.
fn answer_at(alloc: Global, tables: &Tables, version: u64) -> Result<Answer, Fail> {
    let table = String::from_str(alloc, "t")?;
    let Some(ticket) = Ticket::new(table, version) else {
        return Err(Fail::from("no ticket"));
    };
    match tables.answer(&ticket)? {
        Some(answer) => Ok(answer),
        None => Err(Fail::from("no answer")),
    }
}

/// How long each frame of an answer is.
fn lengths(alloc: Global, answer: &Answer) -> Result<Vec<usize>, AllocError> {
    let mut lengths = Vec::new(alloc);
    for frame in answer.frames() {
        lengths.push(frame.len())?;
    }
    Ok(lengths)
}

/// The value of an upload to the table `t` of batches of so many bytes each.
fn with_batches(alloc: Global, lens: &[usize]) -> Result<Value, Fail> {
    match made(alloc, "t", lens)? {
        Ok(upload) => value_of(&upload),
        Err(_) => Err(Fail::from("no upload")),
    }
}

/// The values of so many uploads without batches to the table `t`.
fn many(alloc: Global, count: u64) -> Result<Vec<Value>, Fail> {
    let mut values = Vec::new(alloc);
    for number in 0..count {
        values.push(small_value(alloc, "t", number)?)?;
    }
    Ok(values)
}

#[test]
fn each_frame_stands_by_itself(rt: HostRuntime) -> Result<(), Fail> {
    let alloc = rt.alloc();
    let mut tables = no_tables(&rt)?;
    take(&mut tables, &[with_batches(alloc, &[3, 0])?])?;
    take(&mut tables, &[small_value(alloc, "t", 2)?])?;
    let answer = answer_at(alloc, &tables, 2)?;
    let lengths = lengths(alloc, &answer)?;
    assert!(rt; matches!(lengths.as_slice(), [152, _, _, 23]));
    Ok(())
}

#[test]
fn a_version_of_thousands_of_uploads_is_answered(rt: HostRuntime) -> Result<(), Fail> {
    let alloc = rt.alloc();
    let mut tables = no_tables(&rt)?;
    take(&mut tables, many(alloc, 3_000)?.as_slice())?;
    let answer = answer_at(alloc, &tables, 3_000)?;
    assert!(rt; answer.frames().len() == 3_001 && answer.len() == 152 + 3_000 * 23);
    Ok(())
}

/// Tables that took these values, one by one.
fn one_by_one(rt: &HostRuntime, values: &[Value]) -> Result<Box<Tables>, Fail> {
    let mut tables = no_tables(rt)?;
    for value in values {
        take(&mut tables, std::slice::from_ref(value))?;
    }
    Ok(tables)
}

#[test]
fn answers_of_two_tables_are_one(rt: HostRuntime) -> Result<(), Fail> {
    let alloc = rt.alloc();
    let values = many(alloc, 20)?;
    let mut tables = no_tables(&rt)?;
    take(&mut tables, values.as_slice())?;
    let others = one_by_one(&rt, values.as_slice())?;
    let answer = answer_at(alloc, &tables, 20)?;
    let same = answer == answer_at(alloc, &others, 20)?;
    let other = answer == answer_at(alloc, &others, 19)?;
    assert!(rt; same && !other);
    Ok(())
}

/// So many answers to the ticket for the first version.
fn answers(alloc: Global, tables: &Tables, count: usize) -> Result<Vec<Answer>, Fail> {
    let mut answers = Vec::new(alloc);
    for _ in 0..count {
        answers.push(answer_at(alloc, tables, 1)?)?;
    }
    Ok(answers)
}

// An upload of 4 MB: a hundred thousand copies of its frame would take 400 GB.
#[test]
fn answers_share_their_frames(rt: HostRuntime) -> Result<(), Fail> {
    let alloc = rt.alloc();
    let mut tables = no_tables(&rt)?;
    take(&mut tables, &[with_batches(alloc, &[4_000_000])?])?;
    let answers = answers(alloc, &tables, 100_000)?;
    let is_same = answers.first() == answers.last();
    assert!(rt; is_same && answers.len() == 100_000);
    Ok(())
}

#[test]
fn an_answer_outlives_its_tables(rt: HostRuntime) -> Result<(), Fail> {
    let alloc = rt.alloc();
    let mut tables = no_tables(&rt)?;
    take(&mut tables, many(alloc, 2)?.as_slice())?;
    let answer = answer_at(alloc, &tables, 2)?;
    let before = answer.to_vec(alloc)?;
    drop(tables);
    let after = answer.to_vec(alloc)?;
    assert!(rt; before == after && before.len() == answer.len());
    Ok(())
}
