//! Uploads that are read, and tables that take them.

ghost use Rattle.std.specs.Prelude.{◌≡◌, IfOk};

use crate::values::{upload_of, values_in};
use crate::weights::answer_weight;
use ballots::Value;
use part_tasks::{TaskFault, push, weight_of};
use std::alloc::{AllocError, Global};
use std::hash::RandomState;
use table_types::Ticket;
use table_versions::{MAX_VALUES, TableInfo, Tables};

/// The tables take one more value.
fn take(tables: &mut Tables, value: &Value) -> Result<(), TaskFault> {
    if tables.taken() >= MAX_VALUES {
        return Err(TaskFault::TooMany);
    }
    let ready = tables.ready(std::slice::from_ref(value))?;
    tables.apply(ready);
    Ok(())
}

/// The tables take the values one by one.
fn take_all(tables: &mut Tables, values: &[Value]) -> Result<(), TaskFault> {
    for value in values {
        take(tables, value)?;
    }
    Ok(())
}

/// Tables that took nothing.
fn no_tables(alloc: Global, hashing: RandomState) -> Result<Box<Tables>, AllocError> {
    let tables = Box::new(alloc, Tables::new(alloc, hashing))?;
    Ok(tables)
}

/// New tables that took the values.
fn tables_of(
    alloc: Global,
    hashing: RandomState,
    values: &[Value],
) -> Result<Box<Tables>, TaskFault> {
    let mut tables = no_tables(alloc, hashing)?;
    take_all(&mut tables, values)?;
    Ok(tables)
}

/// The version, the rows and the bytes of a table, or 0 where there is none.
fn info_weight(latest: &Option<TableInfo>) -> u64 {
    match latest {
        Some(info) => {
            let both = info.version.wrapping_add(info.records);
            both.wrapping_add(info.total_bytes)
        }
        None => 0,
    }
}

/// What the table of this name weighs.
fn table_weight(tables: &Tables, name: &str) -> Result<u64, AllocError> {
    let latest = tables.latest(name)?;
    let weight = info_weight(&latest);
    drop(latest);
    Ok(weight)
}

/// How many values were taken, and the version, the rows and the bytes of each table.
fn weight(tables: &Tables) -> Result<u64, AllocError> {
    let mut sum = tables.taken();
    for name in &tables.tables()? {
        sum = sum.wrapping_add(table_weight(tables, name.as_str())?);
    }
    Ok(sum)
}

/// What new tables that took the values weigh.
fn taken_weight(alloc: Global, hashing: RandomState, values: &[Value]) -> Result<u64, TaskFault> {
    let tables = tables_of(alloc, hashing, values)?;
    let weight = weight(&tables);
    drop(tables);
    Ok(weight?)
}

/// New tables take the uploads so many times, each in turn. A repetition weighs the number of uploads, and the version,
/// the rows and the bytes of each table.
pub fn take_often(
    alloc: Global,
    hashing: RandomState,
    count: u64,
    bytes: &[u8],
) -> Result<u64, TaskFault>
    ensures none { count ≡ 0 → IfOk result (λ sum. sum ≡ 0) }
{
    let values = values_in(alloc, bytes)?;
    let mut sum: u64 = 0;
    for _ in 0..count {
        sum = sum.wrapping_add(taken_weight(alloc, hashing, values.as_slice())?);
    }
    Ok(sum)
}

/// Holds new tables that took the values beside others, and gives what they weigh.
fn held_weight(
    alloc: Global,
    hashing: RandomState,
    values: &[Value],
    held: &mut Vec<Box<Tables>>,
) -> Result<u64, TaskFault> {
    let tables = tables_of(alloc, hashing, values)?;
    let weight = weight(&tables)?;
    push(held, tables)?;
    Ok(weight)
}

/// So many tables take the uploads, each in turn, and all are kept until the last has, so that their memory can be
/// measured. The uploads are held beside them, as who agreed on them would. Each weighs as in [`take_often`].
pub fn hold_all(
    alloc: Global,
    hashing: RandomState,
    count: u64,
    bytes: &[u8],
) -> Result<u64, TaskFault>
    ensures none { count ≡ 0 → IfOk result (λ sum. sum ≡ 0) }
{
    let values = values_in(alloc, bytes)?;
    let mut held = Vec::new(alloc);
    let mut sum: u64 = 0;
    for _ in 0..count {
        sum = sum.wrapping_add(held_weight(alloc, hashing, values.as_slice(), &mut held)?);
    }
    Ok(sum)
}

/// An upload's bytes, and how many batches it has.
fn upload_weight(alloc: Global, value: &Value) -> Result<u64, TaskFault> {
    match value {
        Value::Noop => Ok(0),
        Value::Upload(bytes) => {
            let upload = upload_of(alloc, bytes.as_bytes().clone()?, TaskFault::Uploads)?;
            let batches = upload.batch_count() as u64;
            Ok(weight_of(upload.as_slice()).wrapping_add(batches))
        }
    }
}

/// Of all of them.
fn uploads_weight(alloc: Global, values: &[Value]) -> Result<u64, TaskFault> {
    let mut sum: u64 = 0;
    for value in values {
        sum = sum.wrapping_add(upload_weight(alloc, value)?);
    }
    Ok(sum)
}

/// Reads the uploads so many times. A repetition weighs, of each upload, the number of its bytes, the last of them and
/// the number of its batches.
pub fn decode_uploads(alloc: Global, count: u64, bytes: &[u8]) -> Result<u64, TaskFault>
    ensures none { count ≡ 0 → IfOk result (λ sum. sum ≡ 0) }
{
    let values = values_in(alloc, bytes)?;
    let mut sum: u64 = 0;
    for _ in 0..count {
        sum = sum.wrapping_add(uploads_weight(alloc, values.as_slice())?);
    }
    Ok(sum)
}

/// A ticket for this version, where there is one.
fn ticket_for(latest: Option<TableInfo>) -> Option<Ticket> {
    let info = latest?;
    let version = info.version;
    Ticket::new(info.table, version)
}

/// A ticket for the latest version of the first table.
fn first_ticket(tables: &Tables) -> Result<Ticket, TaskFault> {
    let names = tables.tables()?;
    match names.first() {
        Some(name) => ticket_for(tables.latest(name.as_str())?).ok_or(TaskFault::Uploads),
        None => Err(TaskFault::Uploads),
    }
}

/// What the answer to a ticket weighs.
fn asked_weight(tables: &Tables, ticket: &Ticket) -> Result<u64, TaskFault> {
    match tables.answer(ticket)? {
        Some(answer) => Ok(answer_weight(&answer)),
        None => Err(TaskFault::Uploads),
    }
}

/// The tables answer the ticket for the latest version of the first of them so many times.
fn answers_weight(tables: &Tables, count: u64) -> Result<u64, TaskFault>
    ensures none { count ≡ 0 → IfOk result (λ sum. sum ≡ 0) }
{
    let ticket = first_ticket(tables)?;
    let mut sum: u64 = 0;
    for _ in 0..count {
        sum = sum.wrapping_add(asked_weight(tables, &ticket)?);
    }
    Ok(sum)
}

/// Tables take the uploads once, each in turn, and answer the ticket for the latest version of the first of them so
/// many times. A repetition weighs the number of bytes of the answer, and the last of them.
pub fn answer_often(
    alloc: Global,
    hashing: RandomState,
    count: u64,
    bytes: &[u8],
) -> Result<u64, TaskFault>
    ensures none { count ≡ 0 → IfOk result (λ sum. sum ≡ 0) }
{
    let values = values_in(alloc, bytes)?;
    let tables = tables_of(alloc, hashing, values.as_slice())?;
    let sum = answers_weight(&tables, count);
    drop(tables);
    sum
}
