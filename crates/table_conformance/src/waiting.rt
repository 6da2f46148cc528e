//! Some thousands of uploads that wait, and two of each id.

use ballots::{UploadBytes, Value};
use header_types::Schema;
use pending_uploads::PendingUploads;
use std::alloc::Global;
use std::hash::RandomState;
use std::test::Fail;
use table_versions::Tables;
use uploads::{Upload, UploadFault};

// The upload without batches to this table, of this id.
fn upload(alloc: Global, table: &str, name: u128) -> Result<Upload, Fail> {
    let schema = Schema {
        fields: Vec::new(alloc),
        metadata: Vec::new(alloc),
    };
    match Upload::new(alloc, table, name.to_be_bytes(), &schema, &[]) {
        Ok(upload) => Ok(upload),
        Err(UploadFault::OutOfMemory) => Err(Fail::from("OutOfMemory")),
        Err(_) => Err(Fail::from("no upload")),
    }
}

// Lets the upload wait if it does not already: how many of it waited. Where memory is refused, room is asked for again.
fn put(waiting: &mut PendingUploads, upload: Upload) -> Result<usize, Fail> {
    if waiting.contains(&upload) {
        return Ok(1);
    }
    if waiting.make_room().is_err() {
        waiting.make_room()?;
    }
    waiting.push(upload);
    Ok(0)
}

// The same with the uploads of so many ids to the table, from 0 on.
fn put_all(
    waiting: &mut PendingUploads,
    alloc: Global,
    table: &str,
    names: u128,
) -> Result<usize, Fail> {
    let mut waited = 0_usize;
    for name in 0..names {
        let was_there = put(waiting, upload(alloc, table, name)?)?;
        waited = waited.saturating_add(was_there);
    }
    Ok(waited)
}

// Tables that took this upload, in a box: a function that held them as they are would be proved long.
fn tables_with(alloc: Global, hashing: RandomState, upload: Upload) -> Result<Box<Tables>, Fail> {
    let mut tables = Box::new(alloc, Tables::new(alloc, hashing))?;
    let value = Value::Upload(UploadBytes::new(upload.into_bytes()).ok_or("no value")?);
    if tables.taken() > 0 {
        return Err(Fail::from("something was taken"));
    }
    let ready = tables.ready(std::slice::from_ref(&value))?;
    tables.apply(ready);
    Ok(tables)
}

#[test]
fn thousands_wait_once(rt: HostRuntime) -> Result<(), Fail> {
    let alloc = rt.alloc();
    let mut waiting = PendingUploads::new(alloc, RandomState::new(&rt)?);
    let first = put_all(&mut waiting, alloc, "t", 4000)?;
    let second = put_all(&mut waiting, alloc, "t", 4000)?;
    assert!(rt; first == 0 && second == 4000 && waiting.len() == 4000);
    Ok(())
}

// Whether it is the upload to this table, of this id, that has waited longest.
fn is_first(
    waiting: &PendingUploads,
    alloc: Global,
    table: &str,
    name: u128,
) -> Result<bool, Fail> {
    let upload = upload(alloc, table, name)?;
    Ok(waiting.first().is_some_and(|first| *first == upload))
}

#[test]
fn uploads_of_one_name_wait_in_their_order(rt: HostRuntime) -> Result<(), Fail> {
    let alloc = rt.alloc();
    let hashing = RandomState::new(&rt)?;
    let mut waiting = PendingUploads::new(alloc, hashing);
    let first = put_all(&mut waiting, alloc, "t", 10)?;
    let second = put_all(&mut waiting, alloc, "u", 20)?;
    let third = put_all(&mut waiting, alloc, "t", 20)?;
    assert!(rt; first == 0 && second == 0 && third == 10 && waiting.len() == 40);
    waiting.keep_unknown(tables_with(alloc, hashing, upload(alloc, "v", 0)?)?.as_ref());
    assert!(rt; waiting.len() == 38 && is_first(&waiting, alloc, "t", 1)?);
    Ok(())
}
