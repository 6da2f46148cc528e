//! What the tests ask for, and how they fail.

use ballots::Members;
use header_types::Schema;
use node_threads::Config;
use std::alloc::Global;
use std::test::Fail;
use table_types::Ticket;
use uploads::{Upload, UploadFault};

/// Why a test fails. Threads can hand it to one another.
pub(crate) type Why = &'static str;

pub(crate) fn members() -> Result<Members, Why> {
    Ok(Members::new(3).ok_or("no members")?)
}

/// Three members that agree on values for this number of slots, with a journal of this number of entries.
pub(crate) fn config(slot_limit: u32, journal_limit: u32) -> Result<Config, Why> {
    Ok(Config {
        members: members()?,
        slot_limit,
        journal_limit,
    })
}

/// The upload without batches to the table `t`, of this number.
pub(crate) fn upload(alloc: Global, number: u64) -> Result<Upload, Why> {
    let schema = Schema {
        fields: Vec::new(alloc),
        metadata: Vec::new(alloc),
    };
    let id = u128::from(number).to_be_bytes();
    match Upload::new(alloc, "t", id, &schema, &[]) {
        Ok(upload) => Ok(upload),
        Err(UploadFault::OutOfMemory) => Err("OutOfMemory"),
        Err(_) => Err("no upload"),
    }
}

/// The same in a box, for a test that holds it while something may fail: as it is, it would be proved long.
pub(crate) fn held(alloc: Global, number: u64) -> Result<Box<Upload>, Why> {
    had(Box::new(alloc, upload(alloc, number)?))
}

/// The ticket for this version of the table `t`.
pub(crate) fn ticket(alloc: Global, version: u64) -> Result<Ticket, Why> {
    let table = had(String::from_str(alloc, "t"))?;
    Ok(Ticket::new(table, version).ok_or("no ticket")?)
}

/// The result of a test that ended so.
pub(crate) fn told(done: Result<(), Why>) -> Result<(), Fail> {
    match done {
        Ok(()) => Ok(()),
        Err(why) => Err(Fail::from(why)),
    }
}

/// What memory was found for.
pub(crate) fn had<T, E: Drop>(made: Result<T, E>) -> Result<T, Why> {
    match made {
        Ok(made) => Ok(made),
        Err(refused) => {
            drop(refused);
            Err("OutOfMemory")
        }
    }
}

/// Fails where it does not hold.
pub(crate) fn check(holds: bool, what: &'static str) -> Result<(), Why> {
    if holds { Ok(()) } else { Err(what) }
}
