//! Uploads that are held: agreed values that have their bytes are taken, and not looked at again.

use crate::support::{no_tables, small, value_of};
use std::alloc::Global;
use std::test::Fail;
use table_versions::{Outcome, Tables};
use uploads::{HeldUploads, NoUploads, Upload};

/// How many uploads are taken.
const TAKEN: u64 = 1_000;

/// Takes the upload's value, where this one is held.
fn take_with(tables: &mut Tables, upload: &Upload, held: &Upload) -> Result<(), Fail> {
    if tables.taken() > 500_000 {
        return Err(Fail::from("too many"));
    }
    let value = value_of(upload)?;
    let ready = tables.ready_with(std::slice::from_ref(&value), held)?;
    tables.apply(ready);
    Ok(())
}

/// Takes uploads, where the one before each is held, or it itself, and gives how many of them are applied as the version
/// whose number is theirs.
fn applied(alloc: Global, tables: &mut Tables, is_before: bool) -> Result<u64, Fail> {
    let mut count = 0_u64;
    for number in 1..=TAKEN {
        let upload = small(alloc, "t", number)?;
        let held = small(alloc, "t", if is_before { number - 1 } else { number })?;
        take_with(tables, &upload, &held)?;
        drop(held);
        if tables.outcome(&upload) == Outcome::Applied(number) {
            count = count.saturating_add(1);
        }
    }
    Ok(count)
}

#[test]
fn uploads_are_taken_whatever_is_held(rt: HostRuntime) -> Result<(), Fail> {
    let mut tables = no_tables(&rt)?;
    assert!(rt; applied(rt.alloc(), &mut tables, false)? == TAKEN);
    let mut others = no_tables(&rt)?;
    assert!(rt; applied(rt.alloc(), &mut others, true)? == TAKEN);
    Ok(())
}

#[test]
fn an_upload_is_found_by_its_bytes(rt: HostRuntime) -> Result<(), Fail> {
    let alloc = rt.alloc();
    let upload = small(alloc, "t", 1)?;
    let same = small(alloc, "t", 1)?;
    let other = small(alloc, "t", 2)?;
    assert!(rt; upload.find(same.as_slice()) == Some(&*upload));
    assert!(rt; upload.find(other.as_slice()).is_none());
    assert!(rt; upload.find(&[]).is_none() && NoUploads.find(same.as_slice()).is_none());
    Ok(())
}
