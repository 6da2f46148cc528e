//! What the tests share.

use ballots::Members;
use std::test::Fail;

/// Why a test fails.
pub(crate) type Why = &'static str;

pub(crate) fn members() -> Result<Members, Why> {
    Ok(Members::new(3).ok_or("no members")?)
}

/// Fails for this reason.
pub(crate) fn told(done: Result<(), Why>) -> Result<(), Fail> {
    match done {
        Ok(()) => Ok(()),
        Err(why) => Err(Fail::from(why)),
    }
}

/// Fails where it does not hold.
pub(crate) fn check(holds: bool, what: &'static str) -> Result<(), Why> {
    if holds { Ok(()) } else { Err(what) }
}
