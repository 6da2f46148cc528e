//! A count that contracts alone see.

ghost use Rattle.std.specs.Prelude.{◌≡◌, ℕ, ◌+◌};
ghost use Rattle.std.specs.Borrow.{ftrue};

use std::marker::{Model, PhantomData};

/// A count of faults, a whole number without bound. Contracts alone see it: it has no bytes, and takes no memory.
#[derive(Drop)]
pub struct FaultCount {
    marker: PhantomData<u8>,
    pub ghost count: { ℕ },
}

impl Model for FaultCount {
    ghost also_owns = { λ _. ftrue };
}

// It owns nothing.
unsafe impl Send for FaultCount {}

impl FaultCount {
    /// No fault so far.
    pub fn new() -> FaultCount
        ensures { result.count ≡ 0 }
    {
        FaultCount {
            marker: PhantomData,
        }
    }

    /// One fault more.
    pub fn rise(&mut self)
        ensures { self.new.count ≡ self.old.count + 1 }
    {}
}
