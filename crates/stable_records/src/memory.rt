//! A store in memory.

ghost use Rattle.std.specs.Prelude.{◌≡◌, [], ◌∷◌, ◌++◌, true, length, IfOk, IfErr, OnOk, OnErr};
ghost use Rattle.stable_records.specs.declared.fault.StoreFault.TheVariants.{OutOfMemory};
ghost use Rattle.stable_records.specs.MemoryStable.{HasRecords, HadRecords, finds_records, had_now, only_had_now};

use crate::fault::StoreFault;
use crate::stable::Stable;
use ballots::Record;
use std::alloc::{AllocError, Global};
use std::marker::Model;

/// A store in memory: the list of its records. It is always ready, and its only fault is
/// [`StoreFault::OutOfMemory`].
#[derive(Debug, Drop)]
pub struct MemoryStable {
    records: Vec<Record>,
}

impl Model for MemoryStable {
    ghost use Rattle.std.specs.Prelude.{List};
    ghost use Rattle.ballots.specs.declared.record.Record.{Record};

    ghost Value = { List Record };

    ghost view = { λ s. s.records.items };
}

impl MemoryStable {
    /// A store that has no records. It takes memory from this allocator as it grows.
    pub fn new(alloc: Global) -> MemoryStable
        ensures { result ≡ [] }
    {
        MemoryStable {
            records: Vec::new(alloc),
        }
    }

    /// The records, the first that was kept first.
    pub fn records(&self) -> &[Record]
        ensures { result.now ≡ self.now }
    {
        self.records.as_slice()
    }
}

// Puts a copy of a record behind the others.
fn push_copy(records: &mut Vec<Record>, told: &Record) -> Result<(), AllocError>
    ensures ok { OnOk result (records.new.items ≡ records.old.items ++ told.now ∷ []) }
    ensures err { OnErr result (records.new.items ≡ records.old.items) }
{
    records.push(told.clone()?)?;
    Ok(())
}

impl Stable for MemoryStable {
    ghost tells = { true };

    ghost faults = { λ _. 0 };

    ghost is_ready = { λ _. true };

    ghost finds = { HasRecords };

    ghost moment = { length };

    ghost finds_since = { HadRecords };

    /// Its only fault is [`StoreFault::OutOfMemory`], and the store is then as it was.
    fn keep(&mut self, told: &Record) -> Result<(), StoreFault>
        ensures ok { OnOk result (self.new ≡ self.old ++ told.now ∷ []) }
        ensures err { OnErr result (self.new ≡ self.old) }
        ensures fault { IfErr result (λ fault. fault ≡ OutOfMemory) }
    {
        Ok(push_copy(&mut self.records, told)?)
    }

    /// Copies of all records. Its only fault is [`StoreFault::OutOfMemory`], and the store stays as it was.
    fn recall(&mut self, alloc: Global) -> Result<Vec<Record>, StoreFault>
        ensures ok { IfOk result (λ records. records.items ≡ self.old) }
        ensures same { self.new ≡ self.old }
        ensures fault { IfErr result (λ fault. fault ≡ OutOfMemory) }
    {
        Ok(Vec::from_clones(alloc, self.records.as_slice())?)
    }

    ghost ready_finds_one = { λ records told ready. (records, finds_records records) };

    ghost counts_now = { had_now };

    ghost only_now = { only_had_now };
}
