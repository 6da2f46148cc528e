//! A backend of tables.

ghost use Rattle.std.specs.Prelude.{◌≡◌, ◌⊎◌, ◌<◌, ◌++◌, ◌∷◌, List, [], map, string_bytes, IfOk, IfErr, OnOk, OnErr};
ghost use Rattle.ballots.specs.declared.value.Value.{Value as Agreed};
ghost use Rattle.ballots.specs.declared.value.Value.TheVariants as agreed;
ghost use Rattle.table_versions.specs.State.{HasTaken, IsSame};
ghost use Rattle.call_protocol.specs.declared.back_fault.BackFault.TheVariants.{SlotsSpent, OutOfMemory};
ghost use Rattle.table_backend.specs.Backing.{MayAnswer, Leaves, HoldsTheSame, IsFull};

use crate::parts::{all_described, value_of};
use call_protocol::BackFault;
use flight_calls::{Backend, TableDescription};
use std::alloc::Global;
use std::hash::RandomState;
use std::marker::Model;
use table_types::Ticket;
use table_types::laws::tables_have_one_shape;
use table_versions::laws::{same_tables_hold_the_same, values_hold_one_list_of_uploads};
use table_versions::{Answer, MAX_VALUES, Outcome, Tables};
use uploads::Upload;

/// Tables of the uploads that were put, and where they are served.
#[derive(Debug, Drop)]
pub struct TableBackend {
    tables: Tables,
    locations: Vec<String>,
    slots: u64,
    handed: Vec<Upload>,
}

impl Model for TableBackend {
    ghost use Rattle.table_backend.specs.Backing.{BackendState};

    ghost Value = { BackendState };

    ghost use Rattle.table_versions.specs.contracts.tables.Tables as tables_part;
    ghost use Rattle.std.specs.Coded.{codes};

    ghost coded = { Prim.hlevel (codes, tables_part.the_row.coded) };

    ghost use Rattle.std.specs.Prelude.{List, map, string_bytes};
    ghost use Rattle.ballots.specs.declared.value.Value.{Value as Agreed};
    ghost use Rattle.table_versions.specs.State.{HasTaken};

    ghost view = { λ b. record {
      tables = b.tables;
      locations = map string_bytes b.locations.items;
      slots = b.slots;
      handed = b.handed.items;
    } };

    ghost invariant = { λ b. (values : List Agreed) × HasTaken b.tables values };
}

impl TableBackend {
    /// A backend that has taken no upload, and takes so many, but no more than [`MAX_VALUES`]: a further one is refused as
    /// [`BackFault::SlotsSpent`]. It is served at these locations, of which clients are told in this order. Clients choose
    /// the names of tables and of uploads: `hashing` has the random keys that keep look-ups fast whatever they choose.
    pub fn new(
        alloc: Global,
        hashing: RandomState,
        slots: u64,
        locations: Vec<String>,
    ) -> TableBackend
        ensures tables { HasTaken result.tables [] }
        ensures locations { result.locations ≡ map string_bytes locations.items }
        ensures slots { result.slots ≡ slots }
        ensures handed { result.handed ≡ [] }
    {
        TableBackend {
            tables: Tables::new(alloc, hashing),
            locations,
            slots,
            handed: Vec::new(alloc),
        }
    }

    /// The uploads that were handed over, in order.
    pub fn handed(&self) -> &[Upload]
        ensures { result.now ≡ self.now.handed }
    {
        &self.handed
    }

    /// The tables of the uploads that were taken.
    pub fn tables(&self) -> &Tables
        ensures { result.now ≡ self.now.tables }
    {
        &self.tables
    }

    /// Takes an upload, where there is room for one more.
    fn take(&mut self, upload: &Upload) -> Result<(), BackFault>
        ensures takes { OnOk result ((values : List Agreed) → HasTaken self.old.tables values
            → HasTaken self.new.tables (values ++ agreed.Upload upload.now ∷ [])) }
        ensures same { (self.new.handed ≡ self.old.handed) × (self.new.locations ≡ self.old.locations)
            × (self.new.slots ≡ self.old.slots) }
        ensures room { OnOk result (self.old.tables.taken < self.old.slots) }
        ensures refused { OnErr result (IsSame self.old.tables self.new.tables) }
        ensures fault { IfErr result (λ fault. (IsFull self.old × (fault ≡ SlotsSpent)) ⊎ (fault ≡ OutOfMemory)) }
    {
        same_tables_hold_the_same();
        let taken = self.tables.taken();
        if taken >= self.slots || taken >= MAX_VALUES {
            return Err(BackFault::SlotsSpent);
        }
        let Ok(value) = value_of(upload) else {
            return Err(BackFault::OutOfMemory);
        };
        match self.tables.ready_with(&[value], upload) {
            Ok(ready) => {
                self.tables.apply(ready);
                Ok(())
            }
            Err(_) => Err(BackFault::OutOfMemory),
        }
    }

    /// Notes an upload that is handed over.
    fn hand(&mut self, upload: &Upload) -> Result<(), BackFault>
        ensures handed { OnOk result (self.new.handed ≡ self.old.handed ++ upload.now ∷ []) }
        ensures same { (self.new.tables ≡ self.old.tables) × (self.new.locations ≡ self.old.locations)
            × (self.new.slots ≡ self.old.slots) }
        ensures refused { OnErr result (self.new.handed ≡ self.old.handed) }
        ensures fault { IfErr result (λ fault. fault ≡ OutOfMemory) }
    {
        let copy = upload.clone()?;
        match self.handed.push(copy) {
            Ok(()) => Ok(()),
            Err(_) => Err(BackFault::OutOfMemory),
        }
    }
}

impl Backend for TableBackend {
    ghost may_answer = { MayAnswer };

    ghost handed = { λ b. b.handed };

    ghost leaves = { Leaves };

    ghost stays = { HoldsTheSame };

    fn put(&mut self, upload: &Upload) -> Result<(), BackFault> {
        let outcome = self.tables.outcome(upload);
        match self.hand(upload) {
            Ok(()) => match outcome {
                Outcome::Unknown => self.take(upload),
                Outcome::Applied(_) | Outcome::SchemaMismatch | Outcome::Conflict => Ok(()),
            },
            Err(fault) => Err(fault),
        }
    }

    fn outcome(&mut self, upload: &Upload) -> Result<Outcome, BackFault> {
        Ok(self.tables.outcome(upload))
    }

    fn get(&mut self, _alloc: Global, ticket: &Ticket) -> Result<Answer, BackFault> {
        match self.tables.answer(ticket)? {
            Some(answer) => Ok(answer),
            None => Err(BackFault::Unavailable),
        }
    }

    fn info(&mut self, alloc: Global, table: &str) -> Result<TableDescription, BackFault> {
        tables_have_one_shape();
        values_hold_one_list_of_uploads();
        let Some(info) = self.tables.latest(table)? else {
            return Err(BackFault::NoTable);
        };
        Ok(TableDescription::of(alloc, info, &self.locations)?)
    }

    fn schema(&mut self, _alloc: Global, table: &str) -> Result<Vec<u8>, BackFault> {
        values_hold_one_list_of_uploads();
        let Some(info) = self.tables.latest(table)? else {
            return Err(BackFault::NoTable);
        };
        Ok(info.into_schema())
    }

    fn list(&mut self, alloc: Global) -> Result<Vec<TableDescription>, BackFault> {
        tables_have_one_shape();
        values_hold_one_list_of_uploads();
        let names = self.tables.tables()?;
        all_described(alloc, &self.tables, &names, &self.locations)
    }
}
