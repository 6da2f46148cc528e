//! The tables of a node.

ghost use Rattle.std.specs.Prelude.{◌≡◌, ◌≢◌, ◌≤◌, ◌+◌, ◌++◌, [], List, length, map, string_bytes, IfOk, OnOk, OnErr, IsSome};
ghost use Rattle.std.specs.Option.{option_map};
ghost use Rattle.table_types.specs.Uploads.{Upload as Uploaded, upload_text};
ghost use Rattle.table_types.specs.Valid.{IsUpload};
ghost use Rattle.table_types.specs.Answers.{answer_of};
ghost use Rattle.table_types.specs.Tables.{effective, version_of, outcome_of, table_names};
ghost use Rattle.table_versions.specs.Outcomes.{told};
ghost use Rattle.table_versions.specs.Values.{AreUploadsIn};
ghost use Rattle.ballots.specs.declared.value.Value.{Value as Agreed};
ghost use Rattle.table_versions.specs.State.{agreed_values_limit, HasTaken, IsReadyFor, CanTake, IsSame};
ghost use Rattle.table_versions.specs.Info.{IsLatest};

use crate::answer::Answer;
use crate::answering::{answer_by, told_of};
use crate::info::TableInfo;
use crate::ledger::take_all;
use crate::listing::{latest_by, names_by};
use crate::outcome::Outcome;
use crate::ready::Ready;
use crate::steps::{Firsts, Frames, NamedTables};
use ballots::{OutOfMemory, Value};
use indexmap::IndexMap;
use std::alloc::Global;
use std::hash::RandomState;
use std::marker::Model;
use table_types::Ticket;
use table_types::laws::texts_hold_one_list_of_uploads;
use uploads::{HeldUploads, NoUploads, Upload};

/// The most values that tables take.
pub const MAX_VALUES: u64 = 1_000_000;

/// The tables that the agreed values make, the first so many of them.
#[derive(Debug)]
pub struct Tables {
    firsts: Firsts,
    tables: NamedTables,
    frames: Frames,
    taken: u64,
}

impl Model for Tables {
    ghost use Rattle.table_versions.specs.State.{TablesState};

    ghost Value = { TablesState };

    ghost use Rattle.header_types.specs.contracts.schema.Field as field;
    ghost use Rattle.std.specs.Coded.{codes};

    ghost coded = { Prim.hlevel (codes, field.the_row.coded) };

    ghost use Rattle.std.specs.Prelude.{List, min};
    ghost use Rattle.ballots.specs.declared.value.Value.{Value as Agreed};
    ghost use Rattle.indexmap.specs.IndexMap.{spare};
    ghost use Rattle.table_versions.specs.State.{HasTaken};

    ghost view = { λ t. record {
      firsts = t.firsts.entries;
      tables = t.tables.entries;
      frames = t.frames.entries;
      taken = t.taken;
      room = min (spare t.firsts) (min (spare t.tables) (spare t.frames));
    } };

    ghost invariant = { λ t. (values : List Agreed) × HasTaken (record {
      firsts = t.firsts.entries;
      tables = t.tables.entries;
      frames = t.frames.entries;
      taken = t.taken;
      room = min (spare t.firsts) (min (spare t.tables) (spare t.frames));
    }) values };
}

// Written out, so that a crate above lets go of tables by one call, and does not prove again what is inside them.
impl Drop for Tables {
    fn drop(self) {
        let Tables {
            firsts,
            tables,
            frames,
            taken: _,
        } = self;
        drop(firsts);
        drop(tables);
        drop(frames);
    }
}

impl Tables {
    /// The tables of no values. Clients choose the names of tables and of uploads: `hashing` has the random keys that
    /// keep look-ups fast whatever they choose. Memory is taken from this allocator as the tables grow.
    pub fn new(alloc: Global, hashing: RandomState) -> Tables
        ensures { HasTaken result [] }
    {
        Tables {
            firsts: IndexMap::with_hasher(alloc, hashing),
            tables: IndexMap::with_hasher(alloc, hashing),
            frames: IndexMap::with_hasher(alloc, hashing),
            taken: 0,
        }
    }

    /// How many values were taken.
    pub fn taken(&self) -> u64
        ensures { result ≡ self.now.taken }
    {
        self.taken
    }

    /// What is told of an upload, by all values that were taken. It takes no memory, and its time does not grow with
    /// what was taken.
    pub fn outcome(&self, upload: &Upload) -> Outcome
        ensures { (values : List Agreed) (uploads : List Uploaded) (uploaded : Uploaded) → HasTaken self.now values
            → AreUploadsIn values uploads → IsUpload uploaded → upload_text uploaded ≡ upload.now
            → told result ≡ outcome_of uploads uploaded }
    {
        texts_hold_one_list_of_uploads();
        told_of(&self.firsts, upload.id(), upload.as_slice())
    }

    /// What answers a ticket: the frame with the schema of the table's first upload, and then those of each of its
    /// first uploads, so many as the version says. They are shared, and none is copied: the time is in proportion to
    /// their number. `None` exactly where the table has no such version; and memory can be refused only where it has.
    pub fn answer(&self, ticket: &Ticket) -> Result<Option<Answer>, OutOfMemory>
        ensures answer { (values : List Agreed) (uploads : List Uploaded) → HasTaken self.now values
            → AreUploadsIn values uploads → IfOk result (λ answer. answer
            ≡ option_map answer_of (version_of ticket.now.table ticket.now.version uploads)) }
        ensures memory { OnErr result ((values : List Agreed) (uploads : List Uploaded) → HasTaken self.now values
            → AreUploadsIn values uploads → IsSome (version_of ticket.now.table ticket.now.version uploads)) }
    {
        texts_hold_one_list_of_uploads();
        let alloc = *self.firsts.allocator();
        answer_by(
            alloc,
            &self.tables,
            &self.frames,
            ticket.table(),
            ticket.version(),
        )
    }

    /// The latest version of a table, `None` exactly where no upload to it counts. Memory can be refused only where one
    /// does.
    pub fn latest(&self, table: &str) -> Result<Option<TableInfo>, OutOfMemory>
        ensures latest { (values : List Agreed) (uploads : List Uploaded) → HasTaken self.now values
            → AreUploadsIn values uploads
            → IfOk result (λ info. IsLatest info table.now (effective table.now uploads)) }
        ensures memory { OnErr result ((values : List Agreed) (uploads : List Uploaded) → HasTaken self.now values
            → AreUploadsIn values uploads → effective table.now uploads ≢ []) }
    {
        texts_hold_one_list_of_uploads();
        latest_by(*self.firsts.allocator(), &self.tables, table)
    }

    /// The names of the tables, in the order of their first effective uploads. Memory can be refused only where there are
    /// some.
    pub fn tables(&self) -> Result<Vec<String>, OutOfMemory>
        ensures names { (values : List Agreed) (uploads : List Uploaded) → HasTaken self.now values
            → AreUploadsIn values uploads → IfOk result (λ names. map string_bytes names.items ≡ table_names uploads) }
        ensures memory { OnErr result ((values : List Agreed) (uploads : List Uploaded) → HasTaken self.now values
            → AreUploadsIn values uploads → table_names uploads ≢ []) }
    {
        texts_hold_one_list_of_uploads();
        names_by(*self.firsts.allocator(), &self.tables)
    }

    /// Makes these values, the next of the list, ready to be taken: all memory that [`Tables::apply`] needs. What the
    /// tables hold stays, whatever the answer, and no room is lost. With these values the tables have taken at most
    /// [`MAX_VALUES`].
    pub fn ready(&mut self, values: &[Value]) -> Result<Ready, OutOfMemory>
        requires { self.old.taken + length values.now ≤ agreed_values_limit }
        ensures ready { IfOk result (λ ready. IsReadyFor ready values.now) }
        ensures can { IfOk result (CanTake self.new) }
        ensures same { IsSame self.old self.new }
        ensures room { self.old.room ≤ self.new.room }
    {
        self.ready_with(values, &NoUploads)
    }

    /// As [`Tables::ready`], where some of the values may be uploads that are held: their bytes are not looked at again.
    pub fn ready_with<H: HeldUploads>(
        &mut self,
        values: &[Value],
        held: &H,
    ) -> Result<Ready, OutOfMemory>
        requires { self.old.taken + length values.now ≤ agreed_values_limit }
        ensures ready { IfOk result (λ ready. IsReadyFor ready values.now) }
        ensures can { IfOk result (CanTake self.new) }
        ensures same { IsSame self.old self.new }
        ensures room { self.old.room ≤ self.new.room }
    {
        let ready = Ready::of(*self.firsts.allocator(), values, held)?;
        self.reserve(ready.len())?;
        Ok(ready)
    }

    /// Takes what is ready behind the values that were taken, and no memory. [`Tables::ready`] made the room: the
    /// tables are still able to take it where they hold what they held then.
    pub fn apply(&mut self, ready: Ready)
        requires { CanTake self.old ready }
        ensures takes { (taken values : List Agreed) → HasTaken self.old taken → IsReadyFor ready values
            → HasTaken self.new (taken ++ values) }
        ensures room { self.old.room ≤ self.new.room + length ready.uploads }
    {
        texts_hold_one_list_of_uploads();
        take_all(
            &mut self.firsts,
            &mut self.tables,
            &mut self.frames,
            ready.uploads,
        );
        self.taken += ready.count;
    }

    // Makes room for so many uploads.
    fn reserve(&mut self, uploads: usize) -> Result<(), OutOfMemory>
        ensures ready { OnOk result (uploads ≤ self.new.room) }
        ensures same { IsSame self.old self.new }
        ensures room { self.old.room ≤ self.new.room }
    {
        self.firsts.reserve(uploads)?;
        self.tables.reserve(uploads)?;
        self.frames.reserve(uploads)
    }
}
