//! The maps of the tables, and the steps by which they take an upload. No step takes memory.

ghost use Rattle.std.specs.Prelude.{◌≡◌, ◌+◌, ◌<◌, ◌≤◌, ◌^◌, ◌∷◌, ◌++◌, [], None, is_some};
ghost use Rattle.std.specs.Prelude.{length, string_bytes};
ghost use Rattle.indexmap.specs.IndexMap.{spare};
ghost use Rattle.table_versions.specs.Ledger.{first_in, table_in, names_in};
ghost use Rattle.table_versions.specs.Steps.{PutsFirst, PutsTable, PutsFrames, IsOpened, IsGrown};

use crate::first::First;
use crate::frame_key::FrameKey;
use crate::prepared::Part;
use crate::table::Table;
use crate::upload_frames::UploadFrames;
use indexmap::IndexMap;
use std::hash::RandomState;

/// The first upload of each id.
pub(crate) type Firsts = IndexMap<[u8; 16], First, RandomState>;

/// The tables by name, in the order of their first effective uploads.
pub(crate) type NamedTables = IndexMap<String, Table, RandomState>;

/// The frames of each effective upload, at the version that it made.
pub(crate) type Frames = IndexMap<FrameKey, UploadFrames, RandomState>;

/// Whether an upload of the id has come.
pub(crate) fn has_come(firsts: &Firsts, id: [u8; 16]) -> bool
    ensures { result ≡ is_some (first_in firsts.now.entries id) }
{
    firsts.contains_key(&id)
}

/// Puts the first upload of an id.
pub(crate) fn put_first(firsts: &mut Firsts, id: [u8; 16], first: First)
    requires { 0 < spare firsts.old }
    ensures puts { PutsFirst firsts.old.entries firsts.new.entries id first }
    ensures room { spare firsts.old ≤ spare firsts.new + 1 }
{
    let Ok(_) = firsts.insert(id, first) else {
        unreachable!()
    };
}

/// Puts the frames of a version.
pub(crate) fn put_frames(frames: &mut Frames, place: FrameKey, served: UploadFrames)
    requires { 0 < spare frames.old }
    ensures puts { PutsFrames frames.old.entries frames.new.entries place served }
    ensures room { spare frames.old ≤ spare frames.new + 1 }
{
    let Ok(_) = frames.insert(place, served) else {
        unreachable!()
    };
}

/// Puts a new table behind the others.
pub(crate) fn put_table(tables: &mut NamedTables, name: String, table: Table)
    requires room { 0 < spare tables.old }
    requires none { table_in tables.old.entries (string_bytes name) ≡ None }
    ensures puts { PutsTable tables.old.entries tables.new.entries (string_bytes name) table }
    ensures names { names_in tables.new.entries ≡ names_in tables.old.entries ++ string_bytes name ∷ [] }
    ensures room { spare tables.old ≤ spare tables.new + 1 }
{
    let Ok(_) = tables.insert(name, table) else {
        unreachable!()
    };
}

/// A table of this number with its first upload.
pub(crate) fn opened(number: usize, part: Part) -> (Table, UploadFrames)
    requires { length part.schema_frame + part.bytes < 2 ^ 64 }
    ensures table { IsOpened result.0 number part }
    ensures frames { result.1 ≡ part.frames }
{
    let total_bytes = part.schema_frame.len() as u64 + part.bytes;
    let table = Table {
        number,
        schema: part.schema,
        shape: part.shape,
        schema_frame: part.schema_frame,
        version: 1,
        records: part.records,
        total_bytes,
    };
    (table, part.frames)
}

/// One upload more, with so many rows and bytes.
pub(crate) fn grow(table: &mut Table, records: u64, bytes: u64) -> FrameKey
    requires version { table.old.version + 1 < 2 ^ 64 }
    requires records { table.old.records + records < 2 ^ 64 }
    requires bytes { table.old.total_bytes + bytes < 2 ^ 64 }
    ensures grown { IsGrown table.old table.new records bytes }
    ensures table { result.table ≡ table.old.number }
    ensures version { result.version ≡ table.new.version }
{
    table.version += 1;
    table.records += records;
    table.total_bytes += bytes;
    FrameKey {
        table: table.number,
        version: table.version,
    }
}
