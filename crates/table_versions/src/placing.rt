//! How a table takes an upload whose id is new. No step takes memory.

ghost use Rattle.std.specs.Prelude.{◌≡◌, ◌+◌, ◌<◌, ◌≤◌, ◌^◌, None, Some, length, string_bytes};
ghost use Rattle.indexmap.specs.IndexMap.{spare};
ghost use Rattle.table_versions.specs.declared.table.Table.{Table as Held};
ghost use Rattle.table_versions.specs.Outcomes.{told};
ghost use Rattle.table_versions.specs.Ledger.{table_in, names_in};
ghost use Rattle.table_versions.specs.Steps.{TellsShape, HasRoomToGrow};
ghost use Rattle.table_versions.specs.Steps.{Grows, OpensTable, AddsVersion, Places};

use crate::frame_key::FrameKey;
use crate::outcome::Outcome;
use crate::prepared::Part;
use crate::steps::{Frames, NamedTables, grow, opened, put_frames, put_table};

/// Whether the table is of this shape, `None` where there is no table of the name.
fn is_of_shape(tables: &NamedTables, name: &str, shape: &[u8]) -> Option<bool>
    ensures { TellsShape (table_in tables.now.entries name.now) shape.now result }
{
    Some(tables.get(name)?.shape.as_slice() == shape)
}

/// Lets a table grow by one upload with so many rows and bytes.
fn grow_table(tables: &mut NamedTables, name: &str, records: u64, bytes: u64) -> FrameKey
    requires { (old : Held) × (table_in tables.old.entries name.now ≡ Some old)
        × ((old.version + 1 < 2 ^ 64) × (old.records + records < 2 ^ 64) × (old.total_bytes + bytes < 2 ^ 64)) }
    ensures grows { (old : Held) → table_in tables.old.entries name.now ≡ Some old
        → Grows tables.old.entries tables.new.entries name.now old records bytes result }
    ensures names { names_in tables.new.entries ≡ names_in tables.old.entries }
    ensures room { spare tables.old ≤ spare tables.new + 1 }
{
    match tables.get_mut(name) {
        Some(table) => grow(table, records, bytes),
        None => unreachable!(),
    }
}

/// Opens a table with its first upload.
fn open_table(tables: &mut NamedTables, frames: &mut Frames, name: String, part: Part)
    requires table_room { 0 < spare tables.old }
    requires frame_room { 0 < spare frames.old }
    requires none { table_in tables.old.entries (string_bytes name) ≡ None }
    requires numbers { length part.schema_frame + part.bytes < 2 ^ 64 }
    ensures opens { OpensTable tables.old.entries tables.new.entries frames.old.entries frames.new.entries
        (string_bytes name) part }
    ensures table_room { spare tables.old ≤ spare tables.new + 1 }
    ensures frame_room { spare frames.old ≤ spare frames.new + 1 }
{
    let number = tables.len();
    let (table, served) = opened(number, part);
    put_table(tables, name, table);
    let place = FrameKey {
        table: number,
        version: 1,
    };
    put_frames(frames, place, served);
}

/// Adds an upload to a table of its shape, and says which version it makes.
fn add_version(tables: &mut NamedTables, frames: &mut Frames, name: &str, part: Part) -> u64
    requires frame_room { 0 < spare frames.old }
    requires there { (old : Held) × (table_in tables.old.entries name.now ≡ Some old) × HasRoomToGrow (Some old) part }
    ensures adds { (old : Held) → table_in tables.old.entries name.now ≡ Some old
        → AddsVersion tables.old.entries tables.new.entries frames.old.entries frames.new.entries name.now part old
        result }
    ensures table_room { spare tables.old ≤ spare tables.new + 1 }
    ensures frame_room { spare frames.old ≤ spare frames.new + 1 }
{
    let place = grow_table(tables, name, part.records, part.bytes);
    put_frames(frames, place, part.frames);
    place.version
}

/// Takes the part of an upload whose id is new to its table, and says what is told of it.
pub(crate) fn place(
    tables: &mut NamedTables,
    frames: &mut Frames,
    name: String,
    part: Part,
) -> Outcome
    requires table_room { 0 < spare tables.old }
    requires frame_room { 0 < spare frames.old }
    requires numbers { HasRoomToGrow (table_in tables.old.entries (string_bytes name)) part }
    ensures places { Places tables.old.entries tables.new.entries frames.old.entries frames.new.entries
        (string_bytes name) part (told result) }
    ensures table_room { spare tables.old ≤ spare tables.new + 1 }
    ensures frame_room { spare frames.old ≤ spare frames.new + 1 }
{
    match is_of_shape(tables, name.as_str(), part.shape.as_slice()) {
        Some(true) => Outcome::Applied(add_version(tables, frames, name.as_str(), part)),
        Some(false) => Outcome::SchemaMismatch,
        None => {
            open_table(tables, frames, name, part);
            Outcome::Applied(1)
        }
    }
}
