//! How an upload is taken. No step takes memory.

ghost use Rattle.std.specs.Prelude.{◌+◌, ◌<◌, ◌≤◌, ◌∷◌, ◌++◌, [], List, length};
ghost use Rattle.std.specs.List.{AllZip};
ghost use Rattle.indexmap.specs.IndexMap.{spare};
ghost use Rattle.table_types.specs.Uploads.{Upload};
ghost use Rattle.table_versions.specs.Ledger.{IsLedger, IsPrepared};
ghost use Rattle.table_versions.specs.State.{agreed_values_limit};

use crate::first::First;
use crate::placing::place;
use crate::prepared::Prepared;
use crate::steps::{Firsts, Frames, NamedTables, has_come, put_first};
use std::collections::VecDeque;
use table_types::laws::tables_grow;

/// Takes an upload behind those that were taken: one whose id has come changes nothing.
pub(crate) fn take(
    firsts: &mut Firsts,
    tables: &mut NamedTables,
    frames: &mut Frames,
    prepared: Prepared,
)
    requires first_room { 0 < spare firsts.old }
    requires table_room { 0 < spare tables.old }
    requires frame_room { 0 < spare frames.old }
    requires ledger { (uploads : List Upload)
        × IsLedger firsts.old.entries tables.old.entries frames.old.entries uploads × (length uploads < agreed_values_limit) }
    requires prepared { (upload : Upload) × IsPrepared prepared upload }
    ensures takes { (uploads : List Upload) (upload : Upload)
        → IsLedger firsts.old.entries tables.old.entries frames.old.entries uploads → IsPrepared prepared upload
        → IsLedger firsts.new.entries tables.new.entries frames.new.entries (uploads ++ upload ∷ []) }
    ensures first_room { spare firsts.old ≤ spare firsts.new + 1 }
    ensures table_room { spare tables.old ≤ spare tables.new + 1 }
    ensures frame_room { spare frames.old ≤ spare frames.new + 1 }
{
    tables_grow();
    let Prepared {
        id,
        text,
        table,
        part,
    } = prepared;
    if has_come(firsts, id) {
        return;
    }
    let outcome = place(tables, frames, table, part);
    put_first(firsts, id, First { text, outcome });
}

/// Takes all of these, one after the other.
pub(crate) fn take_all(
    firsts: &mut Firsts,
    tables: &mut NamedTables,
    frames: &mut Frames,
    mut uploads: VecDeque<Prepared>,
)
    requires first_room { length uploads.items ≤ spare firsts.old }
    requires table_room { length uploads.items ≤ spare tables.old }
    requires frame_room { length uploads.items ≤ spare frames.old }
    requires ledger { (taken more : List Upload)
        × IsLedger firsts.old.entries tables.old.entries frames.old.entries taken
        × AllZip IsPrepared uploads.items more × (length taken + length more ≤ agreed_values_limit) }
    ensures takes { (taken more : List Upload)
        → IsLedger firsts.old.entries tables.old.entries frames.old.entries taken → AllZip IsPrepared uploads.items more
        → IsLedger firsts.new.entries tables.new.entries frames.new.entries (taken ++ more) }
    ensures first_room { spare firsts.old ≤ spare firsts.new + length uploads.items }
    ensures table_room { spare tables.old ≤ spare tables.new + length uploads.items }
    ensures frame_room { spare frames.old ≤ spare frames.new + length uploads.items }
{
    while let Some(prepared) = uploads.pop_front() {
        take(firsts, tables, frames, prepared);
    }
}
