//! What is told of tables.

ghost use Rattle.std.specs.Prelude.{◌≡◌, ◌≢◌, ◌<◌, [], List, Some, length, map, slice_get, string_bytes, IfOk, OnErr};
ghost use Rattle.table_types.specs.Uploads.{Upload};
ghost use Rattle.table_types.specs.Tables.{effective};
ghost use Rattle.table_versions.specs.Info.{IsLatest, Describes};
ghost use Rattle.table_versions.specs.Ledger.{FirstEntries, FrameEntries, IsLedger, names_in};

use crate::info::TableInfo;
use crate::steps::NamedTables;
use crate::table::Table;
use ballots::OutOfMemory;
use std::alloc::Global;

/// What is told of a table.
fn info_of(alloc: Global, name: &str, table: &Table) -> Result<TableInfo, OutOfMemory>
    ensures { IfOk result (Describes name.now table.now) }
{
    let mut schema = Vec::new(alloc);
    schema.extend_from_slice(table.schema.as_slice())?;
    let name = String::from_str(alloc, name)?;
    Ok(TableInfo {
        table: name,
        version: table.version,
        records: table.records,
        total_bytes: table.total_bytes,
        schema,
    })
}

/// The latest version of the table of this name, `None` where there is none.
pub(crate) fn latest_by(
    alloc: Global,
    tables: &NamedTables,
    name: &str,
) -> Result<Option<TableInfo>, OutOfMemory>
    requires { (firsts : FirstEntries) × (frames : FrameEntries) × (uploads : List Upload)
        × IsLedger firsts tables.now.entries frames uploads }
    ensures latest { (firsts : FirstEntries) (frames : FrameEntries) (uploads : List Upload)
        → IsLedger firsts tables.now.entries frames uploads
        → IfOk result (λ info. IsLatest info name.now (effective name.now uploads)) }
    ensures memory { OnErr result ((firsts : FirstEntries) (frames : FrameEntries) (uploads : List Upload)
        → IsLedger firsts tables.now.entries frames uploads → effective name.now uploads ≢ []) }
{
    match tables.get(name) {
        Some(table) => Ok(Some(info_of(alloc, name, table)?)),
        None => Ok(None),
    }
}

/// A copy of the name of the table with this number.
fn name_at(alloc: Global, tables: &NamedTables, number: usize) -> Result<String, OutOfMemory>
    requires { number < length (names_in tables.now.entries) }
    ensures { IfOk result (λ name. slice_get (names_in tables.now.entries) number ≡ Some (string_bytes name)) }
{
    match tables.get_index(number) {
        Some((name, _)) => String::from_str(alloc, name.as_str()),
        None => unreachable!(),
    }
}

/// Copies of the names of all tables, in their order.
pub(crate) fn names_by(alloc: Global, tables: &NamedTables) -> Result<Vec<String>, OutOfMemory>
    ensures names { IfOk result (λ names. map string_bytes names.items ≡ names_in tables.now.entries) }
    ensures memory { OnErr result (names_in tables.now.entries ≢ []) }
{
    let mut names = Vec::new(alloc);
    for number in 0..tables.len() {
        let name = name_at(alloc, tables, number)?;
        names.push(name)?;
    }
    Ok(names)
}
