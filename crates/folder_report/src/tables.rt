//! The tables that values make.

ghost use Rattle.std.specs.Prelude.{◌≡◌, ◌≤◌, List, length, map, IfOk};
ghost use Rattle.ballots.specs.declared.value.Value.{Value as Agreed};
ghost use Rattle.table_types.specs.Tables.{effective, table_names};
ghost use Rattle.table_types.specs.Uploads.{Upload};
ghost use Rattle.table_versions.specs.State.{HasTaken, agreed_values_limit};
ghost use Rattle.table_versions.specs.Values.{AreUploadsIn};
ghost use Rattle.folder_report.specs.Reporting.{TellsTables, latest_in, told_table};

use crate::report::TableReport;
use ballots::{OutOfMemory, Value};
use std::alloc::Global;
use std::hash::RandomState;
use table_versions::Tables;
use table_versions::laws::same_tables_hold_the_same;

/// The tables of these values, with their latest versions.
pub(crate) fn tables_of(
    alloc: Global,
    hashing: RandomState,
    values: &[Value],
) -> Result<Vec<TableReport>, OutOfMemory>
    requires { length values.now ≤ agreed_values_limit }
    ensures { IfOk result (λ tables. TellsTables values.now tables.items) }
{
    let tables = tables_with(alloc, hashing, values)?;
    tables_told(alloc, &tables)
}

// The tables that took these values.
fn tables_with(alloc: Global, hashing: RandomState, values: &[Value]) -> Result<Tables, OutOfMemory>
    requires { length values.now ≤ agreed_values_limit }
    ensures { IfOk result (λ tables. HasTaken tables values.now) }
{
    same_tables_hold_the_same();
    let mut tables = Tables::new(alloc, hashing);
    let ready = tables.ready(values)?;
    tables.apply(ready);
    Ok(tables)
}

// What is told of the tables, in their order.
fn tables_told(alloc: Global, tables: &Tables) -> Result<Vec<TableReport>, OutOfMemory>
    ensures { (values : List Agreed) (uploads : List Upload) → HasTaken tables.now values
        → AreUploadsIn values uploads
        → IfOk result (λ told. map told_table told.items ≡ map (latest_in uploads) (table_names uploads)) }
{
    let names = tables.tables()?;
    let mut told = Vec::new(alloc);
    for name in &names {
        told.push(table_told(alloc, tables, name.as_str())?)?;
    }
    Ok(told)
}

// What is told of the table of this name.
fn table_told(alloc: Global, tables: &Tables, name: &str) -> Result<TableReport, OutOfMemory>
    ensures { (values : List Agreed) (uploads : List Upload) → HasTaken tables.now values
        → AreUploadsIn values uploads → IfOk result (λ told. told_table told ≡ latest_in uploads name.now) }
{
    let version = version_of(tables, name)?;
    let name = String::from_str(alloc, name)?;
    Ok(TableReport { name, version })
}

// The latest version of the table of this name.
fn version_of(tables: &Tables, name: &str) -> Result<u64, OutOfMemory>
    ensures { (values : List Agreed) (uploads : List Upload) → HasTaken tables.now values
        → AreUploadsIn values uploads → IfOk result (λ version. version ≡ length (effective name.now uploads)) }
{
    match tables.latest(name)? {
        Some(latest) => Ok(latest.version),
        None => Ok(0),
    }
}
