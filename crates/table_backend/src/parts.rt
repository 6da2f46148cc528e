//! The parts of what a backend holds and answers.

ghost use Rattle.std.specs.Prelude.{◌≡◌, ◌≢◌, List, [], IfOk, IfErr, map, string_bytes};
ghost use Rattle.std.specs.List.{AllZip};
ghost use Rattle.ballots.specs.declared.value.Value.{Value as Agreed};
ghost use Rattle.ballots.specs.declared.value.Value.TheVariants as agreed;
ghost use Rattle.table_types.specs.Uploads.{Upload as Uploaded};
ghost use Rattle.table_types.specs.Tables.{effective, table_names};
ghost use Rattle.table_versions.specs.Values.{AreUploadsIn};
ghost use Rattle.table_versions.specs.State.{HasTaken};
ghost use Rattle.call_protocol.specs.declared.back_fault.BackFault.TheVariants.{OutOfMemory};
ghost use Rattle.table_backend.specs.Backing.{TellsLatest};

use ballots::{UploadBytes, Value};
use call_protocol::BackFault;
use flight_calls::TableDescription;
use std::alloc::{AllocError, Global};
use table_versions::Tables;
use table_versions::laws::tables_have_effective_uploads;
use uploads::Upload;

/// The value of an upload, which shares its bytes.
pub(crate) fn value_of(upload: &Upload) -> Result<Value, AllocError>
    ensures { IfOk result (λ value. value ≡ agreed.Upload upload.now) }
{
    let bytes = upload.encode()?;
    match UploadBytes::new(bytes) {
        Some(bytes) => Ok(Value::Upload(bytes)),
        None => unreachable!(),
    }
}

/// What is told of a table that there is, with these locations.
fn told(
    alloc: Global,
    tables: &Tables,
    table: &str,
    locations: &[String],
) -> Result<TableDescription, BackFault>
    requires { (values : List Agreed) × (uploads : List Uploaded) × HasTaken tables.now values
        × AreUploadsIn values uploads × (effective table.now uploads ≢ []) }
    ensures told { IfOk result (λ found. (values : List Agreed) (uploads : List Uploaded) → HasTaken tables.now values
        → AreUploadsIn values uploads
        → TellsLatest (map string_bytes locations.now) table.now (effective table.now uploads) found) }
    ensures fault { IfErr result (λ fault. fault ≡ OutOfMemory) }
{
    match tables.latest(table)? {
        Some(info) => Ok(TableDescription::of(alloc, info, locations)?),
        None => unreachable!(),
    }
}

/// What is told of each of these tables, which are all that there are, with these locations.
pub(crate) fn all_described(
    alloc: Global,
    tables: &Tables,
    names: &[String],
    locations: &[String],
) -> Result<Vec<TableDescription>, BackFault>
    requires { (values : List Agreed) × (uploads : List Uploaded) × HasTaken tables.now values
        × AreUploadsIn values uploads × (map string_bytes names.now ≡ table_names uploads) }
    ensures told { IfOk result (λ all. (values : List Agreed) (uploads : List Uploaded) → HasTaken tables.now values
        → AreUploadsIn values uploads
        → AllZip (λ name found. TellsLatest (map string_bytes locations.now) name (effective name uploads) found)
        (map string_bytes names.now) all.items) }
    ensures fault { IfErr result (λ fault. fault ≡ OutOfMemory) }
{
    tables_have_effective_uploads();
    let mut all = Vec::new(alloc);
    for name in names {
        let described = told(alloc, tables, name, locations)?;
        match all.push(described) {
            Ok(()) => {}
            Err(_) => return Err(BackFault::OutOfMemory),
        }
    }
    Ok(all)
}
