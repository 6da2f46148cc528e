//! Rows from a text.

ghost use Rattle.std.specs.Prelude.{◌≡◌, ◌≤◌, List, length, map, IfOk, IfErr, IsErrOf, OnOk, IsTrue};
ghost use Rattle.std.specs.List.{AllByRecursion};
ghost use Rattle.serde_json.specs.Data.{Data};
ghost use Rattle.header_types.specs.Fields.{SchemaTree};
ghost use Rattle.header_types.specs.Views.{schema_of};
ghost use Rattle.batch_types.specs.Canonical.{canonical_body};
ghost use Rattle.batch_types.specs.Shapes.{shapes_of};
ghost use Rattle.batch_columns.specs.Batches.{IsBatchOf, rows_of};
ghost use Rattle.batch_columns.specs.Held.{shapes_held};
ghost use Rattle.json_rows.specs.declared.fault.JsonFault.TheVariants as JsonFault;
ghost use Rattle.json_rows.specs.Written.{HaveOwnNames};
ghost use Rattle.json_rows.specs.Lines.{IsOfLines, TellsBatches, TellsSomeRow, TellsValues};

use crate::fault::JsonFault;
use crate::lines::take_values;
use crate::names::have_own_names;
use crate::rows::batch_of_values;
use batch_columns::Batch;
use header_types::Schema;
use record_batches::body_length;
use std::alloc::Global;

/// How many rows a batch has at most that is read from lines.
pub const MOST_ROWS: usize = 65_536;

/// How many bytes the body of such a batch has at most. A message of the service has 4,194,304; what is left has room for the
/// header of any batch.
pub const BODY_LIMIT: u64 = 4_128_768;

/// Whether the body of a batch has no more than [`BODY_LIMIT`] bytes.
fn is_short(batch: &Batch) -> bool
    ensures { IsTrue result → (schema : SchemaTree) → shapes_held batch.now.columns.items ≡ shapes_of schema.fields
        → length (canonical_body schema (rows_of batch.now)) ≤ 4128768 }
{
    match body_length(batch) {
        Some(length) => length <= BODY_LIMIT,
        None => false,
    }
}

/// The batches of the rows that a text tells, a line each (RFC 8259; JSON Lines): each line is an object with a member for
/// each field of the schema, in any order, where a missing one is a null. A line feed ends a line, also the last one, where
/// it may be missing. A batch has up to [`MOST_ROWS`] rows and a body of up to [`BODY_LIMIT`] bytes; a text with no line has no
/// batch.
///
/// `SameNames` is told where two fields side by side have one name, and `BadSchema` where a field has not as many fields
/// inside it as its type needs. `Line` and `Cell` are told only of a text that does not tell rows: the first line that is no
/// value of JSON, or is no object of the fields, or, of the lines up to there, a member that tells no cell of its field.
/// `TooLarge` is told of a row that has no room in a batch.
pub fn read_rows(alloc: Global, schema: &Schema, text: &[u8]) -> Result<Vec<Batch>, JsonFault>
    ensures read { IfOk result (λ batches. (values : List Data) × TellsValues text.now values
        × TellsBatches (schema_of schema.now).fields values (map rows_of batches.items)) }
    ensures of_schema { IfOk result (λ batches. AllByRecursion (IsBatchOf (schema_of schema.now)) batches.items) }
    ensures short { IfOk result (λ batches. AllByRecursion
        (λ batch. length (canonical_body (schema_of schema.now) (rows_of batch)) ≤ 4128768) batches.items) }
    ensures names { OnOk result (HaveOwnNames (schema_of schema.now).fields) }
    ensures same { IsErrOf result JsonFault.SameNames → HaveOwnNames (schema_of schema.now).fields → ⊥ }
    ensures some { IsErrOf result JsonFault.NoRows → ⊥ }
    ensures refused { (values : List Data) → TellsValues text.now values
        → AllByRecursion (TellsSomeRow (schema_of schema.now).fields) values → IfErr result (λ fault. IsOfLines fault → ⊥) }
{
    if !have_own_names(&schema.fields) {
        return Err(JsonFault::SameNames);
    }
    let mut batches = Vec::new(alloc);
    let mut rest = text;
    let mut line = 1_u64;
    let mut most = MOST_ROWS;
    while !rest.is_empty() {
        let taken = take_values(alloc, rest, line, most)?;
        let batch = batch_of_values(alloc, schema, &taken.values, line)?;
        if is_short(&batch) {
            line = line.saturating_add(batch.rows);
            rest = taken.rest;
            if batches.push(batch).is_err() {
                return Err(JsonFault::OutOfMemory);
            }
        } else if taken.values.len() < 2 {
            return Err(JsonFault::TooLarge { line });
        } else {
            most = taken.values.len() / 2;
        }
    }
    Ok(batches)
}
