//! Cells with nothing inside them.

ghost use Rattle.std.specs.Prelude.{◌≡◌, ℕ, List, length, IfOk, IfErr};
ghost use Rattle.serde_json.specs.View.{view};
ghost use Rattle.batch_types.specs.Cells.{Cell as Seen};
ghost use Rattle.batch_cells.specs.CellViews.{cell_of};
ghost use Rattle.json_rows.specs.declared.fault.CellFault.TheVariants.{OutOfMemory};
ghost use Rattle.json_rows.specs.Cells.{TellsBool, TellsText, TellsBytes, TellsFlat};

use crate::fault::CellFault;
use crate::floats::{double_bytes, single_bytes};
use crate::form::Form;
use crate::numbers::whole_bytes;
use batch_cells::Cell;
use hex::FromHexError;
use serde_json::Value;
use std::alloc::Global;

/// The cell of `true` or `false`.
fn bool_cell(value: &Value) -> Result<Cell, CellFault>
    ensures read { IfOk result (λ cell. TellsBool (view value.now) (cell_of cell)) }
    ensures refused { (cell : Seen) → TellsBool (view value.now) cell → IfErr result (λ fault. fault ≡ OutOfMemory) }
{
    match value.as_bool() {
        Some(bit) => Ok(Cell::Bit(bit)),
        None => Err(CellFault::WrongKind),
    }
}

/// The bytes of a text.
fn text_bytes(alloc: Global, value: &Value) -> Result<Vec<u8>, CellFault>
    ensures read { IfOk result (λ bytes. TellsText (view value.now) bytes.items) }
    ensures refused { (bytes : List ℕ) → TellsText (view value.now) bytes
        → IfErr result (λ fault. fault ≡ OutOfMemory) }
{
    match value.as_str() {
        Some(text) => Ok(Vec::from_slice(alloc, text.as_bytes())?),
        None => Err(CellFault::WrongKind),
    }
}

/// The bytes of hexadecimal digits.
fn hex_bytes(alloc: Global, value: &Value) -> Result<Vec<u8>, CellFault>
    ensures read { IfOk result (λ bytes. TellsBytes (view value.now) bytes.items) }
    ensures refused { (bytes : List ℕ) → TellsBytes (view value.now) bytes
        → IfErr result (λ fault. fault ≡ OutOfMemory) }
{
    let Some(digits) = value.as_str() else {
        return Err(CellFault::WrongKind);
    };
    match hex::decode(alloc, digits) {
        Ok(bytes) => Ok(bytes),
        Err(FromHexError::OutOfMemory) => Err(CellFault::OutOfMemory),
        Err(_) => Err(CellFault::WrongKind),
    }
}

/// So many bytes of hexadecimal digits.
fn sized_bytes(alloc: Global, size: usize, value: &Value) -> Result<Vec<u8>, CellFault>
    ensures read { IfOk result (λ bytes. TellsBytes (view value.now) bytes.items × (length bytes.items ≡ size)) }
    ensures refused { (bytes : List ℕ) → TellsBytes (view value.now) bytes → length bytes ≡ size
        → IfErr result (λ fault. fault ≡ OutOfMemory) }
{
    let bytes = hex_bytes(alloc, value)?;
    if bytes.len() == size {
        Ok(bytes)
    } else {
        Err(CellFault::WrongKind)
    }
}

/// The cell that a value tells in a form with nothing inside it.
pub(crate) fn flat_cell(alloc: Global, form: Form, value: &Value) -> Result<Cell, CellFault>
    ensures read { IfOk result (λ cell. TellsFlat form (view value.now) (cell_of cell)) }
    ensures refused { (cell : Seen) → TellsFlat form (view value.now) cell → IfErr result (λ fault. fault ≡ OutOfMemory) }
{
    match form {
        Form::Bool => bool_cell(value),
        Form::Whole { width, is_signed } => {
            Ok(Cell::Bytes(whole_bytes(alloc, width, is_signed, value)?))
        }
        Form::Single => Ok(Cell::Bytes(single_bytes(alloc, value)?)),
        Form::Double => Ok(Cell::Bytes(double_bytes(alloc, value)?)),
        Form::Text => Ok(Cell::Bytes(text_bytes(alloc, value)?)),
        Form::Bytes => Ok(Cell::Bytes(hex_bytes(alloc, value)?)),
        Form::SizedBytes { size } => Ok(Cell::Bytes(sized_bytes(alloc, size as usize, value)?)),
        Form::Null | Form::List | Form::SizedList { .. } | Form::Struct => {
            Err(CellFault::WrongKind)
        }
        Form::Unsupported => Err(CellFault::Unsupported),
    }
}
