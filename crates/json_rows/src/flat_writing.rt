//! The text of cells with nothing inside them.

ghost use Rattle.std.specs.Prelude.{◌≡◌, ◌≢◌, ◌≤◌, ◌<◌, ◌*◌, ◌^◌, ℕ, ℤ, Bool, List, Some, length, OnOk, OnErr, IfErr, IfSome, IfNone};
ghost use Rattle.serde_json.specs.Data.{Data};
ghost use Rattle.byteorder.specs.Endian.{little_bytes};
ghost use Rattle.batch_types.specs.Layouts.{int_size};
ghost use Rattle.json_rows.specs.declared.fault.CellFault.TheVariants.{OutOfMemory};
ghost use Rattle.json_rows.specs.Numbers.{half_of as half_of_width, StandsAs, whole_told, TellsWhole};
ghost use Rattle.batch_types.specs.Cells.{bit_cell, bytes_cell};
ghost use Rattle.batch_cells.specs.CellViews.{cell_of as seen};
ghost use Rattle.json_rows.specs.declared.form.Form.TheVariants.{Bool as BoolForm};
ghost use Rattle.json_rows.specs.Cells.{TellsBool, TellsText, TellsBytes, TellsFlat};
ghost use Rattle.json_rows.specs.Written.{WritesValue};

use crate::fault::CellFault;
use crate::float_writing::{write_double, write_single};
use crate::form::Form;
use crate::numbers::half_of;
use crate::tokens::{put_bool, put_negative, put_text, put_unsigned};
use batch_cells::Cell;
use byteorder::{ByteOrder, LittleEndian};
use header_types::BitWidth;
use json::Writer;
use std::alloc::Global;
use std::str::from_utf8;

/// The number that stands in the bytes of a number of so many bits.
pub(crate) fn number_in(width: BitWidth, bytes: &[u8]) -> Option<u64>
    ensures some { IfSome result (λ n. (bytes.now ≡ little_bytes (int_size width) n) × (n < 2 * half_of_width width)) }
    ensures none { IfNone result (length bytes.now ≡ int_size width → ⊥) }
{
    match (width, bytes.len()) {
        (BitWidth::Eight, 1) => Some(u64::from(bytes[0])),
        (BitWidth::Sixteen, 2) => Some(u64::from(LittleEndian::read_u16(bytes))),
        (BitWidth::ThirtyTwo, 4) => Some(u64::from(LittleEndian::read_u32(bytes))),
        (BitWidth::SixtyFour, 8) => Some(LittleEndian::read_u64(bytes)),
        _ => None,
    }
}

/// Writes the whole number that stands as this one in bits.
fn put_whole(out: &mut Writer, half: u64, is_signed: bool, number: u64) -> Result<(), CellFault>
    requires half { half ≤ 2 ^ 63 }
    requires within { number < 2 * half }
    ensures written { OnOk result (WritesValue (λ d. (z : ℤ) × (whole_told d ≡ Some z) × StandsAs half is_signed z number)
        0 out.old.tokens out.new.tokens) }
    ensures refused { IfErr result (λ fault. fault ≡ OutOfMemory) }
    ensures before { out.new.before ≡ out.old.before }
    ensures kept { OnErr result (out.new.tokens ≡ out.old.tokens) }
{
    if is_signed && half <= number {
        Ok(put_negative(out, 2 * (half - 1) - (number - 1))?)
    } else {
        Ok(put_unsigned(out, number)?)
    }
}

/// Writes a whole number, by its bytes.
pub(crate) fn write_whole(
    out: &mut Writer,
    width: BitWidth,
    is_signed: bool,
    bytes: &[u8],
) -> Result<(), CellFault>
    ensures written { OnOk result (WritesValue (λ d. TellsWhole width is_signed d bytes.now) 0 out.old.tokens
        out.new.tokens) }
    ensures refused { (d : Data) → TellsWhole width is_signed d bytes.now → IfErr result (λ fault. fault ≡ OutOfMemory) }
    ensures before { out.new.before ≡ out.old.before }
    ensures kept { OnErr result (out.new.tokens ≡ out.old.tokens) }
{
    match number_in(width, bytes) {
        Some(number) => put_whole(out, half_of(width), is_signed, number),
        None => Err(CellFault::WrongKind),
    }
}

/// Writes a text, by its bytes.
pub(crate) fn write_text(out: &mut Writer, bytes: &[u8]) -> Result<(), CellFault>
    ensures written { OnOk result (WritesValue (λ d. TellsText d bytes.now) 0 out.old.tokens out.new.tokens) }
    ensures refused { (d : Data) → TellsText d bytes.now → IfErr result (λ fault. fault ≡ OutOfMemory) }
    ensures before { out.new.before ≡ out.old.before }
    ensures kept { OnErr result (out.new.tokens ≡ out.old.tokens) }
{
    match from_utf8(bytes) {
        Ok(text) => Ok(put_text(out, text)?),
        Err(_) => Err(CellFault::WrongKind),
    }
}

/// Writes bytes as hexadecimal digits, in lower case.
pub(crate) fn write_bytes(alloc: Global, out: &mut Writer, bytes: &[u8]) -> Result<(), CellFault>
    ensures written { OnOk result (WritesValue (λ d. TellsBytes d bytes.now) 0 out.old.tokens out.new.tokens) }
    ensures refused { IfErr result (λ fault. fault ≡ OutOfMemory) }
    ensures before { out.new.before ≡ out.old.before }
    ensures kept { OnErr result (out.new.tokens ≡ out.old.tokens) }
{
    let digits = hex::encode(alloc, bytes)?;
    Ok(put_text(out, &digits)?)
}

/// The bytes of a cell, where it has some.
fn bytes_in(cell: &Cell) -> Option<&[u8]>
    ensures some { IfSome result (λ bytes. seen cell.now ≡ bytes_cell bytes.now) }
    ensures none { IfNone result ((bytes : List ℕ) → seen cell.now ≡ bytes_cell bytes → ⊥) }
{
    match cell {
        Cell::Bytes(bytes) => Some(bytes.as_slice()),
        Cell::Null | Cell::Bit(_) | Cell::List(_) | Cell::Tuple(_) => None,
    }
}

/// The bit of a cell, where it has one.
fn bit_in(cell: &Cell) -> Option<bool>
    ensures some { IfSome result (λ bit. seen cell.now ≡ bit_cell bit) }
    ensures none { IfNone result ((bit : Bool) → seen cell.now ≡ bit_cell bit → ⊥) }
{
    match cell {
        Cell::Bit(bit) => Some(*bit),
        Cell::Null | Cell::Bytes(_) | Cell::List(_) | Cell::Tuple(_) => None,
    }
}

/// Writes so many bytes as hexadecimal digits.
fn write_sized(alloc: Global, out: &mut Writer, size: usize, bytes: &[u8]) -> Result<(), CellFault>
    ensures written { OnOk result (WritesValue (λ d. TellsBytes d bytes.now × (length bytes.now ≡ size)) 0
        out.old.tokens out.new.tokens) }
    ensures refused { length bytes.now ≡ size → IfErr result (λ fault. fault ≡ OutOfMemory) }
    ensures before { out.new.before ≡ out.old.before }
    ensures kept { OnErr result (out.new.tokens ≡ out.old.tokens) }
{
    if bytes.len() == size {
        write_bytes(alloc, out, bytes)
    } else {
        Err(CellFault::WrongKind)
    }
}

/// Writes the cell of these bytes in a form with nothing inside it.
fn write_bytes_of(
    alloc: Global,
    out: &mut Writer,
    form: Form,
    bytes: &[u8],
) -> Result<(), CellFault>
    ensures written { OnOk result (WritesValue (λ d. TellsFlat form d (bytes_cell bytes.now)) 0 out.old.tokens
        out.new.tokens) }
    ensures refused { (d : Data) → TellsFlat form d (bytes_cell bytes.now) → IfErr result (λ fault. fault ≡ OutOfMemory) }
    ensures before { out.new.before ≡ out.old.before }
    ensures kept { OnErr result (out.new.tokens ≡ out.old.tokens) }
{
    match form {
        Form::Whole { width, is_signed } => write_whole(out, width, is_signed, bytes),
        Form::Single => write_single(out, bytes),
        Form::Double => write_double(out, bytes),
        Form::Text => write_text(out, bytes),
        Form::Bytes => write_bytes(alloc, out, bytes),
        Form::SizedBytes { size } => write_sized(alloc, out, size as usize, bytes),
        Form::Null | Form::Bool | Form::List | Form::SizedList { .. } | Form::Struct => {
            Err(CellFault::WrongKind)
        }
        Form::Unsupported => Err(CellFault::Unsupported),
    }
}

/// Writes `true` or `false`.
fn write_bool(out: &mut Writer, cell: &Cell) -> Result<(), CellFault>
    ensures written { OnOk result (WritesValue (λ d. TellsBool d (seen cell.now)) 0 out.old.tokens out.new.tokens) }
    ensures refused { (d : Data) → TellsBool d (seen cell.now) → IfErr result (λ fault. fault ≡ OutOfMemory) }
    ensures before { out.new.before ≡ out.old.before }
    ensures kept { OnErr result (out.new.tokens ≡ out.old.tokens) }
{
    match bit_in(cell) {
        Some(bit) => Ok(put_bool(out, bit)?),
        None => Err(CellFault::WrongKind),
    }
}

/// Writes a cell in a form with nothing inside it, which `true` and `false` are not.
fn write_span(alloc: Global, out: &mut Writer, form: Form, cell: &Cell) -> Result<(), CellFault>
    requires { form ≢ BoolForm }
    ensures written { OnOk result (WritesValue (λ d. TellsFlat form d (seen cell.now)) 0 out.old.tokens out.new.tokens) }
    ensures refused { (d : Data) → TellsFlat form d (seen cell.now) → IfErr result (λ fault. fault ≡ OutOfMemory) }
    ensures before { out.new.before ≡ out.old.before }
    ensures kept { OnErr result (out.new.tokens ≡ out.old.tokens) }
{
    match bytes_in(cell) {
        Some(bytes) => write_bytes_of(alloc, out, form, bytes),
        None => Err(CellFault::WrongKind),
    }
}

/// Writes a cell in a form with nothing inside it.
pub(crate) fn write_flat(
    alloc: Global,
    out: &mut Writer,
    form: Form,
    cell: &Cell,
) -> Result<(), CellFault>
    ensures written { OnOk result (WritesValue (λ d. TellsFlat form d (seen cell.now)) 0 out.old.tokens out.new.tokens) }
    ensures refused { (d : Data) → TellsFlat form d (seen cell.now) → IfErr result (λ fault. fault ≡ OutOfMemory) }
    ensures before { out.new.before ≡ out.old.before }
    ensures kept { OnErr result (out.new.tokens ≡ out.old.tokens) }
{
    match form {
        Form::Bool => write_bool(out, cell),
        Form::Null
        | Form::Whole { .. }
        | Form::Single
        | Form::Double
        | Form::Text
        | Form::Bytes
        | Form::SizedBytes { .. }
        | Form::List
        | Form::SizedList { .. }
        | Form::Struct
        | Form::Unsupported => write_span(alloc, out, form, cell),
    }
}
