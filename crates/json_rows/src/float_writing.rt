//! The text of floats.

ghost use Rattle.std.specs.Prelude.{◌≡◌, OnOk, OnErr, IfErr};
ghost use Rattle.serde_json.specs.Data.{Data};
ghost use Rattle.byteorder.specs.Endian.{little_bytes};
ghost use Rattle.json_rows.specs.declared.fault.CellFault.TheVariants.{OutOfMemory};
ghost use Rattle.json_rows.specs.Numbers.{TellsDouble, TellsFiniteDouble, TellsFiniteSingle, TellsSingle};
ghost use Rattle.json_rows.specs.Written.{WritesValue};

use crate::fault::CellFault;
use crate::flat_writing::number_in;
use crate::non_finite::NonFinite;
use crate::tokens::{put_float, put_text};
use header_types::BitWidth;
use json::Writer;
use std::num::{f32_from_bits_with_nan, f64_from_bits_with_nan};

/// Writes a float of eight bytes that is a finite number.
fn write_finite_double(out: &mut Writer, bits: u64) -> Result<(), CellFault>
    ensures written { OnOk result (WritesValue (λ d. TellsFiniteDouble d (little_bytes 8 bits)) 0 out.old.tokens
        out.new.tokens) }
    ensures refused { (d : Data) → TellsFiniteDouble d (little_bytes 8 bits) → IfErr result (λ fault. fault ≡ OutOfMemory) }
    ensures before { out.new.before ≡ out.old.before }
    ensures kept { OnErr result (out.new.tokens ≡ out.old.tokens) }
{
    let double = f64_from_bits_with_nan(bits);
    if !double.is_finite() {
        return Err(CellFault::OutOfRange);
    }
    Ok(put_float(out, double)?)
}

/// Writes a float of eight bytes.
pub(crate) fn write_double(out: &mut Writer, bytes: &[u8]) -> Result<(), CellFault>
    ensures written { OnOk result (WritesValue (λ d. TellsDouble d bytes.now) 0 out.old.tokens out.new.tokens) }
    ensures refused { (d : Data) → TellsDouble d bytes.now → IfErr result (λ fault. fault ≡ OutOfMemory) }
    ensures before { out.new.before ≡ out.old.before }
    ensures kept { OnErr result (out.new.tokens ≡ out.old.tokens) }
{
    let Some(bits) = number_in(BitWidth::SixtyFour, bytes) else {
        return Err(CellFault::WrongKind);
    };
    match NonFinite::of_double_bits(bits) {
        Some(told) => Ok(put_text(out, told.text())?),
        None => write_finite_double(out, bits),
    }
}

/// Writes a float of four bytes that is a finite number.
fn write_finite_single(out: &mut Writer, bits: u32) -> Result<(), CellFault>
    ensures written { OnOk result (WritesValue (λ d. TellsFiniteSingle d (little_bytes 4 bits)) 0 out.old.tokens
        out.new.tokens) }
    ensures refused { (d : Data) → TellsFiniteSingle d (little_bytes 4 bits) → IfErr result (λ fault. fault ≡ OutOfMemory) }
    ensures before { out.new.before ≡ out.old.before }
    ensures kept { OnErr result (out.new.tokens ≡ out.old.tokens) }
{
    let single = f32_from_bits_with_nan(bits);
    if !single.is_finite() {
        return Err(CellFault::OutOfRange);
    }
    Ok(put_float(out, f64::from(single))?)
}

/// Writes a float of four bytes.
pub(crate) fn write_single(out: &mut Writer, bytes: &[u8]) -> Result<(), CellFault>
    ensures written { OnOk result (WritesValue (λ d. TellsSingle d bytes.now) 0 out.old.tokens out.new.tokens) }
    ensures refused { (d : Data) → TellsSingle d bytes.now → IfErr result (λ fault. fault ≡ OutOfMemory) }
    ensures before { out.new.before ≡ out.old.before }
    ensures kept { OnErr result (out.new.tokens ≡ out.old.tokens) }
{
    let Some(bits) = number_in(BitWidth::ThirtyTwo, bytes) else {
        return Err(CellFault::WrongKind);
    };
    match NonFinite::of_single_bits(bits) {
        Some(told) => Ok(put_text(out, told.text())?),
        None => write_finite_single(out, bits as u32),
    }
}
