//! Floats of JSON and their bytes.

ghost use Rattle.std.specs.Prelude.{◌≡◌, ℕ, List, IfOk, IfErr};
ghost use Rattle.serde_json.specs.View.{view};
ghost use Rattle.json_rows.specs.declared.fault.CellFault.TheVariants.{OutOfMemory};
ghost use Rattle.json_rows.specs.Numbers.{TellsDouble, TellsFiniteDouble, TellsFiniteSingle, TellsSingle};
ghost use Rattle.json_rows.specs.Numbers.{double_limit, single_limit};
ghost use Rattle.json_rows.specs.declared.floats.TheConstants.{DOUBLE_LIMIT, SINGLE_LIMIT};

use crate::exact::is_held;
use crate::fault::CellFault;
use crate::non_finite::NonFinite;
use crate::numbers::bytes_of;
use serde_json::Value;
use std::alloc::Global;
use std::num::nearest_f64_to_f32;

/// What the digits of a float of eight bytes are below (IEEE 754, table 3.5: 53 bits).
const DOUBLE_LIMIT: u128 = 9_007_199_254_740_992;

/// The same of a float of four bytes, of 24 bits.
const SINGLE_LIMIT: u128 = 16_777_216;

/// The eight bytes of the float that a number is. A whole number that it is not exactly is refused.
fn finite_double_bytes(alloc: Global, value: &Value) -> Result<Vec<u8>, CellFault>
    ensures read { IfOk result (λ bytes. TellsFiniteDouble (view value.now) bytes.items) }
    ensures refused { (bytes : List ℕ) → TellsFiniteDouble (view value.now) bytes
        → IfErr result (λ fault. fault ≡ OutOfMemory) }
{
    let Some(double) = value.as_f64() else {
        return Err(CellFault::WrongKind);
    };
    if !double.is_finite() || !is_held(value, DOUBLE_LIMIT) {
        return Err(CellFault::OutOfRange);
    }
    Ok(bytes_of(alloc, double.to_bits(), 8)?)
}

/// The eight bytes of the float that a value tells.
pub(crate) fn double_bytes(alloc: Global, value: &Value) -> Result<Vec<u8>, CellFault>
    ensures read { IfOk result (λ bytes. TellsDouble (view value.now) bytes.items) }
    ensures refused { (bytes : List ℕ) → TellsDouble (view value.now) bytes
        → IfErr result (λ fault. fault ≡ OutOfMemory) }
{
    match NonFinite::told_by(value) {
        Some(told) => Ok(bytes_of(alloc, told.double_bits(), 8)?),
        None => finite_double_bytes(alloc, value),
    }
}

/// The four bytes of the float that a number is. A whole number that it is not exactly is refused.
fn finite_single_bytes(alloc: Global, value: &Value) -> Result<Vec<u8>, CellFault>
    ensures read { IfOk result (λ bytes. TellsFiniteSingle (view value.now) bytes.items) }
    ensures refused { (bytes : List ℕ) → TellsFiniteSingle (view value.now) bytes
        → IfErr result (λ fault. fault ≡ OutOfMemory) }
{
    let Some(double) = value.as_f64() else {
        return Err(CellFault::WrongKind);
    };
    if !double.is_finite() || !is_held(value, SINGLE_LIMIT) {
        return Err(CellFault::OutOfRange);
    }
    let single = nearest_f64_to_f32(double);
    if !single.is_finite() {
        return Err(CellFault::OutOfRange);
    }
    Ok(bytes_of(alloc, u64::from(single.to_bits()), 4)?)
}

/// The four bytes of the float that a value tells.
pub(crate) fn single_bytes(alloc: Global, value: &Value) -> Result<Vec<u8>, CellFault>
    ensures read { IfOk result (λ bytes. TellsSingle (view value.now) bytes.items) }
    ensures refused { (bytes : List ℕ) → TellsSingle (view value.now) bytes
        → IfErr result (λ fault. fault ≡ OutOfMemory) }
{
    match NonFinite::told_by(value) {
        Some(told) => Ok(bytes_of(alloc, told.single_bits(), 4)?),
        None => finite_single_bytes(alloc, value),
    }
}
