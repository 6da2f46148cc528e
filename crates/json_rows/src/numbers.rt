//! Whole numbers of JSON and their bytes.

ghost use Rattle.std.specs.Prelude.{◌≡◌, ◌≤◌, ◌<◌, ◌^◌, ℕ, true, false, List, Some, IfOk, IfErr, IfSome};
ghost use Rattle.serde_json.specs.View.{view};
ghost use Rattle.byteorder.specs.Endian.{little_bytes};
ghost use Rattle.batch_types.specs.Layouts.{int_size};
ghost use Rattle.json_rows.specs.declared.fault.CellFault.TheVariants.{OutOfMemory};
ghost use Rattle.json_rows.specs.Numbers.{half_of as half_of_width, StandsAs, TellsWhole, whole_told};

use crate::fault::CellFault;
use header_types::BitWidth;
use serde_json::Value;
use std::alloc::{AllocError, Global};

/// How many bytes a number of so many bits has.
fn size_of(width: BitWidth) -> usize
    ensures size { result ≡ int_size width }
    ensures small { result ≤ 8 }
{
    match width {
        BitWidth::Eight => 1,
        BitWidth::Sixteen => 2,
        BitWidth::ThirtyTwo => 4,
        BitWidth::SixtyFour => 8,
    }
}

/// Half as many numbers as there are of so many bits.
pub(crate) fn half_of(width: BitWidth) -> u64
    ensures half { result ≡ half_of_width width }
    ensures most { result ≤ 2 ^ 63 }
{
    match width {
        BitWidth::Eight => 0x80,
        BitWidth::Sixteen => 0x8000,
        BitWidth::ThirtyTwo => 0x8000_0000,
        BitWidth::SixtyFour => 0x8000_0000_0000_0000,
    }
}

/// The whole number that a value is.
pub(crate) fn whole_of(value: &Value) -> Option<i128>
    ensures { result ≡ whole_told (view value.now) }
{
    match value.as_u64() {
        Some(number) => Some(i128::from(number)),
        None => value.as_i64().map(i128::from),
    }
}

/// The number of two's complement that a whole number stands as in bits.
fn signed_in(half: u64, whole: i128) -> Option<u64>
    requires { half ≤ 2 ^ 63 }
    ensures read { IfSome result (StandsAs half true whole) }
    ensures only { (n : ℕ) → StandsAs half true whole n → result ≡ Some n }
{
    let half = i128::from(half);
    if 0 <= whole && whole < half {
        Some(whole as u64)
    } else if -half <= whole && whole < 0 {
        Some((whole + 2 * half) as u64)
    } else {
        None
    }
}

/// The number without a sign that a whole number stands as in bits.
fn unsigned_in(half: u64, whole: i128) -> Option<u64>
    requires { half ≤ 2 ^ 63 }
    ensures read { IfSome result (StandsAs half false whole) }
    ensures only { (n : ℕ) → StandsAs half false whole n → result ≡ Some n }
{
    let half = i128::from(half);
    if 0 <= whole && whole < 2 * half {
        Some(whole as u64)
    } else {
        None
    }
}

/// The number that a whole number stands as in bits.
fn stands_in(half: u64, is_signed: bool, whole: i128) -> Option<u64>
    requires { half ≤ 2 ^ 63 }
    ensures read { IfSome result (StandsAs half is_signed whole) }
    ensures only { (n : ℕ) → StandsAs half is_signed whole n → result ≡ Some n }
{
    if is_signed {
        signed_in(half, whole)
    } else {
        unsigned_in(half, whole)
    }
}

/// So many of the lowest bytes of a number, the lowest first.
pub(crate) fn bytes_of(alloc: Global, number: u64, size: usize) -> Result<Vec<u8>, AllocError>
    requires { size ≤ 8 }
    ensures { IfOk result (λ bytes. bytes.items ≡ little_bytes size number) }
{
    Vec::from_slice(alloc, &number.to_le_bytes()[..size])
}

/// The bytes of the whole number that a value is.
pub(crate) fn whole_bytes(
    alloc: Global,
    width: BitWidth,
    is_signed: bool,
    value: &Value,
) -> Result<Vec<u8>, CellFault>
    ensures read { IfOk result (λ bytes. TellsWhole width is_signed (view value.now) bytes.items) }
    ensures refused { (bytes : List ℕ) → TellsWhole width is_signed (view value.now) bytes
        → IfErr result (λ fault. fault ≡ OutOfMemory) }
{
    let Some(whole) = whole_of(value) else {
        return Err(CellFault::WrongKind);
    };
    match stands_in(half_of(width), is_signed, whole) {
        Some(number) => Ok(bytes_of(alloc, number, size_of(width))?),
        None => Err(CellFault::OutOfRange),
    }
}
