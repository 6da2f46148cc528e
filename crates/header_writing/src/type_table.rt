//! The tables of types, written (Apache Arrow, "Schema.fbs", the union `Type`). The numbers of a vtable are its size,
//! its table's size, and where each field stands in the table, 0 for an absent one.

ghost use Rattle.std.specs.Prelude.{◌≡◌, ◌≤◌, ◌+◌, length, OnOk, string_bytes};
ghost use Rattle.std.specs.Option.{option_map};
ghost use Rattle.std.specs.Int.{w32};
ghost use Rattle.std.specs.Int.RustNames.{FitsSigned};
ghost use Rattle.header_types.specs.Fields.{int_type, decimal_type, time_type, timestamp_type};
ghost use Rattle.header_types.specs.TypeIds.{time_bits};
ghost use Rattle.header_writing.specs.Canonical.{bits_of, precision_number, decimal_bits, date_unit_number};
ghost use Rattle.header_writing.specs.Canonical.{time_unit_number, type_id_of, int32_number, empty_table, short_table};
ghost use Rattle.header_writing.specs.Canonical.{word_table, timestamp_table, type_object};
ghost use Rattle.header_writing.specs.Filling.{with_object};
ghost use Rattle.header_types.specs.Views.{data_type_of};
ghost use Rattle.header_writing.specs.Written.{FitsDataType};

use crate::layout::{Cell, REFERENCE, put_string, put_table};
use header_types::{BitWidth, DateUnit, DecimalWidth, Precision, TimeUnit, Ty};
use std::alloc::AllocError;

/// The number of the type in the union `Type`.
pub(crate) fn type_id(ty: &Ty) -> u8
    ensures { result ≡ type_id_of (data_type_of ty.now) }
{
    match ty {
        Ty::Null => 1,
        Ty::Int { .. } => 2,
        Ty::FloatingPoint { .. } => 3,
        Ty::Binary => 4,
        Ty::Utf8 => 5,
        Ty::Bool => 6,
        Ty::Decimal { .. } => 7,
        Ty::Date { .. } => 8,
        Ty::Time { .. } => 9,
        Ty::Timestamp { .. } => 10,
        Ty::List => 12,
        Ty::Struct => 13,
        Ty::FixedSizeBinary { .. } => 15,
        Ty::FixedSizeList { .. } => 16,
        Ty::Duration { .. } => 18,
    }
}

/// How many bits an integer has.
fn bits_number(width: BitWidth) -> u32
    ensures { result ≡ bits_of width }
{
    match width {
        BitWidth::Eight => 8,
        BitWidth::Sixteen => 16,
        BitWidth::ThirtyTwo => 32,
        BitWidth::SixtyFour => 64,
    }
}

/// The number of the precision in the enum `Precision`.
fn number_of_precision(precision: Precision) -> u16
    ensures { result ≡ precision_number precision }
{
    match precision {
        Precision::Half => 0,
        Precision::Single => 1,
        Precision::Double => 2,
    }
}

/// How many bits a decimal number has.
fn bits_of_decimal(width: DecimalWidth) -> u32
    ensures { result ≡ decimal_bits width }
{
    match width {
        DecimalWidth::OneHundredTwentyEight => 128,
        DecimalWidth::TwoHundredFiftySix => 256,
    }
}

/// The number of the unit in the enum `DateUnit`.
fn number_of_date_unit(unit: DateUnit) -> u16
    ensures { result ≡ date_unit_number unit }
{
    match unit {
        DateUnit::Day => 0,
        DateUnit::Millisecond => 1,
    }
}

/// The number of the unit in the enum `TimeUnit`.
fn number_of_time_unit(unit: TimeUnit) -> u16
    ensures { result ≡ time_unit_number unit }
{
    match unit {
        TimeUnit::Second => 0,
        TimeUnit::Millisecond => 1,
        TimeUnit::Microsecond => 2,
        TimeUnit::Nanosecond => 3,
    }
}

/// How many bits a time of the day has: the table `Time` allows no other number beside each unit.
fn time_width(unit: TimeUnit) -> u32
    ensures { result ≡ time_bits unit }
{
    match unit {
        TimeUnit::Second | TimeUnit::Millisecond => 32,
        TimeUnit::Microsecond | TimeUnit::Nanosecond => 64,
    }
}

/// Writes the table of a type without parameters.
fn put_empty(text: &mut Vec<u8>, from: usize) -> Result<(), AllocError>
    requires within { from + 4 ≤ length text.old.items }
    ensures put { OnOk result (text.new.items ≡ with_object text.old.items from empty_table) }
{
    put_table(text, from, &[4, 4], &[])?;
    Ok(())
}

/// Writes the table of a type whose one parameter has two bytes.
fn put_short(text: &mut Vec<u8>, from: usize, number: u16) -> Result<(), AllocError>
    requires within { from + 4 ≤ length text.old.items }
    ensures put { OnOk result (text.new.items ≡ with_object text.old.items from (short_table number)) }
{
    put_table(
        text,
        from,
        &[6, 8, 4],
        &[Cell::Short(number), Cell::Short(0)],
    )?;
    Ok(())
}

/// Writes the table of a type whose one parameter has four bytes, a number of two's complement.
fn put_int(text: &mut Vec<u8>, from: usize, number: i32) -> Result<(), AllocError>
    requires within { from + 4 ≤ length text.old.items }
    ensures put { OnOk result (text.new.items ≡ with_object text.old.items from (word_table (int32_number number))) }
    ensures fits { FitsSigned w32 number }
{
    put_table(
        text,
        from,
        &[6, 8, 4],
        &[Cell::Word(number.cast_unsigned())],
    )?;
    Ok(())
}

/// Writes the table `Int`.
fn put_integer(
    text: &mut Vec<u8>,
    from: usize,
    width: BitWidth,
    is_signed: bool,
) -> Result<(), AllocError>
    requires within { from + 4 ≤ length text.old.items }
    ensures put { OnOk result (text.new.items ≡ with_object text.old.items from
        (type_object (int_type width is_signed))) }
{
    let cells = [
        Cell::Word(bits_number(width)),
        Cell::Byte(u8::from(is_signed)),
        Cell::Byte(0),
        Cell::Short(0),
    ];
    put_table(text, from, &[8, 12, 4, 8], &cells)?;
    Ok(())
}

/// Writes the table `Decimal`.
fn put_decimal(
    text: &mut Vec<u8>,
    from: usize,
    precision: i32,
    scale: i32,
    width: DecimalWidth,
) -> Result<(), AllocError>
    requires within { from + 4 ≤ length text.old.items }
    ensures put { OnOk result (text.new.items ≡ with_object text.old.items from
        (type_object (decimal_type precision scale width))) }
    ensures fits { FitsDataType (decimal_type precision scale width) }
{
    let cells = [
        Cell::Word(precision.cast_unsigned()),
        Cell::Word(scale.cast_unsigned()),
        Cell::Word(bits_of_decimal(width)),
    ];
    put_table(text, from, &[10, 16, 4, 8, 12], &cells)?;
    Ok(())
}

/// Writes the table `Time`.
fn put_time(text: &mut Vec<u8>, from: usize, unit: TimeUnit) -> Result<(), AllocError>
    requires within { from + 4 ≤ length text.old.items }
    ensures put { OnOk result (text.new.items ≡ with_object text.old.items from (type_object (time_type unit))) }
{
    let cells = [
        Cell::Short(number_of_time_unit(unit)),
        Cell::Short(0),
        Cell::Word(time_width(unit)),
    ];
    put_table(text, from, &[8, 12, 4, 8], &cells)?;
    Ok(())
}

/// Writes the table `Timestamp`, whose second field is absent where there is no time zone.
fn put_timestamp(
    text: &mut Vec<u8>,
    from: usize,
    unit: TimeUnit,
    timezone: &Option<String>,
) -> Result<(), AllocError>
    requires within { from + 4 ≤ length text.old.items }
    ensures put { OnOk result (text.new.items
        ≡ with_object text.old.items from (timestamp_table unit (option_map string_bytes timezone.now))) }
    ensures fits { OnOk result (FitsDataType (timestamp_type unit (option_map string_bytes timezone.now))) }
{
    let cells = [
        Cell::Short(number_of_time_unit(unit)),
        Cell::Short(0),
        REFERENCE,
    ];
    match timezone {
        None => {
            put_table(text, from, &[8, 12, 4, 0], &cells)?;
            Ok(())
        }
        Some(timezone) => {
            let first = put_table(text, from, &[8, 12, 4, 8], &cells)?;
            put_string(text, first + 4, timezone.as_str())
        }
    }
}

/// Writes the table of a type.
pub(crate) fn put_type(text: &mut Vec<u8>, from: usize, ty: &Ty) -> Result<(), AllocError>
    requires within { from + 4 ≤ length text.old.items }
    ensures put { OnOk result (text.new.items ≡ with_object text.old.items from (type_object (data_type_of ty.now))) }
    ensures fits { OnOk result (FitsDataType (data_type_of ty.now)) }
{
    match ty {
        Ty::Int {
            bit_width,
            is_signed,
        } => put_integer(text, from, *bit_width, *is_signed),
        Ty::FloatingPoint { precision } => put_short(text, from, number_of_precision(*precision)),
        Ty::Decimal {
            precision,
            scale,
            bit_width,
        } => { put_decimal(text, from, *precision, *scale, *bit_width) }
        Ty::Date { unit } => put_short(text, from, number_of_date_unit(*unit)),
        Ty::Time { unit } => put_time(text, from, *unit),
        Ty::Timestamp { unit, timezone } => put_timestamp(text, from, *unit, timezone),
        Ty::FixedSizeBinary { byte_width } => put_int(text, from, *byte_width),
        Ty::FixedSizeList { list_size } => put_int(text, from, *list_size),
        Ty::Duration { unit } => put_short(text, from, number_of_time_unit(*unit)),
        Ty::Null | Ty::Binary | Ty::Utf8 | Ty::Bool | Ty::List | Ty::Struct => put_empty(
            text, from,
        ),
    }
}
