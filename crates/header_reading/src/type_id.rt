//! The types of fields by their numbers, and the parameters in each type's table (Apache Arrow, "Schema.fbs", the union
//! `Type`).

ghost use Rattle.std.specs.Prelude.{◌≡◌, ◌<◌, ◌^◌, ◌↔◌, true, not, ◌==◌, IsTrue};
ghost use Rattle.std.specs.Option.{option_map, option_and_then};
ghost use Rattle.header_types.specs.Fields.{int_type, floating_point_type, decimal_type, date_type, timestamp_type};
ghost use Rattle.header_types.specs.Fields.{fixed_size_binary_type, fixed_size_list_type, duration_type};
ghost use Rattle.header_types.specs.Views.{data_type_of};
ghost use Rattle.header_types.specs.TypeIds as meant;
ghost use Rattle.header_reading.specs.ParameterView.{IsShort, parameters_view};

use header_types::{BitWidth, DateUnit, DecimalWidth, Precision, TimeUnit, Ty};

/// A parameter that is a number.
#[derive(Clone, Copy)]
pub(crate) struct Parameter {
    /// How many bytes it has.
    pub(crate) size: usize,
    /// What an absent one means.
    pub(crate) default: u64,
}

/// The numbers at fields 0, 1 and 2 of a type's table, where the type has such parameters.
#[derive(Clone, Copy)]
pub(crate) struct Parameters {
    /// Field 0.
    pub(crate) first: Option<Parameter>,
    /// Field 1.
    pub(crate) second: Option<Parameter>,
    /// Field 2.
    pub(crate) third: Option<Parameter>,
}

/// A type without parameters.
const NO_PARAMETERS: Parameters = Parameters {
    first: None,
    second: None,
    third: None,
};

/// A type with one parameter.
fn one(size: usize, default: u64) -> Parameters
    ensures first { result.first ≡ Some (record { size = size; default = default }) }
    ensures second { result.second ≡ None }
    ensures third { result.third ≡ None }
{
    Parameters {
        first: Some(Parameter { size, default }),
        second: None,
        third: None,
    }
}

/// A type with two parameters, the first with this default and the second with that one.
fn two(first: (usize, u64), second: (usize, u64)) -> Parameters
    ensures first { result.first ≡ Some (record { size = first.0; default = first.1 }) }
    ensures second { result.second ≡ Some (record { size = second.0; default = second.1 }) }
    ensures third { result.third ≡ None }
{
    Parameters {
        first: Some(Parameter {
            size: first.0,
            default: first.1,
        }),
        second: Some(Parameter {
            size: second.0,
            default: second.1,
        }),
        third: None,
    }
}

/// The parameters of the type of this number (Schema.fbs, the tables of the union `Type`).
pub(crate) fn parameters_of(type_id: u8) -> Parameters
    ensures same { parameters_view result ≡ meant.parameters_of type_id }
    ensures first { IsShort result.first }
    ensures second { IsShort result.second }
    ensures third { IsShort result.third }
{
    match type_id {
        2 => two((4, 0), (1, 0)),
        3 | 10 => one(2, 0),
        7 => {
            let scales = two((4, 0), (4, 0));
            Parameters {
                third: Some(Parameter {
                    size: 4,
                    default: 128,
                }),
                ..scales
            }
        }
        8 | 18 => one(2, 1),
        9 => two((2, 1), (4, 32)),
        15 | 16 => one(4, 0),
        // Null, Binary, Utf8, Bool, List and Struct_ have none.
        1 | 4 | 5 | 6 | 12 | 13 => NO_PARAMETERS,
        // These are not carried, and nothing of their tables is looked at.
        0 | 11 | 14 | 17 | 19..=255 => NO_PARAMETERS,
    }
}

/// The type of this number is carried.
pub(crate) fn is_carried(type_id: u8) -> bool
    ensures { IsTrue result ↔ (meant.is_carried type_id ≡ true) }
{
    matches!(type_id, 1..=10 | 12 | 13 | 15 | 16 | 18)
}

/// The bits of an integer (Schema.fbs, the table `Int`).
fn bit_width_of(bits: u64) -> Option<BitWidth>
    ensures { result ≡ meant.bit_width_of bits }
{
    match bits {
        8 => Some(BitWidth::Eight),
        16 => Some(BitWidth::Sixteen),
        32 => Some(BitWidth::ThirtyTwo),
        64 => Some(BitWidth::SixtyFour),
        _ => None,
    }
}

/// The precision of a floating point number (Schema.fbs, the enum `Precision`).
fn precision_of(number: u64) -> Option<Precision>
    ensures { result ≡ meant.precision_of number }
{
    match number {
        0 => Some(Precision::Half),
        1 => Some(Precision::Single),
        2 => Some(Precision::Double),
        _ => None,
    }
}

/// The bits of a decimal number (Schema.fbs, the table `Decimal`).
fn decimal_width_of(bits: u64) -> Option<DecimalWidth>
    ensures { result ≡ meant.decimal_width_of bits }
{
    match bits {
        128 => Some(DecimalWidth::OneHundredTwentyEight),
        256 => Some(DecimalWidth::TwoHundredFiftySix),
        _ => None,
    }
}

/// What a date counts (Schema.fbs, the enum `DateUnit`).
fn date_unit_of(number: u64) -> Option<DateUnit>
    ensures { result ≡ meant.date_unit_of number }
{
    match number {
        0 => Some(DateUnit::Day),
        1 => Some(DateUnit::Millisecond),
        _ => None,
    }
}

/// What a time counts (Schema.fbs, the enum `TimeUnit`).
fn time_unit_of(number: u64) -> Option<TimeUnit>
    ensures { result ≡ meant.time_unit_of number }
{
    match number {
        0 => Some(TimeUnit::Second),
        1 => Some(TimeUnit::Millisecond),
        2 => Some(TimeUnit::Microsecond),
        3 => Some(TimeUnit::Nanosecond),
        _ => None,
    }
}

/// The bits of a time of the day (Schema.fbs, the table `Time`).
fn time_bits(unit: TimeUnit) -> u64
    ensures { result ≡ meant.time_bits unit }
{
    match unit {
        TimeUnit::Second | TimeUnit::Millisecond => 32,
        TimeUnit::Microsecond | TimeUnit::Nanosecond => 64,
    }
}

/// The number of two's complement in four bytes.
fn int32_of(number: u64) -> i32
    requires { number < 2 ^ 32 }
    ensures { result ≡ meant.int32_of number }
{
    (number as u32).cast_signed()
}

/// The same, where it is not negative.
fn size_of(number: u64) -> Option<i32>
    ensures { result ≡ meant.size_of number }
{
    if number < 1 << 31 {
        Some(number as i32)
    } else {
        None
    }
}

/// An integer (Schema.fbs, the table `Int`).
fn int_from(bits: u64, signed: u64) -> Option<Ty>
    ensures { option_map data_type_of result ≡ option_map (λ bits. int_type bits (not (signed == 0)))
        (meant.bit_width_of bits) }
{
    let bit_width = bit_width_of(bits)?;
    Some(Ty::Int {
        bit_width,
        is_signed: signed != 0,
    })
}

/// A floating point number (Schema.fbs, the table `FloatingPoint`).
fn floating_point_from(number: u64) -> Option<Ty>
    ensures { option_map data_type_of result ≡ option_map floating_point_type (meant.precision_of number) }
{
    let precision = precision_of(number)?;
    Some(Ty::FloatingPoint { precision })
}

/// A decimal number (Schema.fbs, the table `Decimal`).
fn decimal_from(precision: u64, scale: u64, bits: u64) -> Option<Ty>
    requires precision { precision < 2 ^ 32 }
    requires scale { scale < 2 ^ 32 }
    ensures { option_map data_type_of result ≡ option_map
        (decimal_type (meant.int32_of precision) (meant.int32_of scale)) (meant.decimal_width_of bits) }
{
    let bit_width = decimal_width_of(bits)?;
    Some(Ty::Decimal {
        precision: int32_of(precision),
        scale: int32_of(scale),
        bit_width,
    })
}

/// A date (Schema.fbs, the table `Date`).
fn date_from(number: u64) -> Option<Ty>
    ensures { option_map data_type_of result ≡ option_map date_type (meant.date_unit_of number) }
{
    let unit = date_unit_of(number)?;
    Some(Ty::Date { unit })
}

/// A time of the day (Schema.fbs, the table `Time`).
fn time_from(number: u64, bits: u64) -> Option<Ty>
    ensures { option_map data_type_of result ≡ option_and_then (meant.time_from bits) (meant.time_unit_of number) }
{
    let unit = time_unit_of(number)?;
    if bits != time_bits(unit) {
        return None;
    }
    Some(Ty::Time { unit })
}

/// A point in time, whose time zone is not looked at here (Schema.fbs, the table `Timestamp`).
fn timestamp_from(number: u64) -> Option<Ty>
    ensures { option_map data_type_of result ≡ option_map (λ unit. timestamp_type unit None)
        (meant.time_unit_of number) }
{
    let unit = time_unit_of(number)?;
    Some(Ty::Timestamp {
        unit,
        timezone: None,
    })
}

/// So many bytes (Schema.fbs, the table `FixedSizeBinary`).
fn fixed_size_binary_from(number: u64) -> Option<Ty>
    ensures { option_map data_type_of result ≡ option_map fixed_size_binary_type (meant.size_of number) }
{
    let byte_width = size_of(number)?;
    Some(Ty::FixedSizeBinary { byte_width })
}

/// So many elements (Schema.fbs, the table `FixedSizeList`).
fn fixed_size_list_from(number: u64) -> Option<Ty>
    ensures { option_map data_type_of result ≡ option_map fixed_size_list_type (meant.size_of number) }
{
    let list_size = size_of(number)?;
    Some(Ty::FixedSizeList { list_size })
}

/// A length of time (Schema.fbs, the table `Duration`).
fn duration_from(number: u64) -> Option<Ty>
    ensures { option_map data_type_of result ≡ option_map duration_type (meant.time_unit_of number) }
{
    let unit = time_unit_of(number)?;
    Some(Ty::Duration { unit })
}

/// The type of this number with these parameters, where there is such a type (Schema.fbs, the union `Type`). A point in
/// time has no time zone yet.
pub(crate) fn type_from(type_id: u8, first: u64, second: u64, third: u64) -> Option<Ty>
    requires first { first < 2 ^ 32 }
    requires second { second < 2 ^ 32 }
    ensures { option_map data_type_of result ≡ meant.data_type_from type_id first second third None }
{
    match type_id {
        1 => Some(Ty::Null),
        2 => int_from(first, second),
        3 => floating_point_from(first),
        4 => Some(Ty::Binary),
        5 => Some(Ty::Utf8),
        6 => Some(Ty::Bool),
        7 => decimal_from(first, second, third),
        8 => date_from(first),
        9 => time_from(first, second),
        10 => timestamp_from(first),
        12 => Some(Ty::List),
        13 => Some(Ty::Struct),
        15 => fixed_size_binary_from(first),
        16 => fixed_size_list_from(first),
        18 => duration_from(first),
        // These are not carried.
        0 | 11 | 14 | 17 | 19..=255 => None,
    }
}
