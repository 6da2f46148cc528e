//! The words of types that have nothing inside them.

ghost use Rattle.std.specs.Prelude.{◌≡◌, ◌≢◌, MatchOption, Some, None, option_map};
ghost use Rattle.header_types.specs.Fields.{DataType, date_type, duration_type, floating_point_type, int_type, time_type, timestamp_type};
ghost use Rattle.header_types.specs.Views.{data_type_of};
ghost use Rattle.schema_words.specs.Spelling.{plain_words};

use header_types::{BitWidth, DateUnit, Precision, TimeUnit, Ty};

/// The words of a type that has nothing inside it and no number or text among its parameters; of any other type none.
pub fn plain_words(ty: &Ty) -> Option<&'static str>
    ensures { option_map (λ words. words.now) result ≡ plain_words (data_type_of ty.now) }
{
    let words = match ty {
        Ty::Null => "null",
        Ty::Int {
            bit_width,
            is_signed,
        } => int_words(*bit_width, *is_signed),
        Ty::FloatingPoint { precision } => float_words(*precision),
        Ty::Binary => "binary",
        Ty::Utf8 => "utf8",
        Ty::Bool => "bool",
        Ty::Date { unit } => date_words(*unit),
        Ty::Time { unit } => time_words(*unit),
        Ty::Timestamp {
            unit,
            timezone: None,
        } => timestamp_words(*unit),
        Ty::Duration { unit } => duration_words(*unit),
        _ => return None,
    };
    Some(words)
}

// Those of an integer.
fn int_words(bit_width: BitWidth, is_signed: bool) -> &'static str
    ensures { plain_words (int_type bit_width is_signed) ≡ Some result.now }
{
    match (bit_width, is_signed) {
        (BitWidth::Eight, true) => "int8",
        (BitWidth::Sixteen, true) => "int16",
        (BitWidth::ThirtyTwo, true) => "int32",
        (BitWidth::SixtyFour, true) => "int64",
        (BitWidth::Eight, false) => "uint8",
        (BitWidth::Sixteen, false) => "uint16",
        (BitWidth::ThirtyTwo, false) => "uint32",
        (BitWidth::SixtyFour, false) => "uint64",
    }
}

// Those of a floating point number.
fn float_words(precision: Precision) -> &'static str
    ensures { plain_words (floating_point_type precision) ≡ Some result.now }
{
    match precision {
        Precision::Half => "float16",
        Precision::Single => "float32",
        Precision::Double => "float64",
    }
}

// Those of a date.
fn date_words(unit: DateUnit) -> &'static str
    ensures { plain_words (date_type unit) ≡ Some result.now }
{
    match unit {
        DateUnit::Day => "date32",
        DateUnit::Millisecond => "date64",
    }
}

// Those of a time of the day.
fn time_words(unit: TimeUnit) -> &'static str
    ensures { plain_words (time_type unit) ≡ Some result.now }
{
    match unit {
        TimeUnit::Second => "time32[s]",
        TimeUnit::Millisecond => "time32[ms]",
        TimeUnit::Microsecond => "time64[us]",
        TimeUnit::Nanosecond => "time64[ns]",
    }
}

// Those of a point in time without a time zone.
fn timestamp_words(unit: TimeUnit) -> &'static str
    ensures { plain_words (timestamp_type unit None) ≡ Some result.now }
{
    match unit {
        TimeUnit::Second => "timestamp[s]",
        TimeUnit::Millisecond => "timestamp[ms]",
        TimeUnit::Microsecond => "timestamp[us]",
        TimeUnit::Nanosecond => "timestamp[ns]",
    }
}

// Those of a length of time.
fn duration_words(unit: TimeUnit) -> &'static str
    ensures { plain_words (duration_type unit) ≡ Some result.now }
{
    match unit {
        TimeUnit::Second => "duration[s]",
        TimeUnit::Millisecond => "duration[ms]",
        TimeUnit::Microsecond => "duration[us]",
        TimeUnit::Nanosecond => "duration[ns]",
    }
}

/// The type that has these words, if there is one that has nothing inside it and no number or text among its parameters.
pub fn plain_type(words: &str) -> Option<Ty>
    ensures { MatchOption result ((t : DataType) → plain_words t ≢ Some words.now) (λ ty. plain_words (data_type_of ty) ≡ Some words.now) }
{
    match words {
        "null" => Some(Ty::Null),
        "bool" => Some(Ty::Bool),
        "utf8" => Some(Ty::Utf8),
        "binary" => Some(Ty::Binary),
        "int8" => Some(Ty::Int {
            bit_width: BitWidth::Eight,
            is_signed: true,
        }),
        "int16" => Some(Ty::Int {
            bit_width: BitWidth::Sixteen,
            is_signed: true,
        }),
        "int32" => Some(Ty::Int {
            bit_width: BitWidth::ThirtyTwo,
            is_signed: true,
        }),
        "int64" => Some(Ty::Int {
            bit_width: BitWidth::SixtyFour,
            is_signed: true,
        }),
        "uint8" => Some(Ty::Int {
            bit_width: BitWidth::Eight,
            is_signed: false,
        }),
        "uint16" => Some(Ty::Int {
            bit_width: BitWidth::Sixteen,
            is_signed: false,
        }),
        "uint32" => Some(Ty::Int {
            bit_width: BitWidth::ThirtyTwo,
            is_signed: false,
        }),
        "uint64" => Some(Ty::Int {
            bit_width: BitWidth::SixtyFour,
            is_signed: false,
        }),
        "float16" => Some(Ty::FloatingPoint {
            precision: Precision::Half,
        }),
        "float32" => Some(Ty::FloatingPoint {
            precision: Precision::Single,
        }),
        "float64" => Some(Ty::FloatingPoint {
            precision: Precision::Double,
        }),
        "date32" => Some(Ty::Date {
            unit: DateUnit::Day,
        }),
        "date64" => Some(Ty::Date {
            unit: DateUnit::Millisecond,
        }),
        "time32[s]" => Some(Ty::Time {
            unit: TimeUnit::Second,
        }),
        "time32[ms]" => Some(Ty::Time {
            unit: TimeUnit::Millisecond,
        }),
        "time64[us]" => Some(Ty::Time {
            unit: TimeUnit::Microsecond,
        }),
        "time64[ns]" => Some(Ty::Time {
            unit: TimeUnit::Nanosecond,
        }),
        "timestamp[s]" => Some(Ty::Timestamp {
            unit: TimeUnit::Second,
            timezone: None,
        }),
        "timestamp[ms]" => Some(Ty::Timestamp {
            unit: TimeUnit::Millisecond,
            timezone: None,
        }),
        "timestamp[us]" => Some(Ty::Timestamp {
            unit: TimeUnit::Microsecond,
            timezone: None,
        }),
        "timestamp[ns]" => Some(Ty::Timestamp {
            unit: TimeUnit::Nanosecond,
            timezone: None,
        }),
        "duration[s]" => Some(Ty::Duration {
            unit: TimeUnit::Second,
        }),
        "duration[ms]" => Some(Ty::Duration {
            unit: TimeUnit::Millisecond,
        }),
        "duration[us]" => Some(Ty::Duration {
            unit: TimeUnit::Microsecond,
        }),
        "duration[ns]" => Some(Ty::Duration {
            unit: TimeUnit::Nanosecond,
        }),
        _ => None,
    }
}
