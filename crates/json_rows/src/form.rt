//! How the cells of each type stand in JSON.

ghost use Rattle.std.specs.Prelude.{◌≡◌};
ghost use Rattle.header_types.specs.Fields.{floating_point_type, date_type, time_type};
ghost use Rattle.header_types.specs.Views.{data_type_of};
ghost use Rattle.json_rows.specs.Forms.{form_of as form_of_type};

use header_types::{BitWidth, DateUnit, Precision, TimeUnit, Ty};

/// How the cells of a type that are not null stand in JSON (RFC 8259).
#[derive(Clone, Copy, Debug, PartialEq, Eq)]
pub enum Form {
    /// There is none but the null.
    Null,
    /// `true` or `false`.
    Bool,
    /// A whole number.
    Whole {
        /// How many bits it has.
        width: BitWidth,
        /// Whether it is one of two's complement.
        is_signed: bool,
    },
    /// A number, or the text of one that is not finite, in four bytes of a float.
    Single,
    /// The same, in eight bytes of a float.
    Double,
    /// A text.
    Text,
    /// A text of hexadecimal digits, two a byte.
    Bytes,
    /// The same, of so many bytes.
    SizedBytes {
        /// How many bytes.
        size: u32,
    },
    /// An array.
    List,
    /// An array of so many elements.
    SizedList {
        /// How many elements.
        size: u32,
    },
    /// An object with a member for each field.
    Struct,
    /// None: the type is not carried in JSON here.
    Unsupported,
}

/// A whole number of 32 bits with a sign.
const INT32: Form = Form::Whole {
    width: BitWidth::ThirtyTwo,
    is_signed: true,
};

/// A whole number of 64 bits with a sign.
const INT64: Form = Form::Whole {
    width: BitWidth::SixtyFour,
    is_signed: true,
};

/// The form of floats.
fn float_form(precision: Precision) -> Form
    ensures { result ≡ form_of_type (floating_point_type precision) }
{
    match precision {
        Precision::Half => Form::Unsupported,
        Precision::Single => Form::Single,
        Precision::Double => Form::Double,
    }
}

/// The form of dates.
fn date_form(unit: DateUnit) -> Form
    ensures { result ≡ form_of_type (date_type unit) }
{
    match unit {
        DateUnit::Day => INT32,
        DateUnit::Millisecond => INT64,
    }
}

/// The form of times of a day.
fn time_form(unit: TimeUnit) -> Form
    ensures { result ≡ form_of_type (time_type unit) }
{
    match unit {
        TimeUnit::Second | TimeUnit::Millisecond => INT32,
        TimeUnit::Microsecond | TimeUnit::Nanosecond => INT64,
    }
}

/// The form of the type's cells.
pub fn form_of(ty: &Ty) -> Form
    ensures { result ≡ form_of_type (data_type_of ty.now) }
{
    match ty {
        Ty::Null => Form::Null,
        Ty::Bool => Form::Bool,
        Ty::Int {
            bit_width,
            is_signed,
        } => Form::Whole {
            width: *bit_width,
            is_signed: *is_signed,
        },
        Ty::FloatingPoint { precision } => float_form(*precision),
        Ty::Date { unit } => date_form(*unit),
        Ty::Time { unit } => time_form(*unit),
        Ty::Timestamp { .. } | Ty::Duration { .. } => INT64,
        Ty::Utf8 => Form::Text,
        Ty::Binary => Form::Bytes,
        Ty::FixedSizeBinary { byte_width } => Form::SizedBytes {
            size: byte_width.unsigned_abs(),
        },
        Ty::List => Form::List,
        Ty::FixedSizeList { list_size } => Form::SizedList {
            size: list_size.unsigned_abs(),
        },
        Ty::Struct => Form::Struct,
        Ty::Decimal { .. } => Form::Unsupported,
    }
}
