//! The types of fields (Apache Arrow, "Schema.fbs", the union `Type`).

/// How many bits an integer has.
#[derive(Clone, Copy, Debug, PartialEq, Eq)]
pub enum BitWidth {
    /// One byte.
    Eight,
    /// Two bytes.
    Sixteen,
    /// Four bytes.
    ThirtyTwo,
    /// Eight bytes.
    SixtyFour,
}

/// The precision of a floating point number (IEEE 754).
#[derive(Clone, Copy, Debug, PartialEq, Eq)]
pub enum Precision {
    /// Two bytes.
    Half,
    /// Four bytes.
    Single,
    /// Eight bytes.
    Double,
}

/// How many bits a decimal number has.
#[derive(Clone, Copy, Debug, PartialEq, Eq)]
pub enum DecimalWidth {
    /// Sixteen bytes.
    OneHundredTwentyEight,
    /// Thirty-two bytes.
    TwoHundredFiftySix,
}

/// What a date counts.
#[derive(Clone, Copy, Debug, PartialEq, Eq)]
pub enum DateUnit {
    /// Days since the UNIX epoch, in four bytes.
    Day,
    /// Milliseconds since the UNIX epoch, in eight bytes.
    Millisecond,
}

/// What a time, a timestamp or a duration counts.
#[derive(Clone, Copy, Debug, PartialEq, Eq)]
pub enum TimeUnit {
    /// Seconds.
    Second,
    /// Thousandths of a second.
    Millisecond,
    /// Millionths of a second.
    Microsecond,
    /// Thousand-millionths of a second.
    Nanosecond,
}

/// The type of a field, with its parameters by the names of Schema.fbs.
#[derive(Clone, Debug, PartialEq, Eq, Drop)]
pub enum Ty {
    /// No value at all.
    Null,
    /// An integer.
    Int {
        /// How many bits it has.
        bit_width: BitWidth,
        /// Whether it is one of two's complement.
        is_signed: bool,
    },
    /// A floating point number.
    FloatingPoint {
        /// How precise it is.
        precision: Precision,
    },
    /// Bytes, with offsets of four bytes.
    Binary,
    /// A text in UTF-8, with offsets of four bytes.
    Utf8,
    /// One bit.
    Bool,
    /// A decimal number: a whole one of two's complement, divided by ten as often as the scale says.
    Decimal {
        /// How many decimal digits it has. Any number is carried.
        precision: i32,
        /// How many of them stand behind the decimal point. Any number is carried.
        scale: i32,
        /// How many bits it has.
        bit_width: DecimalWidth,
    },
    /// A date.
    Date {
        /// What is counted.
        unit: DateUnit,
    },
    /// A time of the day, in four bytes for seconds and milliseconds and in eight for the other units: Schema.fbs
    /// allows no other `bitWidth` beside each unit.
    Time {
        /// What is counted since midnight.
        unit: TimeUnit,
    },
    /// A point in time, in eight bytes.
    Timestamp {
        /// What is counted since the UNIX epoch.
        unit: TimeUnit,
        /// The time zone that it is shown in, where there is one.
        timezone: Option<String>,
    },
    /// A list of any length, with offsets of four bytes; its one child has the elements.
    List,
    /// A value of each child.
    Struct,
    /// So many bytes.
    FixedSizeBinary {
        /// How many, 0 or more.
        byte_width: i32,
    },
    /// So many elements; its one child has them.
    FixedSizeList {
        /// How many, 0 or more.
        list_size: i32,
    },
    /// A length of time, in eight bytes.
    Duration {
        /// What is counted.
        unit: TimeUnit,
    },
}
