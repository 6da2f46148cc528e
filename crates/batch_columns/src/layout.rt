//! How the values of a column stand in buffers.

/// How the values of a column stand in buffers (Apache Arrow, "Arrow Columnar Format", "Physical memory layout").
#[derive(Clone, Copy, Debug, PartialEq, Eq)]
pub enum Layout {
    /// No buffer: every value is null ("Null layout").
    Null,
    /// One bit a value ("Fixed-size primitive layout").
    Bits,
    /// So many bytes a value ("Fixed-size primitive layout").
    Bytes {
        /// How many bytes a value has.
        size: u32,
    },
    /// Bytes of any number ("Variable-size binary layout").
    Binary,
    /// Texts in UTF-8 ("Variable-size binary layout").
    Utf8,
    /// Any number of elements a value ("Variable-size list layout").
    List,
    /// So many elements a value ("Fixed-size list layout").
    FixedSizeList {
        /// How many elements a value has.
        size: u32,
    },
    /// One value of each field ("Struct layout").
    Struct,
}

impl Layout {
    ghost use Rattle.std.specs.Prelude.{◌≡◌};
    ghost use Rattle.batch_columns.specs.Buffers.{has_offsets as has_offsets_named};
    ghost use Rattle.batch_columns.specs.Held.{layout_named};
    ghost use Rattle.batch_columns.specs.Looks.{has_values as has_values_named};

    /// Whether offsets say where its values begin ("Variable-size binary layout", "Variable-size list layout").
    pub fn has_offsets(self) -> bool
        ensures { result ≡ has_offsets_named (layout_named self) }
    {
        match self {
            Layout::Binary | Layout::Utf8 | Layout::List => true,
            Layout::Null
            | Layout::Bits
            | Layout::Bytes { .. }
            | Layout::FixedSizeList { .. }
            | Layout::Struct => false,
        }
    }

    /// Whether a column of this layout may have values that are not null ("Null layout").
    pub fn has_values(self) -> bool
        ensures { result ≡ has_values_named (layout_named self) }
    {
        match self {
            Layout::Null => false,
            Layout::Bits
            | Layout::Bytes { .. }
            | Layout::Binary
            | Layout::Utf8
            | Layout::List
            | Layout::FixedSizeList { .. }
            | Layout::Struct => true,
        }
    }
}
