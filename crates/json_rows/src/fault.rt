//! Why values tell no cells, and lines no rows.

use std::alloc::AllocError;
use thiserror::Error;

/// Why a value of JSON tells no cell of a field.
#[derive(Clone, Copy, Debug, PartialEq, Eq, Error)]
pub enum CellFault {
    /// The value is of another kind than the field's type has: a text for a number, an array of another size, digits that
    /// are not hexadecimal.
    #[error("WrongKind")]
    WrongKind,
    /// The number is none of the type's.
    #[error("OutOfRange")]
    OutOfRange,
    /// The value is null or missing, and the field may have no null.
    #[error("NullValue")]
    NullValue,
    /// The object has a member that is no field's.
    #[error("UnknownMember")]
    UnknownMember,
    /// The field's type is not carried in JSON.
    #[error("Unsupported")]
    Unsupported,
    /// Memory was refused.
    #[error("OutOfMemory")]
    OutOfMemory,
}

impl From<AllocError> for CellFault {
    ghost use Rattle.std.specs.Prelude.{◌≡◌};
    ghost use Rattle.json_rows.specs.declared.fault.CellFault.TheVariants.{OutOfMemory};

    ghost from_gives = { λ _ fault. fault ≡ OutOfMemory };

    fn from(_: AllocError) -> CellFault {
        CellFault::OutOfMemory
    }
}

/// Why a line tells no row, whatever its members hold.
#[derive(Clone, Copy, Debug, PartialEq, Eq, Error)]
pub enum JsonLineFault {
    /// It is not UTF-8.
    #[error("NotUtf8")]
    NotUtf8,
    /// It is not one value of JSON.
    #[error("NotJson")]
    NotJson,
    /// It is no object, or has a member that is no field's.
    #[error("UnknownMember")]
    UnknownMember,
    /// Of a line that is written: a line feed would stand in it. No value of JSON has one in its text, so this is never
    /// told; it is tested, since no proof says so.
    #[error("LineFeed")]
    LineFeed,
}

/// Why a text tells no rows of a schema, or rows have no lines.
#[derive(Clone, Copy, Debug, PartialEq, Eq, Error)]
pub enum JsonFault {
    /// A field has not as many fields inside it as its type needs, or the batch is none of the schema, or the schema is not
    /// in profile.
    #[error("BadSchema")]
    BadSchema,
    /// The text has no line to make a schema of.
    #[error("NoRows")]
    NoRows,
    /// Two fields side by side have one name, so that no object can tell them apart.
    #[error("SameNames")]
    SameNames,
    /// A line is no object of the fields.
    #[error("line {line}: {fault}")]
    Line {
        /// Its number, from 1.
        line: u64,
        /// What is wrong with it.
        fault: JsonLineFault,
    },
    /// A member of a line tells no cell of its field, or a cell has no value.
    #[error("line {line}, field {field}: {fault}")]
    Cell {
        /// The line's number, or the row's in its batch, from 1.
        line: u64,
        /// The place of the top field in the schema, from 0.
        field: usize,
        /// What is wrong with the value.
        fault: CellFault,
    },
    /// The row of a line is too large for a message of the service.
    #[error("line {line}: TooLarge")]
    TooLarge {
        /// Its number, from 1.
        line: u64,
    },
    /// Memory was refused.
    #[error("OutOfMemory")]
    OutOfMemory,
}

impl From<AllocError> for JsonFault {
    ghost use Rattle.std.specs.Prelude.{◌≡◌};
    ghost use Rattle.json_rows.specs.declared.fault.JsonFault.TheVariants.{OutOfMemory};

    ghost from_gives = { λ _ fault. fault ≡ OutOfMemory };

    fn from(_: AllocError) -> JsonFault {
        JsonFault::OutOfMemory
    }
}
