//! Why some cells make no column.

use batch_columns::ColumnFault;
use std::alloc::AllocError;
use thiserror::Error;

/// Why some cells make no column of a field.
#[derive(Clone, Copy, Debug, PartialEq, Eq, Error)]
pub enum CellsFault {
    /// The field, or one inside it, has not as many fields inside it as its type needs: one in a list, any number in a
    /// struct, none in others.
    #[error("WrongChildren")]
    WrongChildren,
    /// A cell is none of the field's.
    #[error("NotOfField")]
    NotOfField,
    /// The column, or one inside it, has more than 16,777,216 values.
    #[error("TooMany")]
    TooMany,
    /// The bytes of a column, or of one inside it, are 2^31 or more in all, where offsets of four bytes do not lead.
    #[error("TooLong")]
    TooLong,
    /// Memory was refused.
    #[error("OutOfMemory")]
    OutOfMemory,
}

/// Why some cells make no batch of a schema.
#[derive(Clone, Copy, Debug, PartialEq, Eq, Error)]
pub enum RowsFault {
    /// There is not one column of cells for each field.
    #[error("WrongColumns")]
    WrongColumns,
    /// A column has another number of cells than there are rows.
    #[error("WrongLength")]
    WrongLength,
    /// There are more than 1,048,576 rows.
    #[error("TooManyRows")]
    TooManyRows,
    /// The cells of a column make none of its field.
    #[error("{0}")]
    Cells(CellsFault),
}

impl From<AllocError> for CellsFault {
    ghost use Rattle.std.specs.Prelude.{◌≡◌};
    ghost use Rattle.column_building.specs.declared.fault.CellsFault.TheVariants.{OutOfMemory};

    ghost from_gives = { λ _ e. e ≡ OutOfMemory };

    fn from(_: AllocError) -> CellsFault {
        CellsFault::OutOfMemory
    }
}

impl From<ColumnFault> for CellsFault {
    ghost use Rattle.column_building.specs.Faults.{IsFaultOf};

    ghost from_gives = { λ fault e. IsFaultOf fault e };

    fn from(fault: ColumnFault) -> CellsFault {
        match fault {
            ColumnFault::TooLong => CellsFault::TooLong,
            ColumnFault::WrongSize => CellsFault::NotOfField,
            ColumnFault::OutOfMemory => CellsFault::OutOfMemory,
        }
    }
}
