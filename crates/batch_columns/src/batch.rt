//! A batch of rows.

use crate::column::Column;
use crate::copy::copies;
use crate::counts::{ROWS_LIMIT, are_few, have_length};
use crate::equal::are_equal;
use crate::fitting::are_of;
use header_types::Schema;
use std::alloc::AllocError;

/// Some rows of a table, column by column (Apache Arrow, "Arrow Columnar Format", "RecordBatch message"). Each column has
/// one cell a row; a batch that has no column still has its number of rows.
#[derive(Debug, Drop)]
pub struct Batch {
    /// How many rows there are.
    pub rows: u64,
    /// The columns, in the order of the fields.
    pub columns: Vec<Column>,
}

impl Batch {
    ghost use Rattle.std.specs.Prelude.{◌≡◌, ◌↔◌, IsTrue};
    ghost use Rattle.header_types.specs.Views.{schema_of};
    ghost use Rattle.batch_columns.specs.Batches.{IsBatchOf};

    /// Whether this is a batch of a table of this schema: a column for each field, whose values stand in buffers as those
    /// of the field do, with a cell for each row; no more rows than `ROWS_LIMIT`; and no column with more values than
    /// `VALUES_LIMIT`, those inside other columns too. It takes no memory.
    pub fn is_of(&self, schema: &Schema) -> bool
        ensures { IsTrue result ↔ IsBatchOf (schema_of schema.now) self.now }
    {
        are_of(&self.columns, &schema.fields)
            && have_length(&self.columns, self.rows)
            && self.rows <= ROWS_LIMIT
            && are_few(&self.columns)
    }
}

impl Clone for Batch {
    ghost use Rattle.std.specs.Prelude.{◌≡◌, IfOk};

    ghost is_clone = { λ old new. (new.rows ≡ old.rows) × (new.columns.items ≡ old.columns.items) };

    /// A batch of as many rows and of equal columns, with buffers of its own, or memory is refused.
    fn clone(&self) -> Result<Batch, AllocError>
        ensures rows { IfOk result (λ new. new.rows ≡ self.now.rows) }
        ensures columns { IfOk result (λ new. new.columns.items ≡ self.now.columns.items) }
    {
        Ok(Batch {
            rows: self.rows,
            columns: copies(*self.columns.allocator(), &self.columns)?,
        })
    }
}

impl PartialEq for Batch {
    ghost use Rattle.std.specs.Prelude.{◌≡◌, ◌↔◌, IsTrue};
    ghost use Rattle.batch_columns.specs.SameBatches.{HoldTheSame, same_batches, batch_laws};

    ghost eq = { same_batches };

    ghost laws = { batch_laws };

    /// Whether the two have as many rows, and equal columns in order. It takes no memory.
    fn eq(&self, other: &Batch) -> bool
        ensures gives { result ≡ same_batches self.now other.now }
        ensures equal { IsTrue result ↔ HoldTheSame self.now other.now }
    {
        self.rows == other.rows && are_equal(&self.columns, &other.columns)
    }
}

impl Eq for Batch {
    ghost use Rattle.batch_columns.specs.SameBatches.{batch_equivalence};

    ghost laws = { batch_equivalence };
}
