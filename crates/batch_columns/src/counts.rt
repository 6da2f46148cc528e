//! How many cells columns have.

ghost use Rattle.std.specs.Prelude.{◌≡◌, ◌↔◌, IsTrue, length};
ghost use Rattle.std.specs.List.{AllByRecursion};
ghost use Rattle.batch_types.specs.LaysOut.{rows_limit, values_limit};
ghost use Rattle.batch_columns.specs.Few.{AreFew};

use crate::column::Column;

/// How many rows a batch may have.
pub const ROWS_LIMIT: u64 = 1_048_576;

/// How many values a column of a batch may have, those of columns inside others too.
pub const VALUES_LIMIT: usize = 16_777_216;

/// The limits are those that the definitions of batches have.
pub fn limits_are_those_of_batches()
    ensures rows { ROWS_LIMIT ≡ rows_limit }
    ensures values { VALUES_LIMIT ≡ values_limit }
{}

/// Whether each of these columns has so many cells.
pub fn have_length(columns: &[Column], count: u64) -> bool
    ensures { IsTrue result ↔ AllByRecursion (λ column. length column.cells ≡ count) columns.now }
{
    for column in columns {
        if column.len() as u64 != count {
            return false;
        }
    }
    true
}

/// Whether none of these columns, nor of those inside them at all levels, has more values than `VALUES_LIMIT`.
pub fn are_few(columns: &[Column]) -> bool
    ensures { IsTrue result ↔ AreFew columns.now }
{
    for column in columns {
        if column.len() > VALUES_LIMIT || !are_few(column.inside()) {
            return false;
        }
    }
    true
}
