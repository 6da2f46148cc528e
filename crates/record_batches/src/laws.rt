//! Laws of batches that are read and written.

ghost use Rattle.std.specs.Prelude.{◌≡◌, ℕ, List};
ghost use Rattle.header_types.specs.Fields.{SchemaTree};
ghost use Rattle.header_types.specs.Header.{Head};
ghost use Rattle.batch_types.specs.Cells.{Rows};
ghost use Rattle.batch_types.specs.LaysOut.{LaysOut};
ghost use Rattle.batch_types.specs.declared.fault.BatchFault.{BatchFault as Fault};
ghost use Rattle.batch_types.specs.declared.fault.BatchFault.TheVariants.{OutOfMemory};
ghost use Rattle.batch_columns.specs.Batches.{rows_of, IsBatchOf};
ghost use Rattle.batch_columns.specs.declared.batch.Batch.{Batch as Held};
ghost use Rattle.record_batches.specs.Reading.{IsToldOf};

use batch_types::laws::batches_are_one;

/// A batch of a schema is its rows: two batches of it with the same rows have the same columns. So a header and a body lay
/// out one batch at most, and a batch that was written is read again as it was.
pub fn batches_are_their_rows()
    ensures columns { (schema : SchemaTree) (x y : Held) → IsBatchOf schema x → IsBatchOf schema y
        → rows_of x ≡ rows_of y → x.columns.items ≡ y.columns.items }
    ensures read_back { (schema : SchemaTree) (head : Head) (body : List ℕ) (x y : Held) → IsBatchOf schema x
        → IsBatchOf schema y → LaysOut schema head body (rows_of x) → LaysOut schema head body (rows_of y)
        → (x.rows ≡ y.rows) × (x.columns.items ≡ y.columns.items) }
{
    batches_are_one();
}

/// What is told of a header and a body is right: where they lay out a batch nothing is told but that memory was refused,
/// and that is told only where they do.
pub fn refusals_are_right()
    ensures laid { (schema : SchemaTree) (head : Head) (body : List ℕ) (fault : Fault) (rows : Rows)
        → IsToldOf schema head body fault → LaysOut schema head body rows → fault ≡ OutOfMemory }
    ensures memory { (schema : SchemaTree) (head : Head) (body : List ℕ) → IsToldOf schema head body OutOfMemory
        → (rows : Rows) × LaysOut schema head body rows }
{
    batches_are_one();
}
