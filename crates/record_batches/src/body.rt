//! The buffers of columns, appended one behind the other.

ghost use Rattle.std.specs.Prelude.{◌≡◌, ◌++◌, [], ◌∷◌, map, OnOk, OnErr};
ghost use Rattle.std.specs.List.{AllByRecursion};
ghost use Rattle.batch_types.specs.Canonical.{own_buffers, body_with, canonical_body};
ghost use Rattle.batch_types.specs.Typed.{IsCellOf};
ghost use Rattle.batch_types.specs.Written.{HasRoom, CanBeWritten};
ghost use Rattle.header_types.specs.Fields.{SchemaTree};
ghost use Rattle.batch_columns.specs.Batches.{rows_of, IsBatchOf};
ghost use Rattle.batch_columns.specs.Contents.{layout_in};
ghost use Rattle.record_batches.specs.Adds.{Grows};
ghost use Rattle.record_batches.specs.Parts.{parts_held};
ghost use Rattle.record_batches.specs.Sound.{AreSound};

use crate::buffers::padding;
use batch_columns::{Batch, Column, buffers_in};
use std::alloc::AllocError;

/// The bytes between two buffers, and more.
const ZEROS: [u8; 8] = [0; 8];

/// Appends a buffer, and zero bytes up to the next multiple of eight.
fn append_buffer(text: &mut Vec<u8>, bytes: &[u8]) -> Result<(), AllocError>
    ensures ok { OnOk result (text.new.items ≡ text.old.items ++ body_with (bytes.now ∷ [])) }
    ensures err { OnErr result (Grows text.old.items text.new.items) }
{
    text.extend_from_slice(bytes)?;
    text.extend_from_slice(&ZEROS[..padding(bytes.len())])
}

/// Appends some buffers.
fn append_buffers(text: &mut Vec<u8>, buffers: &[&[u8]]) -> Result<(), AllocError>
    ensures ok { OnOk result
        (text.new.items ≡ text.old.items ++ body_with (map (λ bytes. bytes.now) buffers.now)) }
    ensures err { OnErr result (Grows text.old.items text.new.items) }
{
    for bytes in buffers {
        append_buffer(text, bytes)?;
    }
    Ok(())
}

/// Appends the buffers of a column, those of the columns inside it aside. A column says that its cells are such of its
/// shape, and that there is room for them.
fn append_own(text: &mut Vec<u8>, column: &Column) -> Result<(), AllocError>
    ensures appended { OnOk result
        (text.new.items ≡ text.old.items ++ body_with (own_buffers (layout_in column.now) column.now.cells)) }
    ensures fit { OnOk result (AllByRecursion (IsCellOf column.now.shape) column.now.cells) }
    ensures room { OnOk result (HasRoom (layout_in column.now) column.now.cells) }
    ensures err { OnErr result (Grows text.old.items text.new.items) }
{
    let buffers = [column.buffer(0), column.buffer(1), column.buffer(2)];
    append_buffers(text, &buffers[..buffers_in(column.layout())])
}

/// Appends the buffers of columns and of those inside them, depth first.
fn append_columns(text: &mut Vec<u8>, columns: &[Column]) -> Result<(), AllocError>
    ensures appended { OnOk result
        (text.new.items ≡ text.old.items ++ body_with (parts_held columns.now).buffers) }
    ensures sound { OnOk result (AreSound columns.now) }
    ensures err { OnErr result (Grows text.old.items text.new.items) }
{
    for column in columns {
        append_own(text, column)?;
        append_columns(text, column.inside())?;
    }
    Ok(())
}

/// Appends the body of a batch, which [`crate::write_body`] describes, to what is written so far: [`crate::body_length`]
/// bytes, each buffer from a multiple of eight bytes behind the body's first. Buffers are copied whole, straight from the
/// columns. [`AllocError`] says that memory was refused; then what was written before still stands at the front, and any
/// bytes may stand behind it.
pub fn append_body(text: &mut Vec<u8>, batch: &Batch) -> Result<(), AllocError>
    ensures appended { OnOk result ((schema : SchemaTree) → IsBatchOf schema batch.now
        → text.new.items ≡ text.old.items ++ canonical_body schema (rows_of batch.now)) }
    ensures room { OnOk result ((schema : SchemaTree) → IsBatchOf schema batch.now
        → CanBeWritten schema (rows_of batch.now)) }
    ensures err { OnErr result (Grows text.old.items text.new.items) }
{
    append_columns(text, &batch.columns)
}
