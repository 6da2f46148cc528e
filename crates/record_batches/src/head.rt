//! The header of a batch, of which no byte of a buffer is read.

ghost use Rattle.std.specs.Prelude.{◌≡◌, ◌+◌, ◌<◌, ◌≤◌, ◌^◌, [], ◌∷◌, map, length, pos, ◌≤ℤ◌, IfOk, OnOk};
ghost use Rattle.std.specs.List.{AllByRecursion};
ghost use Rattle.header_types.specs.Views.{schema_of};
ghost use Rattle.header_types.specs.HeaderViews.{head_of};
ghost use Rattle.batch_types.specs.Canonical.{padded, own_buffers, own_parts, body_with, canonical_head, canonical_body};
ghost use Rattle.batch_types.specs.LaysOut.{values_limit};
ghost use Rattle.batch_types.specs.Typed.{IsCellOf};
ghost use Rattle.batch_types.specs.Written.{HasRoom, CanBeWritten};
ghost use Rattle.batch_columns.specs.Batches.{rows_of, IsBatchOf};
ghost use Rattle.batch_columns.specs.Contents.{layout_in};
ghost use Rattle.record_batches.specs.Adds.{Adds};
ghost use Rattle.record_batches.specs.Parts.{parts_held, buffers_alone};
ghost use Rattle.record_batches.specs.Sound.{AreSound};

use crate::buffers::padding;
use batch_columns::{Batch, Column, buffers_in};
use header_types::{BatchHead, Schema};
use std::alloc::{AllocError, Global};

/// What a header says so far of a batch.
#[derive(Drop)]
struct HeadWriter {
    /// The nodes.
    nodes: Vec<(i64, i64)>,
    /// The buffers.
    buffers: Vec<(i64, i64)>,
    /// How many bytes the body has up to where the next buffer begins.
    end: usize,
}

impl HeadWriter {
    /// Puts where a buffer stands, and that zero bytes are behind it up to the next multiple of eight.
    fn put_buffer(&mut self, bytes: &[u8]) -> Result<(), AllocError>
        requires short { self.now.end + padded (length bytes.now) < 2 ^ 63 }
        ensures { OnOk result (Adds self.old self.new (buffers_alone (bytes.now ∷ []))) }
    {
        self.buffers.push((self.end as i64, bytes.len() as i64))?;
        self.end += bytes.len() + padding(bytes.len());
        Ok(())
    }

    /// Puts where some buffers stand.
    fn put_buffers(&mut self, buffers: &[&[u8]]) -> Result<(), AllocError>
        requires short { self.now.end + length (body_with (map (λ bytes. bytes.now) buffers.now)) < 2 ^ 63 }
        ensures { OnOk result (Adds self.old self.new (buffers_alone (map (λ bytes. bytes.now) buffers.now))) }
    {
        for bytes in buffers {
            self.put_buffer(bytes)?;
        }
        Ok(())
    }

    /// Puts the node of a column and where its buffers stand, those of the columns inside it aside. A column says that
    /// its cells are such of its shape, and that there is room for them.
    fn put_own(&mut self, column: &Column) -> Result<(), AllocError>
        requires few { length column.now.cells ≤ values_limit }
        requires short { self.now.end
            + length (body_with (own_buffers (layout_in column.now) column.now.cells)) < 2 ^ 63 }
        ensures adds { OnOk result (Adds self.old self.new (own_parts (layout_in column.now) column.now.cells)) }
        ensures fit { OnOk result (AllByRecursion (IsCellOf column.now.shape) column.now.cells) }
        ensures room { OnOk result (HasRoom (layout_in column.now) column.now.cells) }
    {
        self.nodes
            .push((column.len() as i64, column.null_count() as i64))?;
        let buffers = [column.buffer(0), column.buffer(1), column.buffer(2)];
        self.put_buffers(&buffers[..buffers_in(column.layout())])
    }
}

/// Puts what a header says of columns and of those inside them, depth first.
fn put_columns(writer: &mut HeadWriter, columns: &[Column]) -> Result<(), AllocError>
    requires few { AllByRecursion (λ node. node.0 ≤ℤ pos values_limit) (parts_held columns.now).nodes }
    requires short { writer.now.end + length (body_with (parts_held columns.now).buffers) < 2 ^ 63 }
    ensures adds { OnOk result (Adds writer.old writer.new (parts_held columns.now)) }
    ensures sound { OnOk result (AreSound columns.now) }
{
    for column in columns {
        writer.put_own(column)?;
        put_columns(writer, column.inside())?;
    }
    Ok(())
}

/// The header of a batch, which [`crate::write_body`] describes, where its body has less than 2^63 bytes
/// ([`crate::body_length`]). Of the columns no byte is read or copied. [`AllocError`] says that memory was refused.
pub fn batch_head(alloc: Global, schema: &Schema, batch: &Batch) -> Result<BatchHead, AllocError>
    requires of_schema { IsBatchOf (schema_of schema.now) batch.now }
    requires short { length (canonical_body (schema_of schema.now) (rows_of batch.now)) < 2 ^ 63 }
    ensures head { IfOk result
        (λ head. head_of head ≡ canonical_head (schema_of schema.now) (rows_of batch.now)) }
    ensures room { OnOk result (CanBeWritten (schema_of schema.now) (rows_of batch.now)) }
{
    let mut writer = HeadWriter {
        nodes: Vec::new(alloc),
        buffers: Vec::new(alloc),
        end: 0,
    };
    put_columns(&mut writer, &batch.columns)?;
    Ok(BatchHead {
        length: batch.rows as i64,
        body_length: writer.end as i64,
        nodes: writer.nodes,
        buffers: writer.buffers,
        compressed: false,
    })
}
