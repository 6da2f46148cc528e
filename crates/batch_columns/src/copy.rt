//! Copies of columns.

ghost use Rattle.std.specs.Prelude.{◌≡◌, IfOk};
ghost use Rattle.batch_columns.specs.Contents.{layout_in, shapes_in};
ghost use Rattle.batch_columns.specs.Held.{shapes_held};
ghost use Rattle.batch_columns.specs.Kept.{HaveInside};

use crate::column::Column;
use std::alloc::{AllocError, Global};

/// A copy of a column with buffers of its own, around copies of the columns inside it.
pub fn with_inside(
    alloc: Global,
    column: &Column,
    inside: Vec<Column>,
) -> Result<Column, AllocError>
    requires shapes { shapes_held inside.items ≡ shapes_in column.now }
    requires held { HaveInside (layout_in column.now) column.now.cells inside.items }
    ensures { IfOk result (λ new. new ≡ column.now) }
{
    Ok(Column::from_parts(
        column.layout(),
        column.len(),
        column.null_count(),
        Vec::from_clones(alloc, column.validity())?,
        Vec::from_clones(alloc, column.offsets())?,
        Vec::from_clones(alloc, column.values())?,
        inside,
    ))
}

/// Copies of these columns, one by one.
pub fn copies(alloc: Global, columns: &[Column]) -> Result<Vec<Column>, AllocError>
    ensures { IfOk result (λ new. new.items ≡ columns.now) }
{
    let mut new = Vec::new(alloc);
    for column in columns {
        let inside = copies(alloc, column.inside())?;
        new.push(with_inside(alloc, column, inside)?)?;
    }
    Ok(new)
}
