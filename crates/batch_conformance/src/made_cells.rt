//! Columns and batches that `column_building` makes of thousands of plain cells, and cells that it refuses.

use batch_cells::{Cell, cells_of};
use batch_columns::Batch;
use batch_types::BatchFault;
use column_building::{CellsFault, RowsFault, batch_of, column_of};
use header_types::{BitWidth, Field, Schema, Ty};
use record_batches::{read_batch, write_body};
use std::alloc::{AllocError, Global};
use std::test::Fail;

/// A whole number of one byte.
const INT8: Ty = Ty::Int {
    bit_width: BitWidth::Eight,
    is_signed: true,
};

/// A field of this type with these inside it.
fn field(alloc: Global, ty: Ty, children: Vec<Field>) -> Field {
    Field {
        name: String::new(alloc),
        nullable: true,
        ty,
        children,
        metadata: Vec::new(alloc),
    }
}

/// A field of this type with that one inside it.
fn around(alloc: Global, ty: Ty, inside: Field) -> Result<Field, AllocError> {
    let mut children = Vec::new(alloc);
    children.push(inside)?;
    Ok(field(alloc, ty, children))
}

/// A field without any inside it.
fn plain(alloc: Global, ty: Ty) -> Field {
    field(alloc, ty, Vec::new(alloc))
}

/// A struct of a text.
fn texts(alloc: Global) -> Result<Field, AllocError> {
    around(alloc, Ty::Struct, plain(alloc, Ty::Utf8))
}

/// The cell of these bytes.
fn bytes(alloc: Global, bytes: &[u8]) -> Result<Cell, AllocError> {
    Ok(Cell::Bytes(Vec::from_slice(alloc, bytes)?))
}

/// The cells of these bytes, one a byte.
fn numbers(alloc: Global, values: &[u8]) -> Result<Vec<Cell>, AllocError> {
    let mut cells = Vec::new(alloc);
    for value in values {
        cells.push(bytes(alloc, &[*value])?)?;
    }
    Ok(cells)
}

/// The cell of a struct of this text.
fn text(alloc: Global, text: &[u8]) -> Result<Cell, AllocError> {
    let mut cells = Vec::new(alloc);
    cells.push(bytes(alloc, text)?)?;
    Ok(Cell::Tuple(cells))
}

/// A table of this field alone.
fn table(alloc: Global, field: Field) -> Result<Schema, AllocError> {
    let mut fields = Vec::new(alloc);
    fields.push(field)?;
    Ok(Schema {
        fields,
        metadata: Vec::new(alloc),
    })
}

/// Whether the batch is one of the schema, and what is written of it is read again equal.
fn is_read_again(alloc: Global, schema: &Schema, batch: &Batch) -> Result<bool, AllocError> {
    if !schema.in_profile() || !batch.is_of(schema) {
        return Ok(false);
    }
    let (head, body) = write_body(alloc, schema, batch)?;
    match read_batch(alloc, schema, &head, &body) {
        Ok(again) => Ok(again == *batch),
        Err(BatchFault::OutOfMemory) => Err(AllocError),
        Err(_) => Ok(false),
    }
}

/// The batch of these cells alone; no fault but want of memory is awaited.
fn alone(alloc: Global, schema: &Schema, cells: Vec<Cell>) -> Result<Batch, AllocError> {
    let rows = cells.len() as u64;
    let mut columns = Vec::new(alloc);
    columns.push(cells)?;
    batch_of(alloc, schema, rows, &columns).map_err(|_| AllocError)
}

/// Whether the column that is made of the cells has them.
fn are_seen(alloc: Global, field: &Field, cells: &Vec<Cell>) -> Result<bool, AllocError> {
    let column = column_of(alloc, field, cells).map_err(|_| AllocError)?;
    Ok(cells_of(alloc, &column)? == *cells)
}

/// The fault that is told of these cells.
fn refused(alloc: Global, field: &Field, cells: &[Cell]) -> Option<CellsFault> {
    match column_of(alloc, field, cells) {
        Ok(_) => None,
        Err(fault) => Some(fault),
    }
}

/// Thousands of lists of numbers, every seventh of them null.
fn thousands_of_lists(alloc: Global) -> Result<Vec<Cell>, AllocError> {
    let mut cells = Vec::new(alloc);
    for number in 0..5000 {
        let cell = if number % 7 == 0 {
            Cell::Null
        } else if number % 2 == 0 {
            Cell::List(numbers(alloc, &[1, 2])?)
        } else {
            Cell::List(numbers(alloc, &[3])?)
        };
        cells.push(cell)?;
    }
    Ok(cells)
}

#[test]
fn thousands_of_lists_are_made(rt: HostRuntime) -> Result<(), Fail> {
    let alloc = rt.alloc();
    let lists = around(alloc, Ty::List, plain(alloc, INT8))?;
    let are_seen = are_seen(alloc, &lists, &thousands_of_lists(alloc)?)?;
    assert!(rt; are_seen);
    Ok(())
}

#[test]
fn thousands_of_lists_are_written_and_read(rt: HostRuntime) -> Result<(), Fail> {
    let alloc = rt.alloc();
    let schema = table(alloc, around(alloc, Ty::List, plain(alloc, INT8))?)?;
    let batch = alone(alloc, &schema, thousands_of_lists(alloc)?)?;
    let is_read_again = is_read_again(alloc, &schema, &batch)?;
    assert!(rt; is_read_again);
    Ok(())
}

/// Structs of texts, and a null.
fn four_texts(alloc: Global) -> Result<Vec<Cell>, AllocError> {
    let mut cells = Vec::new(alloc);
    for word in [b"one".as_slice(), b"", b"three"] {
        cells.push(text(alloc, word)?)?;
    }
    cells.push(Cell::Null)?;
    Ok(cells)
}

/// Whether the batch is written and read again equal, where each call that is refused memory is made again.
fn comes_back(alloc: Global, schema: &Schema, batch: &Batch) -> Result<bool, AllocError> {
    if !schema.in_profile() || !batch.is_of(schema) {
        return Ok(false);
    }
    let (head, body) = match write_body(alloc, schema, batch) {
        Ok(written) => written,
        Err(_) => write_body(alloc, schema, batch)?,
    };
    let read = match read_batch(alloc, schema, &head, &body) {
        Err(BatchFault::OutOfMemory) => read_batch(alloc, schema, &head, &body),
        read => read,
    };
    match read {
        Ok(again) => Ok(again == *batch),
        Err(BatchFault::OutOfMemory) => Err(AllocError),
        Err(_) => Ok(false),
    }
}

/// Run with every allocation refused in turn, it ends as before or for want of memory.
#[test]
fn a_batch_comes_back(rt: HostRuntime) -> Result<(), Fail> {
    let alloc = rt.alloc();
    let schema = table(alloc, texts(alloc)?)?;
    let batch = alone(alloc, &schema, four_texts(alloc)?)?;
    let comes_back = comes_back(alloc, &schema, &batch)?;
    assert!(rt; comes_back);
    Ok(())
}

#[test]
fn cells_of_other_types_are_refused(rt: HostRuntime) -> Result<(), Fail> {
    let alloc = rt.alloc();
    let lists = around(alloc, Ty::List, plain(alloc, INT8))?;
    let structs = texts(alloc)?;
    let mut bits = Vec::new(alloc);
    bits.push(Cell::Bit(true))?;
    let wanted = Some(CellsFault::NotOfField);
    assert!(rt; refused(alloc, &lists, &bits) == wanted, "at the top");
    let mut inner = Vec::new(alloc);
    inner.push(Cell::List(bits))?;
    assert!(rt; refused(alloc, &lists, &inner) == wanted, "in a list");
    let mut broken = Vec::new(alloc);
    broken.push(text(alloc, &[0xc3])?)?;
    assert!(rt; refused(alloc, &structs, &broken) == wanted, "in a struct");
    Ok(())
}

#[test]
fn lists_of_another_size_are_refused(rt: HostRuntime) -> Result<(), Fail> {
    let alloc = rt.alloc();
    let ty = Ty::FixedSizeList { list_size: 2 };
    let pairs = around(alloc, ty, plain(alloc, INT8))?;
    let mut cells = Vec::new(alloc);
    cells.push(Cell::List(numbers(alloc, &[1, 2, 3])?))?;
    assert!(rt; refused(alloc, &pairs, &cells) == Some(CellsFault::NotOfField));
    Ok(())
}

#[test]
fn fields_without_their_children_are_refused(rt: HostRuntime) -> Result<(), Fail> {
    let alloc = rt.alloc();
    let bare = plain(alloc, Ty::List);
    assert!(rt; refused(alloc, &bare, &[]) == Some(CellsFault::WrongChildren));
    Ok(())
}

#[test]
fn too_many_blanks_are_refused(rt: HostRuntime) -> Result<(), Fail> {
    let alloc = rt.alloc();
    let ty = Ty::FixedSizeList {
        list_size: 16_777_217,
    };
    let long = around(alloc, ty, plain(alloc, INT8))?;
    assert!(rt; refused(alloc, &long, &[Cell::Null]) == Some(CellsFault::TooMany));
    Ok(())
}

#[test]
fn rows_and_columns_have_to_agree(rt: HostRuntime) -> Result<(), Fail> {
    let alloc = rt.alloc();
    let schema = table(alloc, plain(alloc, INT8))?;
    let mut columns = Vec::new(alloc);
    let none = batch_of(alloc, &schema, 0, &columns).err();
    assert!(rt; none == Some(RowsFault::WrongColumns));
    columns.push(numbers(alloc, &[1, 2])?)?;
    let fewer = batch_of(alloc, &schema, 3, &columns).err();
    assert!(rt; fewer == Some(RowsFault::WrongLength));
    Ok(())
}
