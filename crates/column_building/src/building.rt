//! The column of some cells, with those inside it.

ghost use Rattle.std.specs.Prelude.{◌≡◌, ◌↔◌, ◌≤◌, ◌++◌, ◌∷◌, true, false, map, length, [], IfOk, IfErr, OnOk, IsErrOf};
ghost use Rattle.std.specs.List.{AllByRecursion};
ghost use Rattle.batch_types.specs.Cells.{list_cell, tuple_cell, no_cell};
ghost use Rattle.batch_types.specs.Canonical.{blank_of, first_blank, blanks_of, fields_parts};
ghost use Rattle.batch_types.specs.LaysOut.{values_limit};
ghost use Rattle.batch_types.specs.Layouts.{list_layout, fixed_size_list_layout, struct_layout};
ghost use Rattle.batch_types.specs.Shapes.{shape};
ghost use Rattle.batch_types.specs.Typed.{IsCellOf, IsElementOf};
ghost use Rattle.batch_types.specs.Written.{AreRooms, AreFieldRooms};
ghost use Rattle.batch_columns.specs.FieldShapes.{field_shapes};
ghost use Rattle.batch_cells.specs.CellViews.{cell_of};
ghost use Rattle.column_building.specs.Slots.{slot_cells};
ghost use Rattle.column_building.specs.Whole.{field_shape, count_shapes};
ghost use Rattle.column_building.specs.Whole.{is_whole as is_whole_shape, are_whole as are_whole_shapes};
ghost use Rattle.column_building.specs.Built.{IsBuilt, IsBuiltFirst, AreBuiltFields, DoFieldsFit};
ghost use Rattle.column_building.specs.Built.{IsCause, IsCauseFirst, IsCauseOf, AreFewValues};
ghost use Rattle.column_building.specs.Rows.{CanBeMade};

use crate::fault::CellsFault;
use crate::fields::{fields_in, is_whole, layout_in};
use crate::fitting::are_cells_of;
use crate::flat::{binary_column, bits_column, sized_column, texts_column};
use crate::nested::around;
use crate::slots::{are_many, blocks, fields_at, slots_of, spans};
use batch_cells::Cell;
use batch_columns::{Column, Layout, VALUES_LIMIT};
use header_types::Field;
use std::alloc::{AllocError, Global};

/// Appends a column.
pub(crate) fn put_column(columns: &mut Vec<Column>, column: Column) -> Result<(), AllocError>
    ensures { OnOk result (columns.new.items ≡ columns.old.items ++ column ∷ []) }
{
    columns.push(column)?;
    Ok(())
}

/// A column alone.
fn only(alloc: Global, column: Column) -> Result<Vec<Column>, AllocError>
    ensures { IfOk result (λ columns. columns.items ≡ column ∷ []) }
{
    let mut columns = Vec::new(alloc);
    put_column(&mut columns, column)?;
    Ok(columns)
}

/// The column of a field of some slots, whose cells are of the field.
#[cycle(building)]
fn build_column(alloc: Global, field: &Field, slots: &[Option<&Cell>]) -> Result<Column, CellsFault>
    requires whole { is_whole_shape (field_shape field.now) ≡ true }
    requires fit { AllByRecursion (IsCellOf (field_shape field.now))
        (slot_cells (blank_of (field_shape field.now)) slots.now) }
    requires few { length slots.now ≤ values_limit }
    ensures built { IfOk result (λ column. IsBuilt (field_shape field.now)
        (slot_cells (blank_of (field_shape field.now)) slots.now) column) }
    ensures cause { IfErr result (λ fault. IsCause (field_shape field.now)
        (slot_cells (blank_of (field_shape field.now)) slots.now) fault) }
{
    let inside = fields_in(field);
    match layout_in(field) {
        Layout::Null => Ok(Column::nulls(alloc, slots.len())),
        Layout::Bits => bits_column(alloc, slots),
        Layout::Bytes { size } => sized_column(alloc, size, slots),
        Layout::Binary => binary_column(alloc, slots),
        Layout::Utf8 => texts_column(alloc, slots),
        Layout::List => list_column(alloc, inside, slots),
        Layout::FixedSizeList { size } => blocks_column(alloc, size, inside, slots),
        Layout::Struct => struct_column(alloc, inside, slots),
    }
}

/// The column of lists of the first of these fields.
#[cycle(building)]
fn list_column(
    alloc: Global,
    fields: &[Field],
    slots: &[Option<&Cell>],
) -> Result<Column, CellsFault>
    requires whole { is_whole_shape (shape (list_layout 4) (field_shapes fields.now)) ≡ true }
    requires fit { AllByRecursion (IsCellOf (shape (list_layout 4) (field_shapes fields.now)))
        (slot_cells (list_cell no_cell) slots.now) }
    requires few { length slots.now ≤ values_limit }
    ensures built { IfOk result (λ column. IsBuilt (shape (list_layout 4) (field_shapes fields.now))
        (slot_cells (list_cell no_cell) slots.now) column) }
    ensures cause { IfErr result (λ fault. IsCause (shape (list_layout 4) (field_shapes fields.now))
        (slot_cells (list_cell no_cell) slots.now) fault) }
{
    if are_many(0, slots) {
        return Err(CellsFault::TooMany);
    }
    let (offsets, elements) = spans(alloc, slots)?;
    let inside = build_first(alloc, fields, &elements)?;
    Ok(around(alloc, Layout::List, slots, offsets, inside)?)
}

/// The column of lists of this size of the first of these fields.
#[cycle(building)]
fn blocks_column(
    alloc: Global,
    size: u32,
    fields: &[Field],
    slots: &[Option<&Cell>],
) -> Result<Column, CellsFault>
    requires whole { is_whole_shape (shape (fixed_size_list_layout size) (field_shapes fields.now)) ≡ true }
    requires fit { AllByRecursion (IsCellOf (shape (fixed_size_list_layout size) (field_shapes fields.now)))
        (slot_cells (blank_of (shape (fixed_size_list_layout size) (field_shapes fields.now))) slots.now) }
    requires few { length slots.now ≤ values_limit }
    ensures built { IfOk result (λ column. IsBuilt (shape (fixed_size_list_layout size) (field_shapes fields.now))
        (slot_cells (blank_of (shape (fixed_size_list_layout size) (field_shapes fields.now))) slots.now) column) }
    ensures cause { IfErr result (λ fault. IsCause (shape (fixed_size_list_layout size) (field_shapes fields.now))
        (slot_cells (blank_of (shape (fixed_size_list_layout size) (field_shapes fields.now))) slots.now) fault) }
{
    if are_many(size as usize, slots) {
        return Err(CellsFault::TooMany);
    }
    let elements = blocks(alloc, size as usize, slots)?;
    let inside = build_first(alloc, fields, &elements)?;
    let layout = Layout::FixedSizeList { size };
    Ok(around(alloc, layout, slots, Vec::new(alloc), inside)?)
}

/// The column of structs of these fields.
#[cycle(building)]
fn struct_column(
    alloc: Global,
    fields: &[Field],
    slots: &[Option<&Cell>],
) -> Result<Column, CellsFault>
    requires whole { are_whole_shapes (field_shapes fields.now) ≡ true }
    requires fit { AllByRecursion (IsCellOf (shape struct_layout (field_shapes fields.now)))
        (slot_cells (blank_of (shape struct_layout (field_shapes fields.now))) slots.now) }
    requires few { length slots.now ≤ values_limit }
    ensures built { IfOk result (λ column. IsBuilt (shape struct_layout (field_shapes fields.now))
        (slot_cells (blank_of (shape struct_layout (field_shapes fields.now))) slots.now) column) }
    ensures cause { IfErr result (λ fault. IsCause (shape struct_layout (field_shapes fields.now))
        (slot_cells (blank_of (shape struct_layout (field_shapes fields.now))) slots.now) fault) }
{
    let inside = build_fields(alloc, fields, slots)?;
    Ok(around(alloc, Layout::Struct, slots, Vec::new(alloc), inside)?)
}

/// The column of the first of these fields, the only one inside a list.
#[cycle(building)]
fn build_first(
    alloc: Global,
    fields: &[Field],
    slots: &[Option<&Cell>],
) -> Result<Vec<Column>, CellsFault>
    requires whole { (count_shapes (field_shapes fields.now) ≡ 1)
        × (are_whole_shapes (field_shapes fields.now) ≡ true) }
    requires fit { AllByRecursion (IsElementOf (field_shapes fields.now))
        (slot_cells (first_blank (field_shapes fields.now)) slots.now) }
    requires few { length slots.now ≤ values_limit }
    ensures built { IfOk result (λ columns. IsBuiltFirst (field_shapes fields.now)
        (slot_cells (first_blank (field_shapes fields.now)) slots.now) columns.items) }
    ensures cause { IfErr result (λ fault. IsCauseFirst (field_shapes fields.now)
        (slot_cells (first_blank (field_shapes fields.now)) slots.now) fault) }
{
    match fields {
        [field, ..] => {
            let column = build_column(alloc, field, slots)?;
            Ok(only(alloc, column)?)
        }
        [] => Ok(Vec::new(alloc)),
    }
}

/// The columns of these fields of the cells of structs.
#[cycle(building)]
fn build_fields(
    alloc: Global,
    fields: &[Field],
    slots: &[Option<&Cell>],
) -> Result<Vec<Column>, CellsFault>
    requires whole { are_whole_shapes (field_shapes fields.now) ≡ true }
    requires fit { DoFieldsFit (field_shapes fields.now) 0
        (slot_cells (tuple_cell (blanks_of (field_shapes fields.now))) slots.now) }
    requires few { length slots.now ≤ values_limit }
    ensures built { IfOk result (λ columns. AreBuiltFields (field_shapes fields.now) 0
        (slot_cells (tuple_cell (blanks_of (field_shapes fields.now))) slots.now) columns.items) }
    ensures cause { IfErr result (λ fault. IsCauseOf
        (fields_parts (field_shapes fields.now) 0
        (slot_cells (tuple_cell (blanks_of (field_shapes fields.now))) slots.now)).nodes
        (AreFieldRooms (field_shapes fields.now) 0
        (slot_cells (tuple_cell (blanks_of (field_shapes fields.now))) slots.now)) fault) }
{
    let mut columns = Vec::new(alloc);
    for index in 0..fields.len() {
        let cells = fields_at(alloc, index, slots)?;
        put_column(&mut columns, build_column(alloc, &fields[index], &cells)?)?;
    }
    Ok(columns)
}

/// The column of a field of these cells, each a null or a value of the field's type. It is
///
/// - `WrongChildren` exactly where the field, or one inside it, has not as many fields inside it as its type needs;
/// - else `NotOfField` exactly where one of the cells is none of the field's;
/// - else `TooMany` only where this column, or one inside it, has more than 16,777,216 values, `TooLong` only where the
///   bytes of one of them are 2^31 or more in all, and one of the two where either is so, unless memory is refused
///   before it is seen;
/// - else the column, or `OutOfMemory`.
///
/// The time is linear in the cells and in the blank ones that stand under nulls: as many as the list's size for each
/// null of a list of fixed size, and one of each field for each null of a struct.
pub fn column_of(alloc: Global, field: &Field, cells: &[Cell]) -> Result<Column, CellsFault>
    ensures shape { IfOk result (λ column. column.shape ≡ field_shape field.now) }
    ensures cells { IfOk result (λ column. column.cells ≡ map cell_of cells.now) }
    ensures children { IsErrOf result CellsFault.WrongChildren ↔ (is_whole_shape (field_shape field.now) ≡ false) }
    ensures kinds { IsErrOf result CellsFault.NotOfField ↔ ((is_whole_shape (field_shape field.now) ≡ true)
        × ¬ (AllByRecursion (IsCellOf (field_shape field.now)) (map cell_of cells.now))) }
    ensures many { IsErrOf result CellsFault.TooMany
        → ¬ (AreFewValues (field_shape field.now) (map cell_of cells.now)) }
    ensures long { IsErrOf result CellsFault.TooLong
        → ¬ (AreRooms (field_shape field.now) (map cell_of cells.now)) }
    ensures can { OnOk result (CanBeMade (field_shape field.now) (map cell_of cells.now)) }
{
    if !is_whole(field) {
        return Err(CellsFault::WrongChildren);
    }
    if !are_cells_of(field, cells) {
        return Err(CellsFault::NotOfField);
    }
    if cells.len() > VALUES_LIMIT {
        return Err(CellsFault::TooMany);
    }
    let slots = slots_of(alloc, cells)?;
    build_column(alloc, field, &slots)
}
