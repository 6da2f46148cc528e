//! What is counted of the columns of fields, in one walk from the rows down.

ghost use Rattle.std.specs.Prelude.{◌≡◌, ◌+◌, ◌-◌, ◌*◌, ◌<◌, ◌≤◌, ◌≤ℤ◌, ◌∷◌, [], ℕ, List, pos, min, map, length, get_or, true, false, IsTrue};
ghost use Rattle.header_types.specs.Fields.{tree, more, no_more};
ghost use Rattle.header_types.specs.FieldView.{field_head_of, entries_in, fields_in};
ghost use Rattle.header_types.specs.Limits.{fields_limit};
ghost use Rattle.batch_types.specs.Laid.{node_count};
ghost use Rattle.batch_types.specs.LaysOut.{values_limit};
ghost use Rattle.batch_types.specs.Layouts.{layout_of as layout_of_type, buffers_in_layout};
ghost use Rattle.batch_columns.specs.Held.{layout_named};
ghost use Rattle.batch_columns.specs.Read.{column_at, IsSourceOf, LiesInside};
ghost use Rattle.batch_columns.specs.Sources.{nodes_of_tree, buffers_of_tree};
ghost use Rattle.batch_reading.specs.Planned.{spots_inside};
ghost use Rattle.batch_reading.specs.Readable.{forest_seen, columns_there};
ghost use Rattle.batch_reading.specs.Spots.{Spot};
ghost use Rattle.batch_reading.specs.Taken.{seen};
ghost use Rattle.batch_lengths.specs.Along.{run_spots, source_spots, marked_from, mark_of, spots_marked, IsMarked, IsGathered, AreTaken};
ghost use Rattle.batch_lengths.specs.Reach.{ReadsTo, end_inside};
ghost use Rattle.batch_lengths.specs.Sizes.{MayWalk};
ghost use Rattle.batch_lengths.specs.Tally.{tally, tally_of, added_from, counted_with};

use crate::counted::Counted;
use crate::marked::count_marks;
use crate::run::{is_whole, run_inside};
use crate::validity_mask::{BLOCK, ValidityMask};
use batch_columns::{EncodedColumn, Layout, Place, encoded_column_at, layout_of, place_behind};
use header_types::{BatchHead, Field};

/// The column of a field as the header and the body have it, whose buffers lie inside the body.
fn source_of<'a>(field: &Field, head: &BatchHead, place: Place, body: &'a [u8]) -> EncodedColumn<'a>
    requires node { place.node < length head.now.nodes.items }
    requires counted { pos 0 ≤ℤ (get_or head.now.nodes.items place.node (pos 0, pos 0)).0 }
    requires buffers { place.buffer + buffers_in_layout (layout_of_type (field_head_of field.now).data_type)
        ≤ length head.now.buffers.items }
    requires inside { LiesInside body.now (column_at field.now head.now place) }
    ensures { IsSourceOf body.now (column_at field.now head.now place) result }
{
    encoded_column_at(field, head, place, body).unwrap()
}

/// Where the column behind that of a field and behind those inside it stands.
pub(crate) fn place_after(field: &Field, place: Place) -> Place
    requires node { place.node + 1 + node_count (fields_in field.now) ≤ fields_limit }
    requires buffer { place.buffer ≤ 3 * place.node }
    ensures node { result.node ≡ place.node + nodes_of_tree
        (tree (field_head_of field.now) (entries_in field.now) (fields_in field.now)) }
    ensures buffer { result.buffer ≡ place.buffer + buffers_of_tree
        (tree (field_head_of field.now) (entries_in field.now) (fields_in field.now)) }
    ensures few { result.buffer ≤ 3 * result.node }
{
    place_behind(&field.children, place.inside(layout_of(&field.ty)))
}

/// Whether the places inside a column are those of its values themselves.
fn has_same_places(layout: Layout) -> bool
    ensures spots { IsTrue result → (offsets : List ℕ) (spots : List Spot)
        → spots_inside (layout_named layout) offsets spots ≡ spots }
    ensures ends { IsTrue result → (offsets : List ℕ) (end : ℕ) → end_inside (layout_named layout) offsets end ≡ end }
{
    match layout {
        Layout::Struct => true,
        Layout::FixedSizeList { size } => size == 1,
        Layout::List
        | Layout::Null
        | Layout::Bits
        | Layout::Bytes { .. }
        | Layout::Binary
        | Layout::Utf8 => false,
    }
}

/// Counts these cells of the columns inside a column, if there are any.
#[cycle(walking)]
fn walk_some(
    field: &Field,
    head: &BatchHead,
    first: Place,
    body: &[u8],
    marks: &ValidityMask,
    table: &mut [Counted],
)
    requires marked { marks.now.all ≡ false → marks.now.count ≤ 1024 }
    requires may { MayWalk (fields_in field.now) head.now first body.now (marks.now.start + marks.now.count) }
    requires room { first.node + node_count (fields_in field.now) ≤ length table.old }
    ensures long { length table.new ≡ length table.old }
    ensures adds { table.new ≡ counted_with (fields_in field.now) head.now first body.now table.old (spots_marked marks.now) }
{
    if marks.count > 0 {
        walk(&field.children, head, first, body, marks, table);
    }
}

/// Takes in a run of cells of the columns inside a column behind those that are gathered, which are counted before where it
/// does not fit.
#[cycle(walking)]
fn gather(
    field: &Field,
    head: &BatchHead,
    first: Place,
    body: &[u8],
    start: usize,
    count: usize,
    gathered: &mut ValidityMask,
    table: &mut [Counted],
)
    requires gathered { IsGathered gathered.old }
    requires behind { gathered.old.start + gathered.old.count ≤ start }
    requires may { MayWalk (fields_in field.now) head.now first body.now (start + count) }
    requires room { first.node + node_count (fields_in field.now) ≤ length table.old }
    ensures gathered { IsGathered gathered.new }
    ensures end { gathered.new.start + gathered.new.count ≡ start + count }
    ensures long { length table.new ≡ length table.old }
    ensures adds { counted_with (fields_in field.now) head.now first body.now table.new (spots_marked gathered.new)
        ≡ counted_with (fields_in field.now) head.now first body.now
        (counted_with (fields_in field.now) head.now first body.now table.old (spots_marked gathered.old))
        (run_spots start count) }
{
    if !gathered.join(start, count) {
        walk_some(field, head, first, body, gathered, table);
        *gathered = ValidityMask::run(start, count);
    }
}

/// Takes in what is inside so many values from this number on, which are all wanted, or are all not.
#[cycle(walking)]
fn gather_alike(
    field: &Field,
    source: &EncodedColumn,
    head: &BatchHead,
    first: Place,
    body: &[u8],
    marks: &ValidityMask,
    number: usize,
    alike: usize,
    gathered: &mut ValidityMask,
    table: &mut [Counted],
)
    requires some { 0 < alike }
    requires there { number + alike ≤ marks.now.count }
    requires alike { (k : ℕ) → k < alike → mark_of marks.now (number + k) ≡ mark_of marks.now number }
    requires taken { AreTaken source.now.validity.now marks.now }
    requires reads { ReadsTo source.now (marks.now.start + marks.now.count) }
    requires may { MayWalk (fields_in field.now) head.now first body.now
        (end_inside (layout_named source.now.layout) source.now.offsets.now (marks.now.start + marks.now.count)) }
    requires room { first.node + node_count (fields_in field.now) ≤ length table.old }
    requires gathered { IsGathered gathered.old }
    requires behind { gathered.old.start + gathered.old.count
        ≤ end_inside (layout_named source.now.layout) source.now.offsets.now (marks.now.start + number) }
    ensures gathered { IsGathered gathered.new }
    ensures end { gathered.new.start + gathered.new.count
        ≤ end_inside (layout_named source.now.layout) source.now.offsets.now (marks.now.start + number + alike) }
    ensures long { length table.new ≡ length table.old }
    ensures adds { counted_with (fields_in field.now) head.now first body.now table.new (spots_marked gathered.new)
        ≡ counted_with (fields_in field.now) head.now first body.now
        (counted_with (fields_in field.now) head.now first body.now table.old (spots_marked gathered.old))
        (spots_inside (layout_named source.now.layout) source.now.offsets.now (marked_from marks.now number alike)) }
{
    if marks.is_marked(number) {
        let (start, count) = run_inside(source, marks.start + number, alike);
        gather(field, head, first, body, start, count, gathered, table);
    }
}

/// Counts what is inside the values that are wanted and valid. It is gathered in blocks and in runs, so that the columns
/// inside are gone over once for each of those, and not for each value.
#[cycle(walking)]
fn walk_places(
    field: &Field,
    source: &EncodedColumn,
    head: &BatchHead,
    first: Place,
    body: &[u8],
    marks: &ValidityMask,
    table: &mut [Counted],
)
    requires one { marks.now.all ≡ false }
    requires few { marks.now.count ≤ 1024 }
    requires taken { AreTaken source.now.validity.now marks.now }
    requires reads { ReadsTo source.now (marks.now.start + marks.now.count) }
    requires may { MayWalk (fields_in field.now) head.now first body.now
        (end_inside (layout_named source.now.layout) source.now.offsets.now (marks.now.start + marks.now.count)) }
    requires room { first.node + node_count (fields_in field.now) ≤ length table.old }
    ensures { table.new ≡ counted_with (fields_in field.now) head.now first body.now table.old
        (spots_inside (layout_named source.now.layout) source.now.offsets.now (spots_marked marks.now)) }
{
    let mut gathered = ValidityMask::run(0, 0);
    let mut done = 0;
    while done < marks.count {
        let alike = marks.alike(done);
        gather_alike(
            field,
            source,
            head,
            first,
            body,
            marks,
            done,
            alike,
            &mut gathered,
            table,
        );
        done += alike;
    }
    walk_some(field, head, first, body, &gathered, table);
}

/// Counts what is inside the values that are wanted and valid.
#[cycle(walking)]
fn walk_taken(
    field: &Field,
    source: &EncodedColumn,
    head: &BatchHead,
    first: Place,
    body: &[u8],
    marks: &ValidityMask,
    table: &mut [Counted],
)
    requires one { marks.now.all ≡ false }
    requires marked { IsMarked marks.now }
    requires taken { AreTaken source.now.validity.now marks.now }
    requires reads { ReadsTo source.now (marks.now.start + marks.now.count) }
    requires may { MayWalk (fields_in field.now) head.now first body.now
        (end_inside (layout_named source.now.layout) source.now.offsets.now (marks.now.start + marks.now.count)) }
    requires room { first.node + node_count (fields_in field.now) ≤ length table.old }
    ensures { table.new ≡ counted_with (fields_in field.now) head.now first body.now table.old
        (spots_inside (layout_named source.now.layout) source.now.offsets.now (spots_marked marks.now)) }
{
    if has_same_places(source.layout) {
        walk(&field.children, head, first, body, marks, table);
    } else {
        walk_places(field, source, head, first, body, marks, table);
    }
}

/// Counts what is inside one block of a run of values.
#[cycle(walking)]
fn walk_block(
    field: &Field,
    source: &EncodedColumn,
    head: &BatchHead,
    first: Place,
    body: &[u8],
    start: usize,
    count: usize,
    table: &mut [Counted],
)
    requires some { (0 < count) × (count ≤ 1024) }
    requires reads { ReadsTo source.now (start + count) }
    requires may { MayWalk (fields_in field.now) head.now first body.now
        (end_inside (layout_named source.now.layout) source.now.offsets.now (start + count)) }
    requires room { first.node + node_count (fields_in field.now) ≤ length table.old }
    ensures { table.new ≡ counted_with (fields_in field.now) head.now first body.now table.old
        (source_spots source.now (run_spots start count)) }
{
    let marks = ValidityMask::run(start, count).taken(source.validity);
    walk_taken(field, source, head, first, body, &marks, table);
}

/// Counts what is inside a run of values, block by block.
#[cycle(walking)]
fn walk_blocks(
    field: &Field,
    source: &EncodedColumn,
    head: &BatchHead,
    first: Place,
    body: &[u8],
    start: usize,
    count: usize,
    table: &mut [Counted],
)
    requires reads { ReadsTo source.now (start + count) }
    requires may { MayWalk (fields_in field.now) head.now first body.now
        (end_inside (layout_named source.now.layout) source.now.offsets.now (start + count)) }
    requires room { first.node + node_count (fields_in field.now) ≤ length table.old }
    ensures { table.new ≡ counted_with (fields_in field.now) head.now first body.now table.old
        (source_spots source.now (run_spots start count)) }
{
    let mut done = 0;
    while done < count {
        let more = (count - done).min(BLOCK);
        walk_block(field, source, head, first, body, start + done, more, table);
        done += more;
    }
}

/// Counts what is inside a column of whose values these are wanted.
#[cycle(walking)]
fn walk_inside(
    field: &Field,
    source: &EncodedColumn,
    head: &BatchHead,
    first: Place,
    body: &[u8],
    marks: &ValidityMask,
    table: &mut [Counted],
)
    requires marked { IsMarked marks.now }
    requires reads { ReadsTo source.now (marks.now.start + marks.now.count) }
    requires may { MayWalk (fields_in field.now) head.now first body.now
        (end_inside (layout_named source.now.layout) source.now.offsets.now (marks.now.start + marks.now.count)) }
    requires room { first.node + node_count (fields_in field.now) ≤ length table.old }
    ensures { table.new ≡ counted_with (fields_in field.now) head.now first body.now table.old
        (source_spots source.now (spots_marked marks.now)) }
{
    if !marks.all {
        let marks = marks.taken(source.validity);
        walk_taken(field, source, head, first, body, &marks, table);
        return;
    }
    if !is_whole(source.validity, marks.start, marks.count) {
        walk_blocks(
            field,
            source,
            head,
            first,
            body,
            marks.start,
            marks.count,
            table,
        );
        return;
    }
    let (start, count) = run_inside(source, marks.start, marks.count);
    walk_some(
        field,
        head,
        first,
        body,
        &ValidityMask::run(start, count),
        table,
    );
}

/// Counts a column and what is inside it.
#[cycle(walking)]
fn walk_column(
    field: &Field,
    head: &BatchHead,
    place: Place,
    body: &[u8],
    marks: &ValidityMask,
    table: &mut [Counted],
)
    requires marked { IsMarked marks.now }
    requires may { MayWalk (more (tree (field_head_of field.now) (entries_in field.now) (fields_in field.now)) no_more) head.now
        place body.now (marks.now.start + marks.now.count) }
    requires room { place.node + 1 + node_count (fields_in field.now) ≤ length table.old }
    ensures { table.new ≡ added_from place.node table.old
        (tally_of body.now (column_at field.now head.now place) (spots_marked marks.now)) }
{
    let source = source_of(field, head, place, body);
    let counted = count_marks(&source, marks);
    table[place.node] = table[place.node].plus(counted);
    if !field.children.is_empty() {
        let first = place.inside(source.layout);
        walk_inside(field, &source, head, first, body, marks, table);
    }
}

/// Adds to the table, in which each node of the header has an entry, what is counted of the columns of some fields and of
/// those inside them where these cells are wanted. Their columns stand at this place of the header. Each column costs its own
/// values, in runs where none is null, and some steps for each run.
#[cycle(walking)]
pub(crate) fn walk(
    fields: &[Field],
    head: &BatchHead,
    place: Place,
    body: &[u8],
    marks: &ValidityMask,
    table: &mut [Counted],
)
    requires marked { IsMarked marks.now }
    requires may { MayWalk (forest_seen fields.now) head.now place body.now (marks.now.start + marks.now.count) }
    requires room { place.node + node_count (forest_seen fields.now) ≤ length table.old }
    ensures { table.new ≡ counted_with (forest_seen fields.now) head.now place body.now table.old
        (spots_marked marks.now) }
{
    let mut next = place;
    for field in fields {
        walk_column(field, head, next, body, marks, table);
        next = place_after(field, next);
    }
}
