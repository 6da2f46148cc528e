//! Laws of the definitions that reading and writing are to be proved against.

ghost use Rattle.std.specs.Prelude.{◌≡◌, ◌≢◌, ℕ, ◌-◌, ◌*◌, ◌^◌, ◌<◌, ◌≤◌, ◌%◌, pos, nat_abs, not, List, []};
ghost use Rattle.std.specs.Prelude.{map, length, take, drop, replicate, get_or};
ghost use Rattle.std.specs.List.{AllByRecursion, flat_map, sum_by};
ghost use Rattle.bitmaps.specs.Bits.{bit_of};
ghost use Rattle.bitmaps.specs.Packing.{packed_bytes};
ghost use Rattle.header_types.specs.Fields.{SchemaTree};
ghost use Rattle.header_types.specs.Header.{Head};
ghost use Rattle.batch_types.specs.declared.fault.BatchFault.{BatchFault as Fault};
ghost use Rattle.batch_types.specs.declared.fault.BatchFault.TheVariants.{Compressed, TooManyRows, NodeCount};
ghost use Rattle.batch_types.specs.declared.fault.BatchFault.TheVariants.{BufferCount, BufferRange, NullCount};
ghost use Rattle.batch_types.specs.declared.fault.BatchFault.TheVariants.{OffsetsFall, ChildShort, NotUtf8};
ghost use Rattle.batch_types.specs.Cells.{Cell, null_cell, Rows};
ghost use Rattle.batch_types.specs.Layouts.{Layout, null_layout};
ghost use Rattle.batch_types.specs.LaysOut.{LaysOut, IsFaultOf};
ghost use Rattle.header_types.specs.Profile.{InProfile};
ghost use Rattle.batch_types.specs.Shapes.{shape, Shapes};
ghost use Rattle.batch_types.specs.Typed.{AreBytes, IsCellOf, AreRowsOf};
ghost use Rattle.batch_types.specs.Placed.{bytes_from, bytes_at, is_valid, offset_at, start_of, length_of, value_bytes};
ghost use Rattle.batch_types.specs.Rules.{IsInside, DoRise};
ghost use Rattle.batch_types.specs.Canonical.{is_null, bit_in, bytes_or, elements_or, validity_of, offsets_of};
ghost use Rattle.batch_types.specs.Canonical.{bytes_lengths, elements_lengths, body_with, ranges_from, canonical_head};
ghost use Rattle.batch_types.specs.Canonical.{canonical_body};
ghost use Rattle.batch_types.specs.Written.{HasRoom, CanBeWritten, written_cell};
ghost use Rattle.batch_types.specs.Examples.{int8_table, int8_rows, int8_head, int8_body, texts_table, texts_rows};
ghost use Rattle.batch_types.specs.Examples.{texts_head, texts_body, texts_canonical_head, texts_canonical_body};
ghost use Rattle.batch_types.specs.Examples.{bool_table, bool_rows, bool_head, bool_body, pairs_table, pairs_rows};
ghost use Rattle.batch_types.specs.Examples.{pairs_head, pairs_body, no_texts_table, no_texts_rows, no_texts_head};
ghost use Rattle.batch_types.specs.Examples.{points_table, points_rows, points_head, points_body, bare_table, bare_rows};
ghost use Rattle.batch_types.specs.Examples.{bare_head, most_rows, most_head, crowded_head, heavy_head};
ghost use Rattle.batch_types.specs.Examples.{zeros, nulls_table, nulls_rows, nulls_head, miscounted_head, falling_head};
ghost use Rattle.batch_types.specs.Examples.{falling_body, compressed_head, long_head, nodeless_head, bufferless_head};
ghost use Rattle.batch_types.specs.Examples.{bodiless_head, cut_head, short_head, garbled_head, garbled_body};

use bitmaps::laws::bits_are_packed_by_eights;

/// A header and a body lay out at most one batch, at most one fault is told of them, and none of what lays out a batch.
pub fn batches_are_one()
    ensures batch { (schema : SchemaTree) (head : Head) (body : List ℕ) (x y : Rows) → LaysOut schema head body x
        → LaysOut schema head body y → x ≡ y }
    ensures fault { (schema : SchemaTree) (head : Head) (body : List ℕ) (x y : Fault) → IsFaultOf schema head body x
        → IsFaultOf schema head body y → x ≡ y }
    ensures apart { (schema : SchemaTree) (head : Head) (body : List ℕ) (rows : Rows) (fault : Fault)
        → LaysOut schema head body rows → IsFaultOf schema head body fault → ⊥ }
{}

/// What a header and a body lay out is of the schema, where that is in profile: a column for each field, a cell for each
/// row, and each cell one of its field: bytes of the type's size, texts in UTF-8, as many elements as a list of fixed size
/// has, a cell of each field of a struct.
pub fn laid_out_rows_are_of_the_schema()
    ensures { (schema : SchemaTree) (head : Head) (body : List ℕ) (rows : Rows) → InProfile schema
        → LaysOut schema head body rows → AreRowsOf schema rows }
{}

/// The buffers that are written stand in the body where their ranges say, each from a multiple of eight bytes on, and the
/// body ends at one.
pub fn written_buffers_stand_where_they_are_said()
    ensures at { (buffers : List (List ℕ)) (k : ℕ) → k < length buffers
        → bytes_at (body_with buffers) (get_or (ranges_from 0 buffers) k (pos 0, pos 0)) ≡ get_or buffers k [] }
    ensures inside { (buffers : List (List ℕ)) (k : ℕ) → k < length buffers
        → IsInside (length (body_with buffers)) (get_or (ranges_from 0 buffers) k (pos 0, pos 0)) }
    ensures aligned { (buffers : List (List ℕ)) (k : ℕ) → k < length buffers
        → nat_abs (get_or (ranges_from 0 buffers) k (pos 0, pos 0)).0 % 8 ≡ 0 }
    ensures whole { (buffers : List (List ℕ)) → length (body_with buffers) % 8 ≡ 0 }
{}

/// What is written of the cells of a column is those cells where it is read: which of them are null, their bits, their
/// bytes, and where the bytes or the elements of each begin and end. Offsets are signed numbers of so many bytes, and
/// say so much as such a number can: with four of them, less than 2,147,483,648 bytes or elements in all. Put together,
/// each cell of a column is read of the column's own buffers, where those of the columns inside it are read of theirs.
pub fn written_values_are_the_cells()
    ensures valid { (layout : Layout) (cells : List Cell) (j : ℕ) → layout ≢ null_layout → j < length cells
        → is_valid layout (validity_of cells) j ≡ not (is_null (get_or cells j null_cell)) }
    ensures bits { (cells : List Cell) (j : ℕ)
        → bit_of (packed_bytes (map bit_in cells)) j ≡ bit_in (get_or cells j null_cell) }
    ensures sized { (size : ℕ) (cells : List Cell) (j : ℕ)
        → AllByRecursion (AreBytes (λ bytes. length bytes ≡ size)) cells → j < length cells
        → bytes_from (flat_map (bytes_or (replicate size 0)) cells) (size * j) size
        ≡ bytes_or (replicate size 0) (get_or cells j null_cell) }
    ensures offsets { (size : ℕ) (lengths : List ℕ) (j : ℕ) → sum_by (λ n. n) lengths < 2 ^ (8 * size - 1)
        → j ≤ length lengths
        → offset_at size (offsets_of size lengths) j ≡ pos (sum_by (λ n. n) (take j lengths)) }
    ensures starts { (size : ℕ) (lengths : List ℕ) (j : ℕ) → sum_by (λ n. n) lengths < 2 ^ (8 * size - 1)
        → j ≤ length lengths → start_of size (offsets_of size lengths) j ≡ sum_by (λ n. n) (take j lengths) }
    ensures lengths { (size : ℕ) (lengths : List ℕ) (j : ℕ) → sum_by (λ n. n) lengths < 2 ^ (8 * size - 1)
        → j < length lengths → length_of size (offsets_of size lengths) j ≡ get_or lengths j 0 }
    ensures rising { (size : ℕ) (lengths : List ℕ) → sum_by (λ n. n) lengths < 2 ^ (8 * size - 1)
        → DoRise size (offsets_of size lengths) (length lengths) (sum_by (λ n. n) lengths) }
    ensures sized_by_offsets { (size : ℕ) (cells : List Cell) (j : ℕ)
        → sum_by (λ n. n) (bytes_lengths cells) < 2 ^ (8 * size - 1) → j < length cells
        → value_bytes size (offsets_of size (bytes_lengths cells)) (flat_map (bytes_or []) cells) j
        ≡ bytes_or [] (get_or cells j null_cell) }
    ensures elements { (size : ℕ) (cells : List Cell) (j : ℕ)
        → sum_by (λ n. n) (elements_lengths cells) < 2 ^ (8 * size - 1) → j < length cells
        → take (length_of size (offsets_of size (elements_lengths cells)) j)
        (drop (start_of size (offsets_of size (elements_lengths cells)) j) (flat_map (elements_or []) cells))
        ≡ elements_or [] (get_or cells j null_cell) }
    ensures cells { (layout : Layout) (inside : Shapes) (cells : List Cell) (j : ℕ)
        → AllByRecursion (IsCellOf (shape layout inside)) cells → HasRoom layout cells → j < length cells
        → written_cell layout inside cells j ≡ get_or cells j null_cell }
{
    bits_are_packed_by_eights();
}

/// What is written of rows that a batch has room for, of a schema in profile, lays out these rows and no others: rows
/// that are written are read again as they were.
pub fn written_rows_are_laid_out()
    ensures laid { (schema : SchemaTree) (rows : Rows) → InProfile schema → CanBeWritten schema rows
        → LaysOut schema (canonical_head schema rows) (canonical_body schema rows) rows }
    ensures only { (schema : SchemaTree) (rows others : Rows) → InProfile schema → CanBeWritten schema rows
        → LaysOut schema (canonical_head schema rows) (canonical_body schema rows) others → others ≡ rows }
{
    bits_are_packed_by_eights();
}

/// What is written of batches that were worked out by hand is what was worked out.
pub fn worked_bodies_are_canonical()
    ensures int8 { (canonical_head int8_table int8_rows ≡ int8_head) × (canonical_body int8_table int8_rows ≡ int8_body) }
    ensures texts { (canonical_head texts_table texts_rows ≡ texts_canonical_head)
        × (canonical_body texts_table texts_rows ≡ texts_canonical_body) }
    ensures bool { (canonical_head bool_table bool_rows ≡ bool_head) × (canonical_body bool_table bool_rows ≡ bool_body) }
    ensures pairs { (canonical_head pairs_table pairs_rows ≡ pairs_head)
        × (canonical_body pairs_table pairs_rows ≡ pairs_body) }
    ensures points { (canonical_head points_table points_rows ≡ points_head)
        × (canonical_body points_table points_rows ≡ points_body) }
    ensures no_texts { (canonical_head no_texts_table no_texts_rows ≡ no_texts_head)
        × (canonical_body no_texts_table no_texts_rows ≡ zeros 8) }
    ensures nulls { (canonical_head nulls_table nulls_rows ≡ nulls_head) × (canonical_body nulls_table nulls_rows ≡ []) }
{}

/// Batches that were worked out by hand are laid out: numbers with a null, lists of texts in a body with more than they
/// need, and three rows of as many nulls as a node may have; and, because they can be written, a struct and a null, no row
/// of texts, and rows of no column, also as many as a batch may have.
pub fn worked_batches_are_laid_out()
    ensures int8 { LaysOut int8_table int8_head int8_body int8_rows }
    ensures texts { LaysOut texts_table texts_head texts_body texts_rows }
    ensures points { LaysOut points_table points_head points_body points_rows }
    ensures no_texts { LaysOut no_texts_table no_texts_head (zeros 8) no_texts_rows }
    ensures bare { LaysOut bare_table bare_head [] bare_rows }
    ensures most { LaysOut bare_table most_head [] most_rows }
    ensures crowded { LaysOut nulls_table crowded_head [] nulls_rows }
{
    bits_are_packed_by_eights();
}

/// Of each fault a header and a body that were worked out by hand, of which it is told; of too many rows also one whose
/// node has a value too many.
pub fn worked_faults_are_told()
    ensures compressed { IsFaultOf int8_table compressed_head int8_body Compressed }
    ensures rows { IsFaultOf int8_table long_head int8_body TooManyRows }
    ensures values { IsFaultOf int8_table heavy_head int8_body TooManyRows }
    ensures nodes { IsFaultOf int8_table nodeless_head int8_body NodeCount }
    ensures buffers { IsFaultOf int8_table bufferless_head int8_body BufferCount }
    ensures body { IsFaultOf int8_table bodiless_head int8_body BufferRange }
    ensures range { IsFaultOf int8_table cut_head int8_body BufferRange }
    ensures nulls { IsFaultOf int8_table miscounted_head int8_body NullCount }
    ensures offsets { IsFaultOf no_texts_table falling_head falling_body OffsetsFall }
    ensures short { IsFaultOf int8_table short_head int8_body ChildShort }
    ensures texts { IsFaultOf no_texts_table garbled_head garbled_body NotUtf8 }
{}
