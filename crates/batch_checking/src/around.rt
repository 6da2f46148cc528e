//! Whether a place of a column belongs to the batch, by the columns around it.

ghost use Rattle.std.specs.Prelude.{◌≡◌, ◌↔◌, ◌+◌, ◌*◌, ◌<◌, ◌≤◌, ℕ, Some, IsTrue, IfSome, length, [], ◌∷◌, ◌++◌};
ghost use Rattle.std.specs.List.{range_with_len};
ghost use Rattle.batch_checking.specs.Around.{Holds, IsValidAt, StandsInside, places_around, IsSteadySource, AreSteady};
ghost use Rattle.batch_checking.specs.Columns.{sources_around};

use crate::offsets::row_around;
use crate::validity::is_valid;
use batch_columns::{EncodedColumn, Layout};
use header_types::MAX_DEPTH;

/// The columns around a column, the outermost first, and how many rows the batch has.
#[derive(Clone, Copy)]
pub(crate) struct Around<'a> {
    /// How many rows the batch has.
    pub(crate) rows: usize,
    /// How many columns there are.
    pub(crate) depth: usize,
    /// They come first of these.
    pub(crate) levels: [EncodedColumn<'a>; MAX_DEPTH],
}

impl<'a> Around<'a> {
    /// No column, and so many rows.
    pub(crate) fn none(rows: usize) -> Around<'a>
        ensures rows { result.rows ≡ rows }
        ensures depth { result.depth ≡ 0 }
        ensures room { length result.levels ≡ 16 }
    {
        let source = EncodedColumn {
            layout: Layout::Null,
            length: 0,
            nulls: 0,
            validity: &[],
            offsets: &[],
            values: &[],
        };
        Around {
            rows,
            depth: 0,
            levels: [source; MAX_DEPTH],
        }
    }

    /// The columns.
    pub(crate) fn sources(&self) -> &[EncodedColumn<'a>]
        requires { self.now.depth ≤ 16 }
        ensures sources { result.now ≡ sources_around self.now }
        ensures few { length result.now ≤ 16 }
    {
        &self.levels[..self.depth]
    }

    /// The columns around those inside one of which these are around.
    pub(crate) fn with(&self, source: &EncodedColumn<'a>) -> Around<'a>
        requires free { self.now.depth < 16 }
        requires room { length self.now.levels ≡ 16 }
        ensures room { length result.levels ≡ 16 }
        ensures rows { result.rows ≡ self.now.rows }
        ensures depth { result.depth ≡ self.now.depth + 1 }
        ensures sources { sources_around result ≡ sources_around self.now ++ source.now ∷ [] }
    {
        let mut levels = self.levels;
        levels[self.depth] = *source;
        Around {
            rows: self.rows,
            depth: self.depth + 1,
            levels,
        }
    }
}

/// The block that has the element at a place, where each has so many.
fn block_around(size: usize, place: usize) -> Option<usize>
    ensures stands { IfSome result (λ row. (size * row ≤ place) × (place < size * row + size)) }
    ensures found { (row : ℕ) → size * row ≤ place → place < size * row + size → result ≡ Some row }
{
    if size == 0 { None } else { Some(place / size) }
}

/// The row whose value has the element or the field at a place inside a column. A row near it may be guessed.
fn row_of(source: &EncodedColumn, place: usize, guess: usize) -> Option<usize>
    requires { IsSteadySource source.now }
    ensures stands { IfSome result (λ row. StandsInside source.now row place) }
    ensures found { (row : ℕ) → row < source.now.length → StandsInside source.now row place → result ≡ Some row }
{
    match source.layout {
        Layout::Struct => Some(place),
        Layout::FixedSizeList { size } => block_around(size as usize, place),
        Layout::List => row_around(source.offsets, source.length, place, guess),
        Layout::Null | Layout::Bits | Layout::Bytes { .. } | Layout::Binary | Layout::Utf8 => None,
    }
}

/// That row, where its value is valid. It is the next guess.
fn valid_row_of(source: &EncodedColumn, place: usize, guess: &mut usize) -> Option<usize>
    requires { IsSteadySource source.now }
    ensures stands { IfSome result (λ row. IsValidAt source.now row × StandsInside source.now row place) }
    ensures found { (row : ℕ) → row < source.now.length → IsValidAt source.now row → StandsInside source.now row place
        → result ≡ Some row }
{
    let row = row_of(source, place, *guess)?;
    *guess = row;
    if is_valid(source, row) {
        Some(row)
    } else {
        None
    }
}

/// Whether there is a row of this number.
fn is_row(row: usize, rows: usize) -> bool
    ensures { IsTrue result ↔ (row < rows) }
{
    row < rows
}

/// Whether a place inside these columns, each around the next, belongs to the batch: there is a row among the first
/// ones, as many as these, and all the values around the place are valid. It takes no memory, and walks up once. Of each
/// column the row that was found last is the next guess: places that are asked for in order are found in a few steps.
pub(crate) fn belongs(
    rows: usize,
    around: &[EncodedColumn],
    place: usize,
    guesses: &mut [usize; MAX_DEPTH],
) -> bool
    requires steady { AreSteady (range_with_len 0 rows) around.now }
    requires few { length around.now ≤ 16 }
    requires room { length guesses.old ≡ 16 }
    ensures room { length guesses.new ≡ 16 }
    ensures belongs { IsTrue result ↔ Holds (places_around (range_with_len 0 rows) around.now) place }
{
    let mut place = place;
    let mut depth = around.len();
    while depth > 0 {
        match valid_row_of(&around[depth - 1], place, &mut guesses[depth - 1]) {
            Some(row) => place = row,
            None => return false,
        }
        depth -= 1;
    }
    is_row(place, rows)
}
