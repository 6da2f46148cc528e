//! Which places of a column are selected.

ghost use Rattle.std.specs.Prelude.{◌≡◌, ◌+◌, ◌<◌, ◌≤◌, ◌∷◌, length, slice_index_or, false};
ghost use Rattle.batch_types.specs.LaysOut.{values_limit};
ghost use Rattle.batch_reading.specs.Spots.{DoRun, places_of, places_ahead, marks_of, HasMarks};

use bitmaps::Bitmap;

/// Following places of a column.
#[derive(Clone, Copy, Debug)]
pub(crate) struct Run {
    /// The first of them.
    pub start: usize,
    /// How many there are.
    pub count: usize,
}

/// The places of a column that are selected, in order.
#[derive(Clone, Copy, Debug)]
pub(crate) struct Selection<'a> {
    /// How many there are.
    pub count: usize,
    /// The places, as runs that are not empty and lie behind one another.
    pub runs: &'a [Run],
    /// Which of the cells there are selected, all where there is no bitmap; a blank one stands for the others.
    pub there: &'a Option<Bitmap>,
}

/// A way along the places of some runs.
#[derive(Clone, Copy, Debug)]
pub(crate) struct Cursor {
    /// How many runs were begun.
    run: usize,
    /// The next place of the run that was begun last.
    place: usize,
    /// How many places of it are left.
    left: usize,
}

impl Cursor {
    /// Before the first place.
    pub const FIRST: Cursor = Cursor {
        run: 0,
        place: 0,
        left: 0,
    };
}

/// Begins the next run where none is left of the last one.
fn begin(runs: &[Run], cursor: &mut Cursor)
    requires rising { DoRun 0 values_limit runs.now }
    requires some { 0 < length (places_ahead runs.now cursor.old) }
    requires within { cursor.old.place + cursor.old.left ≤ values_limit }
    ensures same { places_ahead runs.now cursor.new ≡ places_ahead runs.now cursor.old }
    ensures some { 0 < cursor.new.left }
    ensures within { cursor.new.place + cursor.new.left ≤ values_limit }
{
    if cursor.left == 0 {
        let run = runs[cursor.run];
        *cursor = Cursor {
            run: cursor.run + 1,
            place: run.start,
            left: run.count,
        };
    }
}

/// The next place, of which there is one.
pub(crate) fn next_place(runs: &[Run], cursor: &mut Cursor) -> usize
    requires rising { DoRun 0 values_limit runs.now }
    requires some { 0 < length (places_ahead runs.now cursor.old) }
    requires within { cursor.old.place + cursor.old.left ≤ values_limit }
    ensures next { places_ahead runs.now cursor.old ≡ result ∷ places_ahead runs.now cursor.new }
    ensures within { cursor.new.place + cursor.new.left ≤ values_limit }
{
    begin(runs, cursor);
    let place = cursor.place;
    cursor.place += 1;
    cursor.left -= 1;
    place
}

/// The bit of this number, which is there.
pub(crate) fn bit_at(bits: &Bitmap, number: usize) -> bool
    requires { number < length bits.now }
    ensures { result ≡ slice_index_or bits.now number false }
{
    bits.get(number).unwrap_or(false)
}

/// Whether the cell of this number among the selected ones is selected itself.
pub(crate) fn is_marked(marks: &Option<Bitmap>, count: usize, number: usize) -> bool
    requires within { number < count }
    requires marks { HasMarks count marks.now }
    ensures { result ≡ slice_index_or (marks_of count marks.now) number false }
{
    match marks {
        Some(bits) => bits.get(number).unwrap_or(false),
        None => true,
    }
}
