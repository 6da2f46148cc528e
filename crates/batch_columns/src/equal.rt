//! Columns that hold the same.

ghost use Rattle.std.specs.Prelude.{◌≡◌, ◌↔◌, List, IsTrue};
ghost use Rattle.batch_columns.specs.Contents.{Contents, layout_in, shapes_in};
ghost use Rattle.batch_columns.specs.Held.{shapes_held};
ghost use Rattle.batch_columns.specs.Kept.{HaveInside};
ghost use Rattle.batch_columns.specs.Alike.{AreAlike};

use crate::column::Column;
use batch_types::laws::written_values_are_the_cells;

/// Whether two columns have one layout, as many cells, and the same buffers.
fn are_alike(left: &Column, right: &Column) -> bool
    ensures { IsTrue result ↔ AreAlike left.now right.now }
{
    left.layout() == right.layout()
        && left.len() == right.len()
        && left.validity() == right.validity()
        && left.offsets() == right.offsets()
        && left.values() == right.values()
}

/// Columns that are alike are equal where those inside them are. It does nothing: it is called for what it says.
fn alike_are_equal(left: &Column, right: &Column)
    ensures { AreAlike left.now right.now
        → (inside : List Contents)
        → shapes_held inside ≡ shapes_in left.now → HaveInside (layout_in left.now) left.now.cells inside
        → shapes_held inside ≡ shapes_in right.now → HaveInside (layout_in right.now) right.now.cells inside
        → left.now ≡ right.now }
{
    written_values_are_the_cells();
    let _ = left.layout();
    let _ = right.layout();
}

/// Whether these columns are equal one by one.
pub fn are_equal(left: &[Column], right: &[Column]) -> bool
    ensures { IsTrue result ↔ (left.now ≡ right.now) }
{
    if left.len() != right.len() {
        return false;
    }
    for index in 0..left.len() {
        let (one, other) = (&left[index], &right[index]);
        alike_are_equal(one, other);
        if !are_alike(one, other) || !are_equal(one.inside(), other.inside()) {
            return false;
        }
    }
    true
}

impl PartialEq for Column {
    ghost use Rattle.std.specs.Prelude.{◌≡◌, ◌↔◌, IsTrue};
    ghost use Rattle.batch_columns.specs.Same.{same_contents, same_laws};

    ghost eq = { same_contents };

    ghost laws = { same_laws };

    /// Whether the two have one shape, and the same cells in order. It takes no memory.
    fn eq(&self, other: &Column) -> bool
        ensures gives { result ≡ same_contents self.now other.now }
        ensures equal { IsTrue result ↔ (self.now ≡ other.now) }
    {
        alike_are_equal(self, other);
        are_alike(self, other) && are_equal(self.inside(), other.inside())
    }
}

impl Eq for Column {
    ghost use Rattle.batch_columns.specs.Same.{same_equivalence};

    ghost laws = { same_equivalence };
}
