//! Laws of the definitions that rows are read and written by.

ghost use Rattle.std.specs.Prelude.{◌≡◌, ◌*◌, ◌+◌, ◌<◌, ◌≤◌, ℕ, List};
ghost use Rattle.serde_json.specs.Data.{Data};
ghost use Rattle.header_types.specs.Fields.{Tree, Forest};
ghost use Rattle.batch_types.specs.Cells.{Cell, Rows};
ghost use Rattle.json_rows.specs.Cells.{TellsCell, TellsFields};
ghost use Rattle.json_rows.specs.Lines.{TellsRows, TellsValues};
ghost use Rattle.json_rows.specs.Numbers.{IsExactBelow};

/// A value tells one cell of a field at most, and an object one cell of each field.
pub fn cells_are_one()
    ensures cells { (t : Tree) (d : Data) (a b : Cell) → TellsCell t d a → TellsCell t d b → a ≡ b }
    ensures rows { (fields : Forest) (d : Data) (a b : List Cell) → TellsFields fields d a → TellsFields fields d b → a ≡ b }
{}

/// A text tells one list of values at most, and values tell the rows of one batch at most: so what is read of the lines
/// that were written of a batch are its rows.
pub fn rows_are_one()
    ensures values { (text : List ℕ) (a b : List Data) → TellsValues text a → TellsValues text b → a ≡ b }
    ensures rows { (fields : Forest) (values : List Data) (a b : Rows) → TellsRows fields values a
        → TellsRows fields values b → a ≡ b }
{}

/// Which whole numbers a float holds without a change (IEEE 754, section 3.3): those below the limit of its digits, and twice
/// each; of those from the limit on no odd one, and an even one only if its half is.
pub fn floats_hold_whole_numbers()
    ensures below { (limit number : ℕ) → number < limit → IsExactBelow limit number }
    ensures doubled { (limit number : ℕ) → IsExactBelow limit number → IsExactBelow limit (2 * number) }
    ensures halved { (limit half : ℕ) → limit ≤ 2 * half → IsExactBelow limit (2 * half) → IsExactBelow limit half }
    ensures odd { (limit half : ℕ) → limit ≤ 2 * half + 1 → IsExactBelow limit (2 * half + 1) → ⊥ }
{}
