//! Whether an object can tell fields apart.

ghost use Rattle.std.specs.Prelude.{◌↔◌, IsTrue};
ghost use Rattle.json_rows.specs.Cells.{forest_in};
ghost use Rattle.json_rows.specs.Written.{HaveOwnNames};

use crate::reading::is_name_of;
use header_types::Field;

/// Whether no two fields have one name, of these and of those side by side inside them.
pub(crate) fn have_own_names(fields: &[Field]) -> bool
    ensures { IsTrue result ↔ HaveOwnNames (forest_in fields.now) }
{
    for index in 0..fields.len() {
        let field = &fields[index];
        if is_name_of(&fields[index + 1..], &field.name) || !have_own_names(&field.children) {
            return false;
        }
    }
    true
}
