//! Whole numbers that a float holds without a change.

ghost use Rattle.std.specs.Prelude.{◌↔◌, IsTrue};
ghost use Rattle.serde_json.specs.View.{view};
ghost use Rattle.json_rows.specs.Numbers.{IsExactBelow, IsHeldBelow};

use crate::numbers::whole_of;
use serde_json::Value;

/// Whether the number is one below the limit by a power of two: it is halved until it is below, which an odd number can't be.
fn is_exact(number: u128, limit: u128) -> bool
    ensures { IsTrue result ↔ IsExactBelow limit number }
{
    let mut rest = number;
    while limit <= rest && rest != 0 {
        if rest % 2 == 1 {
            return false;
        }
        rest /= 2;
    }
    rest < limit
}

/// Whether the value is no whole number, or one that floats whose digits are below the limit hold without a change.
pub(crate) fn is_held(value: &Value, limit: u128) -> bool
    ensures { IsTrue result ↔ IsHeldBelow limit (view value.now) }
{
    match whole_of(value) {
        Some(whole) => is_exact(whole.unsigned_abs(), limit),
        None => true,
    }
}
