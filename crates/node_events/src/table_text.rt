//! What a client takes for a table's name.

ghost use Rattle.std.specs.Prelude.{◌≡◌, ◌==◌, IfOk};
ghost use Rattle.std.specs.String.{string_bytes};
ghost use lib.Pointwise.{pointwise};
ghost use Rattle.std.specs.Cmp.Rules.{comparing};
ghost use Rattle.std.proofs.Common.{rules};

use std::alloc::AllocError;
use std::marker::Model;

/// A text that a client takes for a table's name: any text, also one that names no table and never can. Contracts see
/// its bytes, and not how much memory holds them.
#[derive(Debug, Drop)]
pub struct TableText {
    text: String,
}

impl Model for TableText {
    ghost use Rattle.std.specs.Prelude.{ℕ, List};
    ghost use Rattle.std.specs.String.{string_bytes};

    ghost Value = { List ℕ };

    ghost view = { λ t. string_bytes t.text };
}

impl TableText {
    /// This text. It takes no memory.
    pub fn new(text: String) -> TableText
        ensures { result ≡ string_bytes text }
    {
        TableText { text }
    }

    /// The text.
    pub fn as_str(&self) -> &str
        ensures { result.now ≡ self.now }
    {
        self.text.as_str()
    }
}

impl Clone for TableText {
    ghost is_clone = { λ old new. new ≡ old };

    fn clone(&self) -> Result<TableText, AllocError>
        ensures { IfOk result (λ new. new ≡ self.now) }
    {
        Ok(TableText {
            text: self.text.clone()?,
        })
    }
}
