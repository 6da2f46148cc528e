//! What a journal retains of its steps.

/// What a journal, and the seats of its nodes, retain of the steps: all of them ([`Whole`]), or how many they are and the
/// last messages ([`Recent`]). What is promised of the steps is the same.
pub trait Retention {
    ghost use Rattle.std.specs.Prelude.{Bool};

    ghost whole: { Bool };
}

/// All steps, with all messages. It grows with each step.
pub struct Whole;

impl Retention for Whole {
    ghost use Rattle.std.specs.Prelude.{true};

    ghost whole = { true };
}

/// How many steps there are, and the last messages. It does not grow; the steps themselves exist in proofs alone.
pub struct Recent;

impl Retention for Recent {
    ghost use Rattle.std.specs.Prelude.{false};

    ghost whole = { false };
}
