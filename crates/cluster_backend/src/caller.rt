//! Who waits for what becomes of an upload.

ghost use Rattle.std.specs.Prelude.{IsTrue};

/// How long is waited before the caller is asked again, in milliseconds.
pub const TURN_MILLISECONDS: u64 = 250;

/// Who made a call, and may leave before the answer.
pub trait Caller {
    /// That the caller may leave.
    ghost may_leave: { Type 0 };

    /// Whether the caller waits no longer, after so many milliseconds.
    fn leaves(&self, waited: u64) -> bool
        ensures { IsTrue result → may_leave };
}

/// A caller that waits until there is an answer.
#[derive(Clone, Copy, Debug, Drop)]
pub struct Patient;

impl Caller for Patient {
    ghost may_leave = { ⊥ };

    fn leaves(&self, _waited: u64) -> bool {
        false
    }
}
