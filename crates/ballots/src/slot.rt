ghost use Rattle.std.specs.Prelude.{◌≡◌, ℕ, ◌≤◌, ◌↔◌, IsSome, IfSome};
ghost use Rattle.ballots.specs.Limits.{max_slot};

use std::marker::Model;

/// The greatest number of a slot: a million uploads are decided at most.
pub const MAX_SLOT: u32 = 999_999;

/// A place in the list of uploads that the nodes agree on, 0 to [`MAX_SLOT`].
#[derive(Clone, Copy, Debug, PartialEq, Eq, PartialOrd, Ord, Hash)]
pub struct Slot {
    number: u32,
}

impl Model for Slot {
    ghost Value = { ℕ };

    ghost view = { λ s. s.number };

    ghost invariant = { λ s. s.number ≤ max_slot };

    ghost inverse = { λ n. record { number = n } };
}

impl Slot {
    /// The slot of this number, `None` above [`MAX_SLOT`].
    pub fn new(number: u32) -> Option<Slot>
        ensures within { IsSome result ↔ (number ≤ max_slot) }
        ensures value { IfSome result (λ slot. slot ≡ number) }
    {
        if number <= MAX_SLOT {
            Some(Slot { number })
        } else {
            None
        }
    }

    /// The slot's number.
    pub fn number(self) -> u32
        ensures value { result ≡ self }
        ensures within { self ≤ max_slot }
    {
        self.number
    }
}
