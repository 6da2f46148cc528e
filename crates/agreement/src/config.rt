//! What nodes agree on before they start.

ghost use Rattle.std.specs.Prelude.{◌≡◌, ◌↔◌, IsSome, IfSome};
ghost use Rattle.agreement.specs.Limits.{IsSlotLimit};

use ballots::Members;
use std::marker::Model;

/// The most slots that nodes may agree on.
pub const MAX_SLOTS: u32 = 1_000_000;

/// What all nodes agree on before they start: how many they are, and for how many slots they choose values.
#[derive(Clone, Copy, Debug, PartialEq, Eq)]
pub struct AgreementConfig {
    members: Members,
    slot_limit: u32,
}

impl Model for AgreementConfig {
    ghost use Rattle.agreement_rules.specs.Views.{AgreementConfig};
    ghost use Rattle.agreement.specs.Limits.{IsSlotLimit};

    ghost Value = { AgreementConfig };

    ghost view = { λ c. record { members = c.members; slot_limit = c.slot_limit } };

    ghost invariant = { λ c. IsSlotLimit c.slot_limit };

    ghost inverse = { λ c. record { members = c.members; slot_limit = c.slot_limit } };
}

impl AgreementConfig {
    /// These members, for so many slots: `None` exactly where that is none, or more than [`MAX_SLOTS`].
    pub fn new(members: Members, slot_limit: u32) -> Option<AgreementConfig>
        ensures within { IsSome result ↔ IsSlotLimit slot_limit }
        ensures value { IfSome result (λ config. config ≡ record { members = members; slot_limit = slot_limit }) }
    {
        if 0 < slot_limit && slot_limit <= MAX_SLOTS {
            Some(AgreementConfig {
                members,
                slot_limit,
            })
        } else {
            None
        }
    }

    /// How many nodes agree.
    pub fn members(self) -> Members
        ensures { result ≡ self.members }
    {
        self.members
    }

    /// How many slots there are, 1 to [`MAX_SLOTS`]: those of the numbers below this.
    pub fn slot_limit(self) -> u32
        ensures value { result ≡ self.slot_limit }
        ensures within { IsSlotLimit self.slot_limit }
    {
        self.slot_limit
    }
}
