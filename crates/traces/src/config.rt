//! What nodes agree on before they start.

ghost use Rattle.std.specs.Prelude.{◌≡◌, ◌↔◌, IsTrue, IsSome};
ghost use Rattle.std.specs.Option.{IfSome};
ghost use Rattle.traces.specs.Limits.{IsWithinLimits};
ghost use Rattle.traces.specs.Told.{config_of};

use agreement::AgreementConfig;
pub use agreement::MAX_SLOTS;
use ballots::Members;

/// The most entries of a journal.
pub const MAX_JOURNAL_ENTRIES: u32 = 1_000_000;

/// What all nodes of a run have in common.
#[derive(Clone, Copy, Debug, PartialEq, Eq)]
pub struct Config {
    /// How many nodes agree.
    pub members: Members,
    /// How many slots there are: the nodes agree on values for the slots 0 up to one below this. 1 to [`MAX_SLOTS`].
    pub slot_limit: u32,
    /// How many entries a journal of running nodes takes, 1 to [`MAX_JOURNAL_ENTRIES`]. A run of a list of events takes
    /// as many as the list has.
    pub journal_limit: u32,
}

impl Config {
    /// Whether both limits are at least 1, and not above [`MAX_SLOTS`] and [`MAX_JOURNAL_ENTRIES`].
    pub fn is_within_limits(&self) -> bool
        ensures { IsTrue result ↔ IsWithinLimits self.now }
    {
        self.agreed().is_some()
    }

    /// What its nodes agree on before they start, `None` exactly where a limit is 0 or too great.
    pub fn agreed(&self) -> Option<AgreementConfig>
        ensures within { IsSome result ↔ IsWithinLimits self.now }
        ensures value { IfSome result (λ agreed. agreed ≡ config_of self.now) }
    {
        if !(1..=MAX_JOURNAL_ENTRIES).contains(&self.journal_limit) {
            return None;
        }
        AgreementConfig::new(self.members, self.slot_limit)
    }
}
