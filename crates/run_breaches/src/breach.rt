//! What is told of the first message that breaks a rule.

use ballots::Slot;

/// The first message of a run that no correct node may have sent after those before it.
#[derive(Clone, Copy, Debug, PartialEq, Eq)]
pub struct Breach {
    /// The message's place among all that was sent, from 0.
    pub place: usize,
    /// The slot that it is about.
    pub slot: Slot,
    /// Which rules it breaks.
    pub broken: BrokenRules,
}

/// Which rules of Paxos a message breaks, by what it is. A place is that of the first message, among all that was sent
/// before, that it goes against; `None` and `false` are told of a rule that it keeps. Prepare, Nack and Ask break none.
#[derive(Clone, Copy, Debug, PartialEq, Eq)]
pub enum BrokenRules {
    /// A Promise breaks these (Lamport, *Paxos Made Simple*, section 2.2, phase 1b).
    Promise {
        /// Its sender had promised its ballot or a higher one, or accepted at one, by the message in this place.
        not_above: Option<usize>,
        /// Its sender had accepted at a ballot above the reported one by the Accepted in this place, or had accepted
        /// at all where nothing is reported.
        unreported: Option<usize>,
        /// The reported ballot is not below the promised one.
        report_not_below: bool,
        /// What it reports was not proposed before.
        report_not_proposed: bool,
    },
    /// An Accept breaks these (section 2.2, phase 2a).
    Accept {
        /// The Accept in this place has another value at the same ballot.
        second_value: Option<usize>,
        /// No majority had promised its ballot.
        not_promised: bool,
        /// A majority had promised its ballot, and the value is not safe: the Promise in this place, the first with the
        /// highest report of a member, reports another value.
        not_reported: Option<usize>,
    },
    /// An Accepted breaks these (section 2.2, phase 2b).
    Accepted {
        /// Its value was not proposed at its ballot before.
        not_proposed: bool,
        /// Its sender had promised a higher ballot, or accepted at one, by the message in this place.
        below: Option<usize>,
    },
    /// A Decided breaks the one rule that there is for it: at no ballot had a majority accepted its value (section
    /// 2.3).
    Decided,
}
