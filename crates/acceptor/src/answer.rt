use ballots::{Acceptance, Ballot, Slot};

/// What an acceptor answers.
#[derive(Debug, PartialEq, Eq, Drop)]
pub enum Answer {
    /// It takes no Accept below the ballot from now on. The report is what it has accepted for the slot, if anything.
    Promise(Option<Acceptance>),
    /// The same of all slots from a first one on, up to the last. The report has what each of them has accepted, by
    /// rising slots: a slot that has accepted nothing is not in it.
    PromiseFrom(Vec<(Slot, Acceptance)>),
    /// It has accepted the value.
    Granted,
    /// It has promised this ballot, and changes nothing.
    Nack(Ballot),
}
