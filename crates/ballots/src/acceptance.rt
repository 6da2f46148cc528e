//! A value at a ballot, as proposals, acceptances and reports of them have it.

use crate::ballot::Ballot;
use crate::value::Value;

/// A value at the ballot at which it is proposed or accepted (Lamport, *Paxos Made Simple*, section 2.2, where a
/// proposal has a value and a number).
#[derive(Clone, Debug, PartialEq, Eq, Drop)]
pub struct Acceptance {
    /// At which ballot.
    pub ballot: Ballot,
    /// Which value.
    pub value: Value,
}
