//! Who was counted for a slot at one ballot.

use ballots::{NodeSet, Value};

/// Who was counted, and the value of the first.
#[derive(Debug, Drop)]
pub(crate) struct Tally {
    pub(crate) voted: NodeSet,
    pub(crate) value: Value,
}
