//! What is told of the records of all nodes.

use ballots::Slot;

/// How a slot stands that is not served.
#[derive(Clone, Copy, Debug, PartialEq, Eq)]
pub enum SlotState {
    /// No majority recorded one value at one ballot.
    Undecided,
    /// A majority did, and the slot is served once those before it are decided.
    Waiting,
}

/// A slot that is not served, for which some node recorded an acceptance.
#[derive(Clone, Copy, Debug, PartialEq, Eq)]
pub struct SlotReport {
    /// Which slot.
    pub slot: Slot,
    /// How it stands.
    pub state: SlotState,
}

/// A table that is served.
#[derive(Debug, Drop)]
pub struct TableReport {
    /// The table's name.
    pub name: String,
    /// Its latest version: how many of its uploads count.
    pub version: u64,
}

/// What a server that resumes over the records of all nodes serves, and what stands behind it.
#[derive(Debug, Drop)]
pub struct FolderReport {
    /// How many slots are decided from slot 0 on, without a gap: 0 to 1,000,000.
    pub decided: u32,
    /// The tables that these make, in the order of their first effective uploads.
    pub tables: Vec<TableReport>,
    /// The later slots for which some node recorded an acceptance, each once, in rising order.
    pub slots: Vec<SlotReport>,
}
