//! By what the frames of an effective upload are found.

/// A version of a table, whose last upload they are of.
#[derive(Clone, Copy, Debug, PartialEq, Eq, Hash)]
pub(crate) struct FrameKey {
    /// The table's number, in the order of first effective uploads, from 0 on.
    pub(crate) table: usize,
    /// The version's number, from 1 on.
    pub(crate) version: u64,
}
