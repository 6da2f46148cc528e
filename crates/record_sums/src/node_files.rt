//! The files of a node.

/// The bytes of a node's two files. They are to be read in this order, the sums first: then each entry's record stands in the other
/// file, also where a server goes on meanwhile.
#[derive(Drop)]
pub struct NodeFiles {
    /// The file of sums, with no byte where there is none.
    pub sums: Vec<u8>,
    /// The file of records.
    pub records: Vec<u8>,
}
