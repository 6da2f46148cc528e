//! What comes to a running node.

use ballots::Message;
use node_core::Plan;
use uploads::Upload;

/// What comes to a running node.
#[derive(Debug, Drop)]
pub enum SeatInput {
    /// A client hands in an upload.
    Put(Upload),
    /// Time has passed. An attempt leaves so many free slots, 0 to 7, to other nodes.
    Tick(u8),
    /// The message of this number in the journal has come.
    Deliver(u64, Message),
}

/// An input, with what the node does about it: decided, and not yet done.
#[derive(Debug, Drop)]
pub struct Prepared {
    pub(crate) input: SeatInput,
    pub(crate) plan: Plan,
}
