//! What comes to a node.

use ballots::Message;
use uploads::Upload;

/// What comes to a node.
#[derive(Debug, Drop)]
pub enum Input {
    /// A client hands in an upload.
    Put(Upload),
    /// Time has passed. An attempt leaves so many free slots, 0 to 7, to other nodes.
    Tick(u8),
    /// A message has come.
    Deliver(Message),
}
