//! Nodes with workers, and what tests do with them besides.

use flight_service::{Beginning, OpenGate, Running, Works, audit};
use stable_records::Stable;
use std::sync::Wait;

/// Nodes that run, and that a test starts again and looks at.
pub(crate) trait Tested: Works {
    /// Starts a node again, and says whether it did.
    fn start_again<R: Wait>(&self, rt: &R, node: usize) -> bool;

    /// Whether an upload waits at a node.
    fn has_waiting<R: Wait>(&self, rt: &R, node: usize) -> bool;

    /// Whether correct nodes may have sent the messages of the journal.
    fn is_lawful<R: Wait>(&self, rt: &R) -> bool;
}

impl<S: Stable + Drop + Send, J: Beginning + Send + Sync> Tested for Running<3, S, J, OpenGate> {
    fn start_again<R: Wait>(&self, rt: &R, node: usize) -> bool {
        self.restart(rt, node).is_ok()
    }

    fn has_waiting<R: Wait>(&self, rt: &R, node: usize) -> bool {
        self.waits(rt, node)
    }

    fn is_lawful<R: Wait>(&self, rt: &R) -> bool {
        let journal = self.cluster().journal().lock(rt);
        audit(journal.trace())
    }
}
