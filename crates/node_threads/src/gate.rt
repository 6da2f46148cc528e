//! What each call passes between its two locks.

/// What a call of a cluster passes while it holds the lock of a seat, before it takes the journal's. A gate can hold a call
/// back, so that a test sees whether others go on.
pub trait Gate {
    /// Passes with the seat of this node.
    fn pass(&self, node: usize);
}

/// A gate that holds nothing back.
#[derive(Clone, Copy, Debug)]
pub struct OpenGate;

impl Gate for OpenGate {
    fn pass(&self, _node: usize) {}
}
