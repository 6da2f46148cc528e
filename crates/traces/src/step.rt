//! One step of a run.

use node_events::{Event, EventResult};

/// An event, and what it gave.
#[derive(Debug, Drop)]
pub struct Step {
    /// The event that was applied.
    pub event: Event,
    /// What it gave.
    pub result: EventResult,
}
