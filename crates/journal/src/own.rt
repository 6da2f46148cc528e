//! What a node did itself.

use ballots::Message;
use node_parts::Step;
use std::marker::Model;

/// An entry of a node's own list: a step with the messages themselves in the place of their numbers. Contracts see it as
/// an entry of `histories`.
#[derive(Drop)]
pub struct OwnEntry {
    /// The step.
    pub step: Step,
    /// Of a restart, whether the node had back the record that was due where it went down.
    pub recovered: bool,
    /// The message that the node was handed.
    pub handed: Option<Message>,
    /// The messages that it sent.
    pub sends: Vec<Message>,
}

impl Model for OwnEntry {
    ghost use Rattle.node_parts.specs.histories.specs.Owning.{OwnEntry};
    ghost use Rattle.node_parts.specs.traces.specs.Told.{step_of};

    ghost Value = { OwnEntry };

    ghost view = { λ e. record {
      step = step_of e.step;
      recovered = e.recovered;
      handed = e.handed;
      sends = e.sends.items;
    } };
}
