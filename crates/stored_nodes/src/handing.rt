//! What a node is handed: copies of an upload and of a message that it does not refuse.

ghost use Rattle.std.specs.Prelude.{◌≡◌, IfOk, IfErr};
ghost use Rattle.agreement_rules.specs.Views.{Views};
ghost use Rattle.histories.specs.Due.{Put};
ghost use Rattle.node_core.specs.State.{NodeHas};
ghost use Rattle.node_core.specs.Plans.{IsRefused};
ghost use Rattle.stored_nodes.specs.Steps.{HandsMessage};

use ballots::Message;
use node_core::{Node, Refusal};
use node_events::Reason;
use uploads::Upload;

/// A copy of an upload that a client hands in, or why the node refuses it. What is refused is not copied.
pub(crate) fn upload_for(node: &Node, upload: &Upload) -> Result<Upload, Refusal>
    ensures copy { IfOk result (λ copy. copy ≡ upload.now) }
    ensures refused { IfErr result (λ refusal. (views : Views) → NodeHas node.now views
        → IsRefused node.now views (Put upload.now) refusal) }
{
    if let Some(refusal) = node.refuses_put(upload) {
        return Err(refusal);
    }
    match upload.clone() {
        Ok(copy) => Ok(copy),
        Err(_) => Err(Refusal::OutOfMemory),
    }
}

/// A copy of the message of this number, or why the node is handed none. What the node refuses is not copied.
pub(crate) fn message_for(node: &Node, sent: &[Message], number: u64) -> Result<Message, Reason>
    ensures { HandsMessage node.now.agreement.config sent.now number result }
{
    let Some(message) = sent.get(number as usize) else {
        return Err(Reason::NotSent);
    };
    if !node.takes(message) {
        return Err(Reason::OutOfRange);
    }
    match message.clone() {
        Ok(copy) => Ok(copy),
        Err(_) => Err(Reason::OutOfMemory),
    }
}
