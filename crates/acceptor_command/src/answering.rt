//! What node 0 answers as an acceptor.

ghost use Rattle.std.specs.Prelude.{◌≡◌, IfOk, OnErr};
ghost use Rattle.ballots.specs.Ballot.{IsAbove, IsAtLeast};
ghost use Rattle.acceptor.specs.AcceptorState.{standing, promised_at};
ghost use Rattle.acceptor.specs.Standing.{IsSame};
ghost use Rattle.acceptor_command.specs.Conversation.{own_message, Answers, RepliesToPrepare, RepliesToAccept, IsGranted};

use acceptor::{Acceptor, Answer};
use ballots::{Acceptance, Ballot, Body, Message, NodeId, OutOfMemory, Slot, Value};

/// The number of the node that answers.
pub const NODE: u8 = 0;

fn me() -> NodeId
    ensures { result ≡ NODE }
{
    match NodeId::new(NODE) {
        Some(node) => node,
        None => unreachable!(),
    }
}

/// The reply to a message, as the acceptor answers it: to a Prepare a Promise or a Nack, to an Accept an Accepted or a
/// Nack, and none to any other message. The error is memory refused, after which the acceptor is as it was: only a
/// Promise and an Accepted take memory, and a value that is refused is not copied.
pub fn reply_to(acceptor: &mut Acceptor, message: Message) -> Result<Option<Message>, OutOfMemory>
    ensures answered { IfOk result (λ reply. Answers (standing acceptor.old) message reply (standing acceptor.new)) }
    ensures err { OnErr result (IsSame (standing acceptor.old) (standing acceptor.new)) }
    ensures memory { OnErr result (IsGranted (standing acceptor.old) message) }
{
    let Message { slot, body, .. } = message;
    match body {
        Body::Prepare { ballot } => reply_to_prepare(acceptor, slot, ballot),
        Body::Accept(proposal) => reply_to_accept(acceptor, slot, proposal),
        _ => Ok(None),
    }
}

/// What this node says of a slot.
fn own_message(slot: Slot, body: Body) -> Message
    ensures { result ≡ own_message slot body }
{
    Message {
        sender: me(),
        slot,
        body,
    }
}

fn reply_to_prepare(
    acceptor: &mut Acceptor,
    slot: Slot,
    ballot: Ballot,
) -> Result<Option<Message>, OutOfMemory>
    ensures answered { IfOk result (λ reply. RepliesToPrepare (standing acceptor.old) slot ballot reply (standing acceptor.new)) }
    ensures err { OnErr result (IsSame (standing acceptor.old) (standing acceptor.new)) }
    ensures memory { OnErr result (IsAbove ballot (promised_at acceptor.old slot)) }
{
    let body = match acceptor.on_prepare(slot, ballot)? {
        Answer::Promise(report) => Body::Promise { ballot, report },
        Answer::Nack(promised) => Body::Nack { ballot, promised },
        Answer::PromiseFrom(_) | Answer::Granted => return Ok(None),
    };
    Ok(Some(own_message(slot, body)))
}

fn reply_to_accept(
    acceptor: &mut Acceptor,
    slot: Slot,
    proposal: Acceptance,
) -> Result<Option<Message>, OutOfMemory>
    ensures answered { IfOk result (λ reply. RepliesToAccept (standing acceptor.old) slot proposal reply (standing acceptor.new)) }
    ensures err { OnErr result (IsSame (standing acceptor.old) (standing acceptor.new)) }
    ensures memory { OnErr result (IsAtLeast proposal.ballot (promised_at acceptor.old slot)) }
{
    let Acceptance { ballot, value } = proposal;
    // A value that is refused is not copied.
    let copy = if acceptor.would_grant(slot, ballot) {
        value.clone()?
    } else {
        Value::Noop
    };
    let asked = Acceptance {
        ballot,
        value: copy,
    };
    let body = match acceptor.on_accept(slot, asked)? {
        Answer::Granted => Body::Accepted(Acceptance { ballot, value }),
        Answer::Nack(promised) => Body::Nack { ballot, promised },
        Answer::Promise(_) | Answer::PromiseFrom(_) => return Ok(None),
    };
    Ok(Some(own_message(slot, body)))
}
