//! What was chosen, judged by the messages alone: at one ballot a majority accepted the value for the slot (Lamport, *Paxos
//! Made Simple*, section 2.2).

use ballots::{Acceptance, Body, Members, Message};

// What the message says that its sender has accepted.
fn accepted(message: &Message) -> Option<&Acceptance> {
    match &message.body {
        Body::Accepted(acceptance) => Some(acceptance),
        _ => None,
    }
}

// Whether the node of this number accepted the same, for the same slot.
fn accepts_too(sent: &[Message], number: u8, vote: &Message) -> bool {
    sent.iter().any(|other| other.sender.number() == number
        && other.slot == vote.slot
        && other.body == vote.body)
}

// Whether the message says that something is accepted which a majority accepted at this ballot.
fn is_of_choice(members: Members, sent: &[Message], vote: &Message) -> bool {
    let voters = (0..members.count())
        .filter(|number| accepts_too(sent, *number, vote))
        .count();
    accepted(vote).is_some() && members.is_majority(voters)
}

// Whether these two messages tell of two values that were chosen for one slot.
fn are_two_choices(members: Members, sent: &[Message], one: &Message, other: &Message) -> bool {
    match (accepted(one), accepted(other)) {
        (Some(first), Some(second)) => {
            one.slot == other.slot
                && first.value != second.value
                && is_of_choice(members, sent, one)
                && is_of_choice(members, sent, other)
        }
        _ => false,
    }
}

/// Whether two values were chosen for one slot.
pub(crate) fn is_chosen_twice(members: Members, sent: &[Message]) -> bool {
    sent.iter().any(|one| {
        sent.iter()
            .any(|other| are_two_choices(members, sent, one, other))
    })
}
