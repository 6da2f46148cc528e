ghost use Rattle.std.specs.Prelude.{◌≡◌, ◌↔◌, IsTrue};
ghost use Rattle.lawful_histories.specs.Recorded.{members_of, sent_of};
ghost use Rattle.lawful_histories.specs.Lawful.{IsLawful};
ghost use Rattle.lawful_histories.specs.Judging.{AllMayBeSent};

use crate::judge::may_be_sent;
use ballots::{Members, Message};
use std::marker::Model;

/// A run of nodes as it can be told from outside: how many nodes agree, and all messages that were sent, by whichever
/// node, in the order of sending.
#[derive(Debug, Drop)]
pub struct SentMessages {
    members: Members,
    sent: Vec<Message>,
}

impl Model for SentMessages {
    ghost use Rattle.lawful_histories.specs.Recorded.{Recorded};

    ghost Value = { Recorded };

    ghost view = { λ t. record { members = t.members; sent = t.sent.items } };
}

impl SentMessages {
    /// The run of so many members that sent these messages, in this order. It takes no memory.
    pub fn new(members: Members, sent: Vec<Message>) -> SentMessages
        ensures members { members_of result ≡ members }
        ensures sent { sent_of result ≡ sent.items }
    {
        SentMessages { members, sent }
    }

    /// How many nodes agree.
    pub fn members(&self) -> Members
        ensures { result ≡ members_of self.now }
    {
        self.members
    }

    /// All messages that were sent, in the order of sending.
    pub fn sent(&self) -> &[Message]
        ensures { result.now ≡ sent_of self.now }
    {
        &self.sent
    }
}

/// Whether what was sent is lawful: every message is one that a correct node may have sent after those before it
/// (Lamport, *Paxos Made Simple*, section 2). No sender is trusted: senders that are no members have to keep the rules
/// too, and only members count for a majority.
///
/// It takes no memory. Its time grows at most with the square of the number of messages.
pub fn audit(trace: &SentMessages) -> bool
    ensures { IsTrue result ↔ IsLawful (members_of trace.now) (sent_of trace.now) }
{
    are_lawful(trace.members(), trace.sent())
}

/// Whether messages that so many members sent, in this order, are lawful: what [`audit`] tells of a run, of the messages
/// alone. It takes no memory.
pub fn are_lawful(members: Members, sent: &[Message]) -> bool
    ensures { IsTrue result ↔ IsLawful members sent.now }
{
    all_may_be_sent(members, sent)
}

// Whether those before each message let it follow.
fn all_may_be_sent(members: Members, sent: &[Message]) -> bool
    ensures { IsTrue result ↔ AllMayBeSent members sent.now }
{
    for place in 0..sent.len() {
        if !may_be_sent(members, &sent[..place], &sent[place]) {
            return false;
        }
    }
    true
}
