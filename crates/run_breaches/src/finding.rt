ghost use Rattle.std.specs.Prelude.{◌↔◌, ◌+◌, ◌<◌, IfOk, OnErr, IfSome, IsNone, MatchOption, length, take, get_or};
ghost use Rattle.lawful_histories.specs.Lawful.{IsLawful};
ghost use Rattle.run_breaches.specs.FirstBreach.{IsFirstBreach};

use crate::breach::Breach;
use crate::by_slot::first_unlawful;
use crate::laws::a_message_follows_where_it_keeps_the_rules;
use crate::rules::broken_rules;
use ballots::{Members, Message, OutOfMemory};
use lawful_histories::laws::beginnings_are_lawful;
use std::alloc::Global;

/// The first message that no correct node may have sent after those before it, with the rules that it breaks, or `None`
/// exactly where what was sent is lawful, as `lawful_histories::are_lawful` says (Lamport, *Paxos Made Simple*, section
/// 2). The messages before it are lawful. No sender is trusted: senders that are no members have to keep the rules too,
/// and only members count for a majority.
///
/// It takes no memory. Its time grows at most with the square of the number of messages.
pub fn first_breach(members: Members, sent: &[Message]) -> Option<Breach>
    ensures lawful { IsNone result ↔ IsLawful members sent.now }
    ensures first { IfSome result (λ breach. IsFirstBreach members sent.now breach) }
{
    beginnings_are_lawful();
    for place in 0..sent.len() {
        if let Some(breach) = breach_at(members, sent, place) {
            return Some(breach);
        }
    }
    None
}

/// What [`first_breach`] finds, with an index by slot.
///
/// Its memory and its time are those of [`are_lawful_by_slot`](crate::are_lawful_by_slot), and beyond these of a breach
/// one look at the messages before it for each of its slot.
pub fn first_breach_by_slot(
    alloc: Global,
    members: Members,
    sent: &[Message],
) -> Result<Option<Breach>, OutOfMemory>
    ensures lawful { IfOk result (λ found. IsNone found ↔ IsLawful members sent.now) }
    ensures first { IfOk result (λ found. IfSome found (λ breach. IsFirstBreach members sent.now breach)) }
    ensures memory { OnErr result (0 < length sent.now) }
{
    beginnings_are_lawful();
    match first_unlawful(alloc, members, sent)? {
        Some(place) => Ok(breach_at(members, sent, place)),
        None => Ok(None),
    }
}

// What the message in this place breaks, where it breaks a rule.
fn breach_at(members: Members, sent: &[Message], place: usize) -> Option<Breach>
    requires within { place < length sent.now }
    requires before { IsLawful members (take place sent.now) }
    ensures { MatchOption result (IsLawful members (take (place + 1) sent.now))
        (λ breach. IsFirstBreach members sent.now breach) }
{
    a_message_follows_where_it_keeps_the_rules();
    let message = &sent[place];
    match broken_rules(members, &sent[..place], message) {
        Some(broken) => Some(Breach {
            place,
            slot: message.slot,
            broken,
        }),
        None => None,
    }
}
