//! A run judged slot by slot: each message after those of its slot alone.

ghost use Rattle.std.specs.Prelude.{◌≡◌, ◌↔◌, ◌<◌, List, [], IsTrue, IfOk, OnErr, MatchBool, MatchOption, length};
ghost use Rattle.indexmap.specs.IndexMap.{spare};
ghost use Rattle.ballots.specs.Slots.{OthersStay, SetsSlot};
ghost use Rattle.lawful_histories.specs.Lawful.{IsLawful};
ghost use Rattle.run_breaches.specs.Rules.{Keeps};
ghost use Rattle.run_breaches.specs.FirstBreach.{IsFirstUnlawful};
ghost use Rattle.run_breaches.specs.Slots.{messages_at, Joins};

use crate::laws::a_message_follows_where_it_keeps_the_rules;
use crate::rules::broken_rules;
use ballots::{Members, Message, OutOfMemory, Slot};
use indexmap::IndexMap;
use lawful_histories::laws::beginnings_are_lawful;
use std::alloc::Global;
use std::marker::Model;

/// The messages of one slot, in the order of sending.
#[derive(Drop)]
struct SlotMessages {
    messages: Vec<Message>,
}

impl Model for SlotMessages {
    ghost use Rattle.std.specs.Prelude.{List};
    ghost use Rattle.ballots.specs.declared.message.Message.{Message as Sent};

    ghost Value = { List Sent };

    ghost view = { λ s. s.messages.items };
}

/// Whether messages that so many members sent, in this order, are lawful, as `lawful_histories::are_lawful` says
/// (Lamport, *Paxos Made Simple*, section 2).
///
/// It keeps a clone of each message, which shares an upload's bytes, in an index by slot, and takes memory for nothing
/// else. Its time grows with the number of messages, and at most with the square of the number of one slot's messages.
pub fn are_lawful_by_slot(
    alloc: Global,
    members: Members,
    sent: &[Message],
) -> Result<bool, OutOfMemory>
    ensures lawful { IfOk result (λ lawful. IsTrue lawful ↔ IsLawful members sent.now) }
    ensures memory { OnErr result (0 < length sent.now) }
{
    beginnings_are_lawful();
    Ok(first_unlawful(alloc, members, sent)?.is_none())
}

/// The place of the first message that no correct node may have sent after those before it, or `None` exactly where what
/// was sent is lawful. Its memory and its time are those of [`are_lawful_by_slot`].
pub(crate) fn first_unlawful(
    alloc: Global,
    members: Members,
    sent: &[Message],
) -> Result<Option<usize>, OutOfMemory>
    ensures place { IfOk result (λ found. MatchOption found (IsLawful members sent.now)
        (λ place. IsFirstUnlawful members sent.now place)) }
    ensures memory { OnErr result (0 < length sent.now) }
{
    beginnings_are_lawful();
    a_message_follows_where_it_keeps_the_rules();
    let mut slots = IndexMap::new(alloc);
    for place in 0..sent.len() {
        if !joins(alloc, members, &mut slots, &sent[place])? {
            return Ok(Some(place));
        }
    }
    Ok(None)
}

// Puts the message behind those of its slot, where it keeps the rules after them, and says whether it does.
fn joins(
    alloc: Global,
    members: Members,
    slots: &mut IndexMap<Slot, SlotMessages>,
    message: &Message,
) -> Result<bool, OutOfMemory>
    requires { IsLawful members (messages_at slots.old.entries message.now.slot) }
    ensures { IfOk result (λ kept. MatchBool kept
        (Keeps members (messages_at slots.old.entries message.now.slot) message.now
        × Joins slots.old.entries slots.new.entries message.now)
        (Keeps members (messages_at slots.old.entries message.now.slot) message.now → ⊥)) }
{
    let mut before = take_messages(alloc, slots, message.slot);
    if !keeps_the_rules(members, &before, message) {
        return Ok(false);
    }
    before.messages.push(message.clone()?)?;
    slots.reserve(1)?;
    put_messages(slots, message.slot, before);
    Ok(true)
}

// Whether the message keeps the rules after these.
fn keeps_the_rules(members: Members, before: &SlotMessages, message: &Message) -> bool
    requires { IsLawful members before.now }
    ensures { IsTrue result ↔ Keeps members before.now message.now }
{
    a_message_follows_where_it_keeps_the_rules();
    broken_rules(members, &before.messages, message).is_none()
}

// The messages of the slot, which the index then has no longer.
fn take_messages(
    alloc: Global,
    slots: &mut IndexMap<Slot, SlotMessages>,
    slot: Slot,
) -> SlotMessages
    ensures taken { result ≡ messages_at slots.old.entries slot }
    ensures others { OthersStay (messages_at slots.old.entries) (messages_at slots.new.entries) slot }
{
    match slots.swap_remove(&slot) {
        Some(held) => held,
        None => SlotMessages {
            messages: Vec::new(alloc),
        },
    }
}

// Makes these the messages of the slot, without memory.
fn put_messages(slots: &mut IndexMap<Slot, SlotMessages>, slot: Slot, messages: SlotMessages)
    requires { 0 < spare slots.old }
    ensures { SetsSlot (messages_at slots.old.entries) (messages_at slots.new.entries) slot messages }
{
    let Ok(_) = slots.insert(slot, messages) else {
        unreachable!()
    };
}
