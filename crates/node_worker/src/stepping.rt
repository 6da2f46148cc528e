//! One step of a worker.

ghost use Rattle.std.specs.Prelude.{ℕ, List, ◌∷◌};
ghost use Rattle.node_worker.specs.Paces.{Happening, Passed, Ticked, IsPaceOf};
ghost use Rattle.node_worker.specs.Deeds.{Deed, Did};
ghost use Rattle.node_worker.specs.Stepping.{Hands, Hears, ReadsFirst, Gives, Heeds, TicksWhereDue, Steps};

use crate::pace::Pace;
use crate::settling::{end_each, end_of, look_at_each};
use crate::telling::tell_all;
use crate::workplace::{End, Note, Sent, WorkInput, Workplace};
use ballots::Message;

/// Whether a worker goes on behind a step.
#[derive(Clone, Copy, Debug, PartialEq, Eq)]
pub enum Next {
    /// It goes on.
    Wait,
    /// Its work is over.
    End,
}

// Hands an input to the node, and tells all workers of the messages that went out; or ends all puts that wait, where it failed
// for good.
fn hand<P: Workplace>(place: &mut P, input: WorkInput) -> Option<Sent>
    ensures { (deeds : List (Deed P.Settled)) × Did P.does place.old deeds place.new × Hands P.nodes input result deeds }
{
    match place.hand(input) {
        Ok(sent) => {
            tell_all(place, sent);
            Some(sent)
        }
        Err(fault) => {
            if let Some(end) = end_of(fault) {
                end_each(place, end);
            }
            None
        }
    }
}

// The message of this number comes to the node.
fn hear<P: Workplace>(place: &mut P, pace: &mut Pace, number: u64)
    ensures { (me members : ℕ) (happened : List Happening) → IsPaceOf me members happened pace.old
        → (deeds : List (Deed P.Settled)) × (after : List Happening) × Did P.does place.old deeds place.new
        × Hears P.nodes number happened deeds after × IsPaceOf me members after pace.new }
{
    if let Some(message) = place.read(number) {
        pace.hear(&message);
        let _ = hand(place, WorkInput::Deliver(number, message));
    }
}

// A tick is given to the node.
fn tick<P: Workplace>(place: &mut P, pace: &mut Pace)
    ensures { (me members : ℕ) (happened : List Happening) → IsPaceOf me members happened pace.old
        → (deeds : List (Deed P.Settled)) × (after : List Happening) × Did P.does place.old deeds place.new
        × Gives P.nodes me members happened deeds after × IsPaceOf me members after pace.new }
{
    let sent = hand(place, WorkInput::Tick(pace.left()));
    let message = read_first(place, sent);
    pass_tick(pace, message);
}

// A tick was given that sent this message, if it sent one.
fn pass_tick(pace: &mut Pace, message: Option<Message>)
    ensures { (me members : ℕ) (happened : List Happening) → IsPaceOf me members happened pace.old
        → IsPaceOf me members (Ticked message ∷ happened) pace.new }
{
    pace.tick(message.as_ref());
    drop(message);
}

// The first of the messages that went out, if any did.
fn read_first<P: Workplace>(place: &mut P, sent: Option<Sent>) -> Option<Message>
    ensures { (deeds : List (Deed P.Settled)) × Did P.does place.old deeds place.new × ReadsFirst sent result deeds }
{
    let sent = sent?;
    if sent.first < sent.next {
        place.read(sent.first)
    } else {
        None
    }
}

// Does what comes of what was heard.
fn heed<P: Workplace>(place: &mut P, pace: &mut Pace, note: Option<Note>) -> Next
    ensures { (me members : ℕ) (happened : List Happening) → IsPaceOf me members happened pace.old
        → (deeds : List (Deed P.Settled)) × (after : List Happening) × Did P.does place.old deeds place.new
        × Heeds P.nodes note happened result deeds after × IsPaceOf me members after pace.new }
{
    let Some(note) = note else {
        return Next::Wait;
    };
    match note {
        Note::Message(number) => hear(place, pace, number),
        Note::Look => pace.hear_event(),
        Note::Stop => {
            end_each(place, End::Down);
            return Next::End;
        }
    }
    Next::Wait
}

// Gives the node a tick where one is due.
fn tick_where_due<P: Workplace>(place: &mut P, pace: &mut Pace)
    ensures { (me members : ℕ) (happened : List Happening) → IsPaceOf me members happened pace.old
        → (deeds : List (Deed P.Settled)) × (after : List Happening) × Did P.does place.old deeds place.new
        × TicksWhereDue P.nodes me members happened deeds after × IsPaceOf me members after pace.new }
{
    if pace.is_due(place.waits()) {
        tick(place, pace);
        look_at_each(place);
    }
}

/// One step of a worker, which heard a note, or none, and waited for so many milliseconds: the node is handed the message that
/// was heard of, it is looked at the puts that wait, and the node is given a tick where one is due. Behind [`Note::Stop`] all
/// puts that wait end as [`End::Down`].
///
/// What the node is handed is just that message, or a tick. Of the messages that it sends the workers of all nodes are told. A
/// put is answered only what was entered for it, or a fault that its node met; none is passed over.
pub fn step<P: Workplace>(place: &mut P, pace: &mut Pace, waited: u64, note: Option<Note>) -> Next
    ensures { (me members : ℕ) (happened : List Happening) → IsPaceOf me members happened pace.old
        → (deeds : List (Deed P.Settled)) × (after : List Happening) × Did P.does place.old deeds place.new
        × Steps P.nodes me members note (Passed waited ∷ happened) result deeds after × IsPaceOf me members after pace.new }
{
    pace.pass(waited);
    match heed(place, pace, note) {
        Next::Wait => {
            look_at_each(place);
            tick_where_due(place, pace);
            Next::Wait
        }
        Next::End => Next::End,
    }
}
