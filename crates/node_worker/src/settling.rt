//! The puts that wait at a node.

ghost use Rattle.std.specs.Prelude.{◌≡◌, List};
ghost use Rattle.node_worker.specs.Deeds.{Deed, Did};
ghost use Rattle.node_worker.specs.Stepping.{end_for, EndsAt, EndsEach, Settles, LooksAt, LooksAtEach};

use crate::workplace::{End, PutId, Workplace, WorkplaceFault};
use stable_records::StoreFault;

/// The end of all puts that wait at a node which met this fault, `None` where the node's later inputs need not meet it too.
/// [`WorkplaceFault::Strange`] and [`WorkplaceFault::Lost`] are told as a store's.
pub fn end_of(fault: WorkplaceFault) -> Option<End>
    ensures { result ≡ end_for fault }
{
    match fault {
        WorkplaceFault::Down => Some(End::Down),
        WorkplaceFault::SlotsSpent => Some(End::SlotsSpent),
        WorkplaceFault::RoundsSpent => Some(End::RoundsSpent),
        WorkplaceFault::JournalFull => Some(End::JournalFull),
        WorkplaceFault::Store(why) => Some(End::Store(why)),
        WorkplaceFault::Strange | WorkplaceFault::Lost => Some(End::Store(StoreFault::Damaged)),
        WorkplaceFault::NotSent | WorkplaceFault::OutOfRange | WorkplaceFault::OutOfMemory => None,
    }
}

// Ends the put that waits at this place, if one does.
fn end_at<P: Workplace>(place: &mut P, at: usize, end: End)
    ensures { (deeds : List (Deed P.Settled)) × Did P.does place.old deeds place.new × EndsAt end at deeds }
{
    if let Some(put) = place.find(at) {
        place.answer(put, Err(end));
    }
}

/// Ends all puts that wait at the node.
pub fn end_each<P: Workplace>(place: &mut P, end: End)
    ensures { (deeds : List (Deed P.Settled)) × Did P.does place.old deeds place.new × EndsEach end deeds }
{
    for at in 0..place.places() {
        end_at(place, at, end);
    }
}

// Asks what has become of the put, and answers it where that is known, or will not be.
fn settle<P: Workplace>(place: &mut P, put: PutId)
    ensures { (deeds : List (Deed P.Settled)) × Did P.does place.old deeds place.new × Settles put deeds }
{
    match place.enter(put) {
        Ok(Some(settled)) => place.answer(put, Ok(settled)),
        Ok(None) => {}
        Err(fault) => {
            if let Some(why) = end_of(fault) {
                place.answer(put, Err(why));
            }
        }
    }
}

// Looks at the put that waits at this place, if one does.
fn look_at<P: Workplace>(place: &mut P, at: usize)
    ensures { (deeds : List (Deed P.Settled)) × Did P.does place.old deeds place.new × LooksAt at deeds }
{
    if let Some(put) = place.find(at) {
        settle(place, put);
    }
}

/// Looks at all puts that wait at the node: whose outcome is known there is told it once it is entered, and waits no more.
pub fn look_at_each<P: Workplace>(place: &mut P)
    ensures { (deeds : List (Deed P.Settled)) × Did P.does place.old deeds place.new × LooksAtEach deeds }
{
    for at in 0..place.places() {
        look_at(place, at);
    }
}
