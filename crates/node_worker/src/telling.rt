//! Telling all nodes of messages.

ghost use Rattle.std.specs.Prelude.{List};
ghost use Rattle.node_worker.specs.Deeds.{Deed, Did};
ghost use Rattle.node_worker.specs.Stepping.{TellsEach, TellsAll};

use crate::workplace::{Sent, Workplace};

// Tells the workers of all nodes that this message was sent.
fn tell_each<P: Workplace>(place: &mut P, number: u64)
    ensures { (deeds : List (Deed P.Settled)) × Did P.does place.old deeds place.new × TellsEach P.nodes number deeds }
{
    for node in 0..place.count() {
        place.tell(node, number);
    }
}

/// Tells the workers of all nodes that these messages were sent.
pub(crate) fn tell_all<P: Workplace>(place: &mut P, sent: Sent)
    ensures { (deeds : List (Deed P.Settled)) × Did P.does place.old deeds place.new × TellsAll P.nodes sent deeds }
{
    for number in sent.first..sent.next {
        tell_each(place, number);
    }
}
