//! What was chosen, told again.

ghost use Rattle.std.specs.Prelude.{◌≡◌, ℕ, length, map, IfErr, IfOk};
ghost use Rattle.std.specs.List.{All};
ghost use Rattle.std.specs.List.Sorted.{IsNonDecreasingBy};
ghost use Rattle.ballots.specs.Ballot.{Ballot as Pair};
ghost use Rattle.ballots.specs.declared.value.Value.{Value as Held};
ghost use Rattle.chosen_records.specs.Chosen.{Differ, IsChosenAt, IsRecorded, IsToldChosen};
ghost use Rattle.chosen_records.specs.Chosen.{TellsChosen, TellsDiffer};

use crate::counting::tallied;
use crate::fault::ChosenFault;
use crate::telling::told_again;
use ballots::{Members, Message, Record};
use std::alloc::Global;

/// The messages that tell again what a majority of these nodes recorded: of each slot that was chosen, the `Accepted`
/// of each member that recorded one at the slot's first ballot at which a majority did. Place k has the records of node
/// k, in the order in which they were kept, a list for each member. Slots rise, so that a node that hears the messages
/// in their order grows its prefix as it goes. They share the bytes of the records.
///
/// It is [`ChosenFault::Differ`] exactly where two values are recorded at one ballot of a slot, memory apart, and names
/// such a slot. A record takes the time of a look-up by slot and ballot, and the places are sorted once.
pub fn chosen_again(
    alloc: Global,
    members: Members,
    records: &[Vec<Record>],
) -> Result<Vec<Message>, ChosenFault>
    requires { length records.now ≡ members }
    ensures recorded { IfOk result (λ told. All (IsRecorded (map (λ own. own.items) records.now)) told.items) }
    ensures only { IfOk result (λ told. All (TellsChosen members (map (λ own. own.items) records.now)) told.items) }
    ensures chosen { IfOk result (λ told. (slot : ℕ) (ballot : Pair) (value : Held)
        → IsChosenAt members (map (λ own. own.items) records.now) slot ballot value
        → IsToldChosen members told.items slot) }
    ensures rising { IfOk result (λ told. IsNonDecreasingBy (λ message. message.slot) told.items) }
    ensures differ { IfErr result (TellsDiffer (map (λ own. own.items) records.now)) }
    ensures agree { IfOk result (λ _. (slot : ℕ) → Differ (map (λ own. own.items) records.now) slot → ⊥) }
{
    let mut tallies = tallied(alloc, members, records)?;
    tallies.sort_keys()?;
    Ok(told_again(alloc, members, &tallies)?)
}
