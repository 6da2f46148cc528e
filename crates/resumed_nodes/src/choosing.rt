//! What the records of all nodes say was chosen.

ghost use Rattle.std.specs.Prelude.{◌≡◌, [], length, map, IfErr, IfOk};
ghost use Rattle.std.specs.List.{All};
ghost use Rattle.std.specs.List.Sorted.{IsNonDecreasingBy};
ghost use Rattle.chosen_records.specs.Chosen.{IsRecorded, TellsChosen, TellsDiffer};
ghost use Rattle.resumed_nodes.specs.Starting.{AreStarted, MayBeTold, records_at_nodes};
ghost use Rattle.resumed_nodes.specs.Knowing.{TellsAll};

use ballots::{Message, OutOfMemory, Record};
use chosen_records::{ChosenFault, chosen_again};
use node_core::AgreementConfig;
use stable_records::Stable;
use std::alloc::Global;
use stored_nodes::StoredNode;

/// The messages that tell again what a majority of these nodes recorded, all of which have started again: of each slot that
/// was chosen, the `Accepted` of each member that recorded one at the slot's first ballot at which a majority did
/// ([`chosen_again`]). Slots rise. The messages share the bytes of the records.
///
/// It is [`ChosenFault::Differ`] exactly where two values are recorded at one ballot of a slot, memory apart, and names
/// such a slot.
pub fn chosen_by<S: Stable + Drop>(
    alloc: Global,
    config: AgreementConfig,
    nodes: &[StoredNode<S>],
) -> Result<Vec<Message>, ChosenFault>
    requires all { length nodes.now ≡ config.members }
    requires started { AreStarted config [] nodes.now }
    ensures recorded { IfOk result (λ told. All (IsRecorded (records_at_nodes nodes.now)) told.items) }
    ensures may { IfOk result (λ told. All (MayBeTold config) told.items) }
    ensures only { IfOk result (λ told. All (TellsChosen config.members (records_at_nodes nodes.now)) told.items) }
    ensures chosen { IfOk result (λ told. TellsAll config (records_at_nodes nodes.now) told.items) }
    ensures rising { IfOk result (λ told. IsNonDecreasingBy (λ message. message.slot) told.items) }
    ensures differ { IfErr result (TellsDiffer (records_at_nodes nodes.now)) }
{
    let records = all_records(alloc, nodes)?;
    chosen_again(alloc, config.members(), records.as_slice())
}

// The records of each node. They share the bytes of their values.
fn all_records<S: Stable + Drop>(
    alloc: Global,
    nodes: &[StoredNode<S>],
) -> Result<Vec<Vec<Record>>, OutOfMemory>
    ensures { IfOk result (λ all. map (λ own. own.items) all.items ≡ records_at_nodes nodes.now) }
{
    let mut all = Vec::new(alloc);
    for node in nodes {
        all.push(copies(alloc, node.records())?)?;
    }
    Ok(all)
}

fn copies(alloc: Global, records: &[Record]) -> Result<Vec<Record>, OutOfMemory>
    ensures { IfOk result (λ copies. copies.items ≡ records.now) }
{
    let mut copies = Vec::with_capacity(alloc, records.len())?;
    for told in records {
        copies.push(told.clone()?)?;
    }
    Ok(copies)
}
