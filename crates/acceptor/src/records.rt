//! Records of a node, told again.

ghost use Rattle.std.specs.Prelude.{◌≡◌, ◌∷◌, ◌++◌, [], List, IfOk};
ghost use Rattle.ballots.specs.declared.record.Record.{Record as Kept};
ghost use Rattle.acceptor.specs.Restored.{IsHighestRound};

use ballots::{OutOfMemory, Record};

/// The highest round that the node has begun an attempt at, 0 where it has begun none (section 2.5).
pub fn highest_begun_round(records: &[Record]) -> u32
    ensures { IsHighestRound records.now result }
{
    let mut highest = 0;
    for told in records {
        highest = higher_round(highest, told);
    }
    highest
}

fn higher_round(highest: u32, told: &Record) -> u32
    ensures { (records : List Kept) → IsHighestRound records highest
        → IsHighestRound (records ++ told.now ∷ []) result }
{
    match told {
        Record::Began(ballot) => highest.max(ballot.round()),
        Record::Promised(_, _) => highest,
        Record::Accepted(_, _) => highest,
        Record::PromisedFrom(_, _) => highest,
    }
}

pub(crate) fn copied(told: &Record) -> Result<Record, OutOfMemory>
    ensures { IfOk result (λ copy. copy ≡ told.now) }
{
    Ok(match told {
        Record::Began(ballot) => Record::Began(*ballot),
        Record::Promised(slot, ballot) => Record::Promised(*slot, *ballot),
        Record::Accepted(slot, acceptance) => Record::Accepted(*slot, acceptance.clone()?),
        Record::PromisedFrom(first, ballot) => Record::PromisedFrom(*first, *ballot),
    })
}
