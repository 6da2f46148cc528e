//! How a node starts.

ghost use Rattle.std.specs.Prelude.{◌↔◌, IsTrue};
ghost use Rattle.std.specs.List.{AllByRecursion};
ghost use Rattle.node_core.specs.State.{IsRecordOf, OpenGives};

use crate::node::Node;
use agreement::{Agreement, AgreementConfig, Refusal};
use ballots::{NodeId, Record};
use pending_uploads::PendingUploads;
use std::alloc::Global;
use std::hash::RandomState;
use table_versions::Tables;

// Whether each node and slot that a record names is of the configuration.
fn is_record_of(config: AgreementConfig, kept: &Record) -> bool
    ensures { IsTrue result ↔ IsRecordOf config kept.now }
{
    let members = config.members();
    match kept {
        Record::Began(ballot) => members.have(ballot.node()),
        Record::Promised(slot, ballot) => {
            slot.number() < config.slot_limit() && members.have(ballot.node())
        }
        Record::Accepted(slot, acceptance) => {
            slot.number() < config.slot_limit() && members.have(acceptance.ballot.node())
        }
        Record::PromisedFrom(first, ballot) => {
            first.number() < config.slot_limit() && members.have(ballot.node())
        }
    }
}

// Whether all these records are of the configuration.
fn are_records_of(config: AgreementConfig, records: &[Record]) -> bool
    ensures { IsTrue result ↔ AllByRecursion (IsRecordOf config) records.now }
{
    records.iter().all(|kept| is_record_of(config, kept))
}

impl Node {
    /// The node `me` of this configuration, as its records left it, with nothing else. Memory is taken from this allocator
    /// as the node grows; `hashing` has the random keys that keep look-ups fast whatever names clients choose.
    ///
    /// [`Refusal::OutOfRange`] exactly where `me` is no member, or a record names a node that is none or a slot that there
    /// is not; else [`Refusal::OutOfMemory`], where memory was refused. No other refusal comes.
    pub fn open(
        alloc: Global,
        hashing: RandomState,
        me: NodeId,
        config: AgreementConfig,
        records: &[Record],
    ) -> Result<Node, Refusal>
        ensures { OpenGives config me records.now result }
    {
        if !config.members().have(me) || !are_records_of(config, records) {
            return Err(Refusal::OutOfRange);
        }
        let agreement = Agreement::open(alloc, me, config, records)?;
        Ok(Node {
            agreement,
            tables: Tables::new(alloc, hashing),
            waiting: PendingUploads::new(alloc, hashing),
        })
    }
}
