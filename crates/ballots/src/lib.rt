//! Ballots, slots, values, the messages of Paxos and the records of its nodes (Lamport, *Paxos Made Simple*, 2001),
//! with their bytes.
//!
//! The nodes agree on one list of uploads, one decision for each slot. A ballot is a round and the node that began it,
//! and ballots are ordered by round, then by node. A message is an envelope: its sender, its slot, and a body of one of
//! seven kinds. What a message's bytes mean is defined in `specs/`, as a relation
//! between a message and a list of protobuf fields; `decode` is `Ok` exactly where the bytes mean a message, memory
//! apart, and `encode` appends the one canonical encoding. The same holds of a record, what a node keeps before it
//! answers.
//!
//! A majority is asked of a set of nodes: `NodeSet` holds them without memory, and `Members::are_majority` counts those
//! of them that are members. Ballots, values and messages are printed as one line each, and read from it. The limits
//! are numbers in `specs/Limits.antt`, and `limits_are_these` says that the constants here are the same. A crate above
//! cites `specs/`, the laws, and of `proofs/` the module `CallerLemmas` alone: the order of ballots, and sizes of sets
//! of members.
#![tactic(auto)]

mod acceptance;
mod ballot;
mod decoding;
mod encoding;
mod fault;
mod fields;
mod laws;
mod members;
mod message;
mod node;
mod node_set;
mod printed;
mod printed_message;
mod reading;
mod record;
mod record_decoding;
mod record_encoding;
mod slot;
mod value;
mod writing;

pub use acceptance::Acceptance;
pub use ballot::{Ballot, MAX_ROUND};
pub use fault::MessageFault;
pub use laws::{
    ballots_are_ordered, canonical_means_its_message, canonical_means_its_record,
    comparison_is_the_order, limits_are_these, majorities_meet, messages_are_one,
    messages_write_all_fields, none_is_below_every_ballot, only_uploads_take_memory,
    records_are_one, records_write_all_fields, same_ballots_are_one, set_slots_are_one,
    sizes_count_each_member_once,
};
pub use members::{MAX_MEMBERS, Members};
pub use message::{Body, MAX_MESSAGE_BYTES, Message};
pub use node::{MAX_NODE, NodeId};
pub use node_set::NodeSet;
pub use printed::LineFault;
pub use record::{MAX_RECORD_BYTES, Record};
pub use slot::{MAX_SLOT, Slot};
pub use value::{MAX_UPLOAD_BYTES, OutOfMemory, UploadBytes, Value};
