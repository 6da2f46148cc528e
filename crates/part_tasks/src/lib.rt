//! Messages, headers and batches that are read and written over and over, and the parts of a Paxos node that are called
//! so, to be timed and measured from outside.
//!
//! A task is handed the bytes of one message of Arrow Flight, of one header of Arrow's metadata, of a batch with its
//! schema, or a number of slots. It gives a sum modulo 2^64 to which every repetition adds its part, so that it can be
//! compared with that of another program. All values that the parts are handed are no-ops, and all ballots are one, but
//! where an acceptor reports an upload's value in promises of rising ballots.
//!
//! Nothing is claimed here but that each task is safe and ends: what is read and written, and what the parts do, is
//! promised by the crates of each.
#![tactic(auto)]

mod batches;
mod fault;
mod headers;
mod messages;
mod parts;
mod reports;
mod shared;

pub use batches::{read_batch_often, rewrite_batch_often, write_batch_often};
pub use fault::TaskFault;
pub use headers::{decode_header, encode_header};
pub use messages::{decode_data, decode_info, encode_data, encode_info};
pub use parts::{call_acceptor, call_learner, call_log};
pub use reports::report_value;
pub use shared::{push, weight_of};
