//! `flightd acceptor`, a function over any reader and writers.
//!
//! `acceptor_run` answers frames of Paxos messages as node 0 of three, with nothing kept. It gives the exit status, and
//! tells of a fault in a line. What it runs, `answer_frames`, gives the fault itself with the number of its frame, and
//! `reply_to` the reply to one message. A caller hands over the real streams, and exits with the status.
#![tactic(auto)]

mod answering;
mod fault;
pub mod laws;
mod serving;
mod status;

pub use answering::{NODE, reply_to};
pub use fault::AnswerFault;
pub use serving::{FRAME_LIMIT, acceptor_run, answer_frames};
pub use status::{FAILURE, SUCCESS};
