//! The learner of Paxos (Lamport, *Paxos Made Simple*, section 2.3): it counts what the acceptors accepted, and knows
//! for each slot the value that was chosen.
//!
//! A slot is learned where its value was told as decided, or where a majority of different acceptors was counted at one
//! ballot. It then keeps its value. The calls that tell the learner something take no memory: before each of them the
//! caller makes its room with the call of the same name behind `see_`, which tells what the call will make learned.
//!
//! So a caller handles an Accepted, and likewise a Decided with `see_on_decided` and `on_decided`:
//!
//! ```text
//! let learned = learner.see_on_accepted(acceptor, slot, ballot, &value)?;
//! if let Some(value) = &learned {
//!     keep(slot, value)?;
//! }
//! learner.on_accepted(acceptor, slot, ballot, value);
//! ```
//!
//! Where `see_on_accepted` or the caller's own `keep` fails, what the learner holds is as before. What a slot has
//! learned is `decided(slot)`.
#![tactic(auto)]

pub mod laws;
mod learner;
mod state;
mod tally;

pub use learner::Learner;
