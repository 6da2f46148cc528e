//! What the records of all nodes say was chosen (Lamport, *Paxos Made Simple*, sections 2.2 and 2.5).
//!
//! A node records each acceptance before it tells it. So a process that starts over the records of an earlier one can
//! tell again what was told then, as a message may be told any number of times: `chosen_again` gives, for each slot at
//! which a majority of the members recorded an acceptance at one ballot, the messages by which these told it. A node
//! that hears them has learned what was chosen.
#![tactic(auto)]

mod chosen;
mod counting;
mod fault;
pub mod laws;
mod tally;
mod telling;

pub use chosen::chosen_again;
pub use fault::ChosenFault;
