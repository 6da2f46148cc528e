//! The proposer of Paxos (Lamport, *Paxos Made Simple*, sections 2.2, 2.5 and 3): at most one attempt at a time, begun
//! at a ballot above all that its node has begun or seen, and the one Accept that a majority of promises leads to; or,
//! in an attempt for all slots from one on, one for each of these, slot after slot.
//!
//! A caller sends a Prepare at the ballot that `begin` gives, after it has kept a record of it: a node that forgets
//! which ballots it began may begin one twice. It hands each Promise to `on_promise`, and sends the Accept that this
//! gives, and each Nack to `on_nack`. `see_begin`, `see_on_promise` and `see_on_nack` tell beforehand what these give,
//! and change nothing. No call takes memory but `see_on_promise`, `see_on_promise_from` and `see_go_on`, for the copy
//! of a value, so none of them needs room.
//!
//! So a caller begins an attempt, and handles the promises that come:
//!
//! ```text
//! let ballot = proposer.see_begin(slot, seen_round, &candidate)?;
//! keep(Began(ballot))?;
//! proposer.begin(slot, seen_round, candidate)?; // the same ballot: now the Prepare goes out
//! let accept = proposer.see_on_promise(sender, slot, ballot, &report)?; // what is to be kept or sent
//! proposer.on_promise(sender, slot, ballot, report); // the same Accept, where this promise makes the majority
//! ```
//!
//! A leader asks one promise for all slots from the first free one on, and then sends each further value by an Accept
//! alone (section 3):
//!
//! ```text
//! proposer.begin_from(slot, seen_round, candidate)?; // the ballot that `see_begin` told
//! proposer.on_promise_from(sender, slot, ballot, reports); // with the majority, the Accept for the first slot
//! proposer.next(); // the slot that `go_on` is for; `has_report_ahead`: something is reported from there on
//! let accept = proposer.see_go_on(&candidate)?; // what is to be sent
//! proposer.go_on(candidate); // the same Accept
//! ```
//!
//! What such promises report is kept as it came, at most one list for each member, and a report leaves its list as the
//! attempt goes past its slot: memory and time grow with the reports and not with the slots.
#![tactic(auto)]

mod ahead;
mod attempt;
mod choice;
pub mod laws;
mod proposer;
mod ranged;
mod reports;

pub use proposer::{Proposer, RoundsSpent};
