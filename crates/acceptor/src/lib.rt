//! The acceptor of Paxos (Lamport, *Paxos Made Simple*, section 2.2): for each slot the highest ballot that it has
//! promised, and the last value that it accepted with that value's ballot.
//!
//! `on_prepare` and `on_accept` change the acceptor and give the answer at once. `on_prepare_from` does the same of a
//! Prepare of all slots from a first one on, which one promise then binds (section 3). A node that starts again keeps a
//! record before each answer goes out, since a promise that is forgotten is broken. It asks first, makes the room,
//! keeps the record, and then applies it, which takes no memory and cannot fail:
//!
//! ```text
//! let granted = acceptor.would_grant(slot, ballot);         // of a Prepare would_promise; changes nothing
//! acceptor.make_room(slot)?;                                // the last step that memory can be refused to
//! storage.keep(&Record::Accepted(slot, acceptance))?;       // before anything is answered
//! acceptor.apply(Record::Accepted(slot, acceptance));       // of a Prepare Record::Promised(slot, ballot)
//! let acceptor = Acceptor::from_records(alloc, &records)?;  // when the node starts again: it has back every promise
//! ```
//!
//! `answers_are_as_recorded` in [`laws`] says that both ways leave the same, also of a promise of all slots from a first one
//! on, which has a record of its own:
//!
//! ```text
//! let promised = acceptor.would_promise_from(slot, ballot); // changes nothing
//! acceptor.make_room(slot)?;
//! storage.keep(&Record::PromisedFrom(slot, ballot))?;       // before anything is answered
//! acceptor.apply(Record::PromisedFrom(slot, ballot));       // slots below this one stay as they are
//! ```
#![tactic(auto)]

mod acceptor;
mod answer;
pub mod laws;
mod maps;
mod ranges;
mod records;

pub use acceptor::Acceptor;
pub use answer::Answer;
pub use records::highest_begun_round;
