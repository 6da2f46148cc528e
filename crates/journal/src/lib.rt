//! The journal of nodes that run concurrently, and the receipts of its steps.
//!
//! Nodes in one process enter what they do into one [`Journal`], one step after the other: an event, its result, and the
//! messages that it sent. Its type keeps that every step followed by the rules of a node (`Following` of
//! `histories`), whichever node took it. So what it tells is a history that clients may rely on: answers to one ticket have
//! equal bytes, and an upload that was told to be applied stands once in every later version (`Safe` of
//! `safe_histories`).
//!
//! ```text
//! journal.reserve(count)?;                    // room for a step that sends so many messages
//! journal.enter(step, messages, recovered);   // takes no memory
//! journal.confirm(&receipt)                   // whether the step of this number has this event and this answer
//! ```
//!
//! A [`Receipt`] is what whoever took a step has of it: its number, its event and what it gave. [`Journal::meet`] says of
//! two receipts whether both stand there, whichever threads got them, and what they are worth to each other.
//!
//! A journal holds all of its steps ([`Whole`]), or forgets them ([`Recent`]): then it has how many they are and its last
//! messages, and does not grow. What is promised of the steps is the same, and each node's own entries stand there alike.
//!
//! A journal can have a log of the nodes' own entries beside it ([`Journal::with_log`]), which exists in proofs alone. A
//! node that knows the same log has just the journal's own entries of it where it has as many.
#![tactic(auto)]

mod beginning;
mod journal;
mod kept;
mod last_messages;
pub mod laws;
mod own;
mod progress;
mod receipt;
mod recent_steps;
mod retention;
mod whole_steps;

pub use beginning::Beginning;
pub use journal::Journal;
pub use last_messages::RECENT_MESSAGES;
pub use node_parts::{Config, MAX_JOURNAL_ENTRIES, MAX_SLOTS, Step, Trace, audit};
pub use own::OwnEntry;
pub use receipt::Receipt;
pub use retention::{Recent, Retention, Whole};
