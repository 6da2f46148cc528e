//! Why a run is unlawful: the first message that no correct node may have sent after those before it, and which rules
//! of Paxos it breaks (Lamport, *Paxos Made Simple*, section 2).
//!
//! `lawful_histories` says whether a run is lawful. `first_breach` is `None` exactly where it is, and else tells the
//! place and the slot of the first message that breaks a rule, with each rule that it breaks and the first message before
//! it that it goes against. `are_lawful_by_slot` says the same as `lawful_histories::are_lawful`, with an index by slot:
//! a message is looked at beside those of its slot alone.
//!
//! The laws say what the rules of single messages are worth: after a lawful history a message may follow exactly where
//! it keeps every rule, what is told of a message is one, and messages of other slots have no part in it.
#![tactic(auto)]

mod breach;
mod by_slot;
mod earlier;
mod finding;
pub mod laws;
mod rules;
mod searches;

pub use breach::{Breach, BrokenRules};
pub use by_slot::are_lawful_by_slot;
pub use finding::{first_breach, first_breach_by_slot};
