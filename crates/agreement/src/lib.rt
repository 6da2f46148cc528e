//! One node's part in agreement (Lamport, *Paxos Made Simple*, sections 2 and 3): its acceptor, its proposer, its
//! learner and the log of what is decided, as one, by what a node owes to the messages that come (`Due` in the
//! definitions of `agreement_rules`).
//!
//! A call decides a step, makes the room that it will want, and changes nothing else. The record that a step has is
//! kept before the step is taken, and its messages go out after:
//!
//! ```text
//! let step = node.reply_to_accept(seen_round, slot, proposal)?; // decides; makes the room
//! if let Some(kept) = step.kept() { storage.keep(kept)?; }      // what has to stand before the answer goes out
//! node.commit(step);                                            // takes no memory, and can't fail
//! send(messages);                                               // those of the step
//! ```
//!
//! All nodes are opened with one [`AgreementConfig`], what they agree on before they start, which is made once. Here are attempts
//! and Asks, what is due to each of the seven bodies of messages, where each change leaves a node, and what it has
//! learned.
#![tactic(auto)]

mod agreement;
mod asks;
mod attempts;
mod config;
mod handling;
mod learned;
mod messages;
mod proposals;
mod range;
mod refusal;
mod replies;
mod step;

pub use agreement::Agreement;
pub use config::{AgreementConfig, MAX_SLOTS};
pub use refusal::Refusal;
pub use step::{AgreementStep, Change};
