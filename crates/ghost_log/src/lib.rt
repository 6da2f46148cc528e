//! A log that only grows and exists in proofs alone, and values that know how far it has come.
//!
//! Two values that each follow one list can tell whether they are at the same place by a count alone, once both know that
//! what they follow are beginnings of one log. A [`Reached`] is that knowledge: it takes no memory beyond its length, and
//! contracts see it as the entries that the log has had by then. A [`Head`] is what adds to the log. Two that know one log
//! have one name, a type parameter ([`Naming`]); whoever opens a log picks its name.
#![tactic(auto)]

mod head;
mod naming;
mod reached;
mod rules;

pub use head::{Head, Opened};
pub use naming::Naming;
pub use reached::Reached;

#[cfg(test)]
mod tests;
