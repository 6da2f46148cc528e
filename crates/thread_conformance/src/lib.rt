//! Conformance tests of nodes behind locks, over the public calls of `node_threads`: three nodes, one step after the
//! other; what each fault leaves, stores that fail, and calls that are refused memory.
//!
//! Most tests are a [`Story`](story::Story) that is told of three nodes. It reaches them through the trait
//! [`Tested`](tested::Tested), whose answers are small, since a test that holds a node itself is proved long.
#![tactic(auto)]

#[cfg(test)]
mod calls;
#[cfg(test)]
mod endings;
#[cfg(test)]
mod failing;
#[cfg(test)]
mod faults;
#[cfg(test)]
mod forgetful;
#[cfg(test)]
mod full;
#[cfg(test)]
mod made;
#[cfg(test)]
mod recent;
#[cfg(test)]
mod refused_memory;
#[cfg(test)]
mod steps;
#[cfg(test)]
mod story;
#[cfg(test)]
mod support;
#[cfg(test)]
mod tested;
