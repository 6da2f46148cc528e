//! Conformance tests of processes that go on over the records of earlier ones, over the public calls of `stored_nodes` and
//! `resumed_nodes`: three processes in a row, each of three nodes among which messages are lost, repeated and overtaken,
//! and each ended at a drawn moment. What they sent is judged as one history, and what was acknowledged has to be told again. Nodes
//! also hear again what was chosen, for thousands of slots.
#![tactic(auto)]

#[cfg(test)]
mod clients;
#[cfg(test)]
mod draws;
#[cfg(test)]
mod hearing;
#[cfg(test)]
mod in_a_row;
#[cfg(test)]
mod process;
#[cfg(test)]
mod rows;
#[cfg(test)]
mod starting;
#[cfg(test)]
mod uploading;
