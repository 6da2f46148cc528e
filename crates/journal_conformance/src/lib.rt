//! Conformance tests of nodes that share a journal, over the public calls of `seats` and `journal`: nodes that take the events
//! of a run one by one, what each fault leaves, stores that fail, and receipts; and what is proved of nodes that start with
//! nothing, in [`from_nothing`].
#![tactic(auto)]

#[cfg(test)]
mod agreeing;
#[cfg(test)]
mod beginning;
#[cfg(test)]
mod failing;
pub mod from_nothing;
#[cfg(test)]
mod full;
#[cfg(test)]
mod hundred_thousand;
#[cfg(test)]
mod logged;
#[cfg(test)]
mod long;
#[cfg(test)]
mod receipts;
#[cfg(test)]
mod recent;
#[cfg(test)]
mod refused_memory;
#[cfg(test)]
mod runs;
#[cfg(test)]
mod support;
