//! Conformance tests of a node with its store, over the public calls of `stored_nodes`, with stores that fail, forget, or have
//! a record already. Rows of nodes whose stores don't fail are told as stories, in `run_stories`.
#![tactic(auto)]

#[cfg(test)]
mod failing;
#[cfg(test)]
mod forgetful;
#[cfg(test)]
mod long;
#[cfg(test)]
mod reopening;
#[cfg(test)]
mod support;
