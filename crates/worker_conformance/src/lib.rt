//! Conformance tests of what workers do, over the public calls of `node_worker`: when ticks are due, by rows that were drawn, and steps of a
//! worker over a workplace in memory.
#![tactic(auto)]

#[cfg(test)]
mod drawn_paces;
#[cfg(test)]
mod fake;
#[cfg(test)]
mod pace_rows;
#[cfg(test)]
mod support;
#[cfg(test)]
mod working;
