//! Conformance tests of `cluster_backend` and `flight_service`, over their public calls: what a connection to one of three nodes
//! is told, one step after the other; a journal that is full; callers in threads beside the nodes' workers, while a node is started
//! again, also where its disk fails; two calls over the threads of a service, of which one waits for its node, at its gate and at its
//! seat, while the other is answered; puts that nothing decides, whose callers wait as long as they may, or leave; and a writer whose
//! peer does not take what it is given.
//!
//! The crate has no code but tests, so that what is proved in the crates below is not proved again together with them.
#![tactic(auto)]

#[cfg(test)]
mod asked;
#[cfg(test)]
mod calls;
#[cfg(test)]
mod flag;
#[cfg(test)]
mod full;
#[cfg(test)]
mod ports;
#[cfg(test)]
mod support;
#[cfg(test)]
mod tested;
#[cfg(test)]
mod threads;
#[cfg(test)]
mod timely;
#[cfg(test)]
mod two_nodes;
#[cfg(test)]
mod undecided;
#[cfg(test)]
mod watched;
