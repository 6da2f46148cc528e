//! What the threads of a service share.

use crate::places::Places;
use cluster_backend::{Nodes, Receipts};
use std::alloc::{AllocError, Global};
use std::time::Duration;

/// The nodes, where the receipts of their answers are kept, where they are served, the places for connections of each, and how long
/// a put is waited for.
#[derive(Drop)]
pub struct Service<C: Nodes + Drop, K: Receipts + Drop> {
    nodes: C,
    receipts: K,
    locations: Vec<String>,
    places: Vec<Places>,
    longest_wait: Option<Duration>,
}

impl<C: Nodes + Drop, K: Receipts + Drop> Service<C, K> {
    /// So many nodes, node k at the location `plain+tcp://127.0.0.1:PORT`, where PORT is the first port and k more. A put is waited
    /// for as long as the longest wait, or for ever if there is none.
    /// [`AllocError`] says that memory was refused.
    pub fn new(
        alloc: Global,
        nodes: C,
        receipts: K,
        first_port: u16,
        count: u8,
        longest_wait: Option<Duration>,
    ) -> Result<Service<C, K>, AllocError> {
        let mut locations = Vec::new(alloc);
        let mut places = Vec::new(alloc);
        for node in 0..count {
            locations.push(location(alloc, first_port, node)?)?;
            places.push(Places::new())?;
        }
        Ok(Service {
            nodes,
            receipts,
            locations,
            places,
            longest_wait,
        })
    }

    /// The nodes.
    pub fn nodes(&self) -> &C {
        &self.nodes
    }

    /// Where receipts are kept.
    pub fn receipts(&self) -> &K {
        &self.receipts
    }

    /// The URI of each node's location, in the order of their numbers.
    pub fn locations(&self) -> &[String] {
        &self.locations
    }

    /// How long a put is waited for until it is decided, `None` for ever.
    pub fn longest_wait(&self) -> Option<Duration> {
        self.longest_wait
    }

    /// The places for connections of a node.
    pub(crate) fn places(&self, node: usize) -> Option<&Places> {
        self.places.get(node)
    }
}

// The URI of a node's location.
fn location(alloc: Global, first_port: u16, node: u8) -> Result<String, AllocError> {
    let port = u32::from(first_port) + u32::from(node);
    format!(in alloc; "plain+tcp://127.0.0.1:{port}")
}
