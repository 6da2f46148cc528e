//! A process: its nodes, and what comes to them in a drawn order.

use crate::clients::{Acknowledged, tells_the_same};
use crate::draws::Draws;
use crate::starting::Started;
use crate::uploading::upload;
use ballots::Message;
use node_events::{Event, EventResult};
use stable_records::MemoryStable;
use std::alloc::Global;
use std::test::Fail;
use stored_nodes::StoredNode;

/// Three nodes, all messages that they sent, and which of these are on the way to which node.
#[derive(Drop)]
pub(crate) struct Process {
    pub(crate) started: Started,
    pub(crate) sent: Vec<Message>,
    on_the_way: Vec<(u64, u64)>,
}

impl Process {
    /// These nodes, which have sent nothing yet.
    pub(crate) fn new(alloc: Global, started: Started) -> Process {
        Process {
            started,
            sent: Vec::new(alloc),
            on_the_way: Vec::new(alloc),
        }
    }

    /// Its nodes.
    pub(crate) fn nodes(&mut self) -> &mut [StoredNode<MemoryStable>] {
        self.started.nodes.as_mut_slice()
    }

    /// Whether each node acknowledges the same as before.
    pub(crate) fn all_tell(&mut self, alloc: Global, before: &Acknowledged) -> Result<bool, Fail> {
        for node in self.nodes() {
            if !tells_the_same(alloc, node, before)? {
                return Ok(false);
            }
        }
        Ok(true)
    }

    // An event comes to its node, and what this sends is on the way to each node.
    fn apply(&mut self, event: &Event) -> Result<(), Fail> {
        let first = self.sent.len() as u64;
        let Some(node) = self.started.nodes.get_mut(event.node() as usize) else {
            return Err(Fail::from("no node"));
        };
        match node.apply(&mut self.sent, event) {
            Ok(EventResult::Sent { .. } | EventResult::Done) => {}
            _ => return Err(Fail::from("an event is refused")),
        }
        for number in first..self.sent.len() as u64 {
            self.send(number)?;
        }
        Ok(())
    }

    // The message of this number is on the way to each node.
    fn send(&mut self, number: u64) -> Result<(), Fail> {
        for node in 0..3 {
            self.on_the_way.push((node, number))?;
        }
        Ok(())
    }

    // Of the messages on the way a drawn one is lost, comes, or comes and will come once more.
    fn deliver(&mut self, draws: &mut Draws) -> Result<(), Fail> {
        let place = draws.below(self.on_the_way.len() as u64) as usize;
        let Some((node, number)) = self.on_the_way.get(place).copied() else {
            return Ok(());
        };
        let luck = draws.below(8);
        if luck != 0 && place < self.on_the_way.len() {
            let _ = self.on_the_way.swap_remove(place);
        }
        if luck == 1 {
            return Ok(());
        }
        self.apply(&Event::Deliver(node, number))
    }

    // Time passes at a drawn node, which leaves a drawn number of free slots to others.
    fn tick(&mut self, draws: &mut Draws) -> Result<(), Fail> {
        let node = draws.below(3);
        let left = if draws.below(2) == 0 { 0 } else { 1 };
        self.apply(&Event::Tick(node, left))
    }

    /// What is drawn happens: an upload is put, the next by its number, at the node whose turn it is; or a tick; or the delivery
    /// of a message, where one is on the way.
    pub(crate) fn step(
        &mut self,
        alloc: Global,
        draws: &mut Draws,
        uploads: &mut u64,
    ) -> Result<(), Fail> {
        match draws.below(32) {
            0 | 1 => {
                let number = *uploads;
                *uploads = number.saturating_add(1);
                self.apply(&Event::Put(number % 3, upload(alloc, number)?))
            }
            2 => self.tick(draws),
            _ if self.on_the_way.is_empty() => self.tick(draws),
            _ => self.deliver(draws),
        }
    }
}
