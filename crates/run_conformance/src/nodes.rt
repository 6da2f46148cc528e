//! Nodes that take one input after the other, each with a store of what it kept.

use crate::support::members;
use agreement::{AgreementConfig, Refusal};
use ballots::{Message, NodeId, Record};
use node_core::{Input, Node};
use std::alloc::Global;
use std::hash::RandomState;
use std::test::Fail;

/// How many slots there are.
const SLOTS: u32 = 4;

/// The node in a box: a test that held it as it is would be proved long.
pub(crate) fn boxed(alloc: Global, node: Node) -> Result<Box<Node>, Fail> {
    let node = Box::new(alloc, node)?;
    Ok(node)
}

/// Three members, and so many slots.
pub(crate) fn config() -> Result<AgreementConfig, Fail> {
    Ok(AgreementConfig::new(members(3)?, SLOTS).ok_or("no config")?)
}

/// Node 0, 1 or 2 of three, as these records left it.
pub(crate) fn node(
    alloc: Global,
    hashing: RandomState,
    number: u8,
    records: &[Record],
) -> Result<Box<Node>, Fail> {
    let me = NodeId::new(number).ok_or("no node")?;
    match Node::open(alloc, hashing, me, config()?, records) {
        Ok(node) => boxed(alloc, node),
        Err(Refusal::OutOfMemory) => Err(Fail::from("OutOfMemory")),
        Err(_) => Err(Fail::from("no node is opened")),
    }
}

// Keeps the record, if there is one.
fn keep(kept: &mut Vec<Record>, due: Option<&Record>) -> Result<(), Fail> {
    if let Some(record) = due {
        kept.push(record.clone()?)?;
    }
    Ok(())
}

/// Copies of the messages go behind those that were sent.
pub(crate) fn send(sent: &mut Vec<Message>, sends: &[Message]) -> Result<(), Fail> {
    for message in sends {
        sent.push(message.clone()?)?;
    }
    Ok(())
}

// What is due, behind what was kept and what was sent.
fn copy_of(
    kept: &mut Vec<Record>,
    sent: &mut Vec<Message>,
    due: Option<&Record>,
    sends: &[Message],
) -> Result<(), Fail> {
    keep(kept, due)?;
    send(sent, sends)
}

/// Lets the node do what is due to an input: its record goes behind its others, and its messages behind those that were
/// sent.
pub(crate) fn take(
    node: &mut Node,
    kept: &mut Vec<Record>,
    sent: &mut Vec<Message>,
    input: Input,
) -> Result<(), Fail> {
    let plan = match node.plan(input) {
        Ok(plan) => plan,
        Err(Refusal::OutOfMemory) => return Err(Fail::from("OutOfMemory")),
        Err(_) => return Err(Fail::from("refused")),
    };
    match copy_of(kept, sent, plan.record(), plan.sends()) {
        Ok(()) => {
            node.commit(plan);
            Ok(())
        }
        Err(fail) => {
            drop(plan);
            Err(fail)
        }
    }
}

/// A node, and what it kept.
#[derive(Drop)]
pub(crate) struct Member {
    node: Box<Node>,
    kept: Vec<Record>,
}

impl Member {
    // The node starts again from what it kept. Where it forgets, the last record of this is lost.
    fn restart(&mut self, alloc: Global, hashing: RandomState, forgets: bool) -> Result<(), Fail> {
        if forgets {
            let _lost = self.kept.pop();
        }
        let number = self.node.me().number();
        let node = node(alloc, hashing, number, self.kept.as_slice())?;
        self.set_node(node);
        Ok(())
    }

    fn set_node(&mut self, node: Box<Node>) {
        self.node = node;
    }
}

/// Three nodes, and all messages that they sent.
#[derive(Drop)]
pub(crate) struct Three {
    alloc: Global,
    hashing: RandomState,
    nodes: Vec<Member>,
    sent: Vec<Message>,
}

impl Three {
    /// Three nodes, with nothing.
    pub(crate) fn new(alloc: Global, hashing: RandomState) -> Result<Three, Fail> {
        let mut nodes = Vec::new(alloc);
        for number in 0..3 {
            nodes.push(Member {
                node: node(alloc, hashing, number, &[])?,
                kept: Vec::new(alloc),
            })?;
        }
        Ok(Three {
            alloc,
            hashing,
            nodes,
            sent: Vec::new(alloc),
        })
    }

    /// All messages that were sent.
    pub(crate) fn sent(&self) -> &[Message] {
        self.sent.as_slice()
    }

    /// An input comes to the node of this number.
    pub(crate) fn happen(&mut self, number: usize, input: Input) -> Result<(), Fail> {
        match self.nodes.get_mut(number) {
            Some(member) => take(&mut member.node, &mut member.kept, &mut self.sent, input),
            None => Err(Fail::from("no node")),
        }
    }

    /// Each of these messages comes to the node before it.
    pub(crate) fn deliver(&mut self, deliveries: &[(usize, usize)]) -> Result<(), Fail> {
        for (number, place) in deliveries {
            let message = self.message(*place)?;
            self.happen(*number, Input::Deliver(message))?;
        }
        Ok(())
    }

    // A copy of the message of this number.
    fn message(&self, place: usize) -> Result<Message, Fail> {
        match self.sent.get(place) {
            Some(message) => Ok(message.clone()?),
            None => Err(Fail::from("not sent")),
        }
    }

    /// The node of this number starts again from its records. Where it forgets, the last of these is lost.
    pub(crate) fn restart(&mut self, number: usize, forgets: bool) -> Result<(), Fail> {
        match self.nodes.get_mut(number) {
            Some(member) => member.restart(self.alloc, self.hashing, forgets),
            None => Err(Fail::from("no node")),
        }
    }
}
