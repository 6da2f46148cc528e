//! How the nodes of a process start.

ghost use Rattle.std.specs.Prelude.{◌≡◌, [], length, IfOk};
ghost use Rattle.std.specs.List.{All};
ghost use Rattle.resumed_nodes.specs.Starting.{AreStarted, MayBeTold};

use agreement::AgreementConfig;
use ballots::{Members, Message, NodeId, Record};
use resumed_nodes::{chosen_by, hear_together, reopen_next};
use stable_records::{MemoryStable, Stable};
use std::alloc::Global;
use std::hash::RandomState;
use std::test::Fail;
use std::thread::Threads;
use stored_nodes::StoredNode;

/// More slots than the rows fill.
const SLOTS: u32 = 1_000;

/// Three nodes, and whether one of them accepted a value for a slot at which they have learned none.
#[derive(Drop)]
pub(crate) struct Started {
    pub(crate) nodes: Box<Vec<StoredNode<MemoryStable>>>,
    pub(crate) is_undecided: bool,
}

// Puts a node behind the others.
fn push(
    nodes: &mut Vec<StoredNode<MemoryStable>>,
    node: StoredNode<MemoryStable>,
) -> Result<(), Fail> {
    match nodes.push(node) {
        Ok(()) => Ok(()),
        Err(refused) => {
            drop(refused);
            Err(Fail::from("OutOfMemory"))
        }
    }
}

/// Three nodes that have nothing.
pub(crate) fn started_anew(alloc: Global, hashing: RandomState) -> Result<Started, Fail> {
    let members = Members::new(3).ok_or("no members")?;
    let config = AgreementConfig::new(members, SLOTS).ok_or("no config")?;
    let mut nodes = Vec::new(alloc);
    for number in 0..3 {
        let me = NodeId::new(number).ok_or("no node")?;
        match StoredNode::open(alloc, hashing, me, config, MemoryStable::new(alloc)) {
            Ok(Some(node)) => push(&mut nodes, node)?,
            _ => return Err(Fail::from("a node is not opened")),
        }
    }
    Ok(Started {
        nodes: Box::new(alloc, nodes)?,
        is_undecided: false,
    })
}

// A store of what the node of this number kept, without so many of its last records.
fn store(
    alloc: Global,
    before: &[StoredNode<MemoryStable>],
    number: u8,
    lost: usize,
) -> Result<MemoryStable, Fail> {
    let Some(node) = before.get(usize::from(number)) else {
        return Err(Fail::from("no node before"));
    };
    let records = node.records();
    let mut store = MemoryStable::new(alloc);
    for kept in &records[..records.len().saturating_sub(lost)] {
        store.keep(kept)?;
    }
    Ok(store)
}

// Whether one of these records accepts a value for a slot of which nothing is told.
fn leaves_undecided(records: &[Record], told: &[Message]) -> bool {
    records.iter().any(|kept| match kept {
        Record::Accepted(slot, _) => !told.iter().any(|message| message.slot == *slot),
        _ => false,
    })
}

// Three nodes that start over what these ones kept, without so many of the last records of each.
fn reopened(
    alloc: Global,
    hashing: RandomState,
    config: AgreementConfig,
    before: &[StoredNode<MemoryStable>],
    lost: usize,
) -> Result<Vec<StoredNode<MemoryStable>>, Fail>
    requires { config.members ≡ 3 }
    ensures three { IfOk result (λ nodes. length nodes.items ≡ 3) }
    ensures started { IfOk result (λ nodes. AreStarted config [] nodes.items) }
{
    let mut nodes = Vec::new(alloc);
    for number in 0..3 {
        let me = NodeId::new(number).ok_or("no node")?;
        let store = store(alloc, before, number, lost)?;
        if reopen_next(alloc, hashing, me, config, &mut nodes, store).is_err() {
            return Err(Fail::from("a node is not opened again"));
        }
    }
    Ok(nodes)
}

// The messages that tell what was chosen.
fn told_by(
    alloc: Global,
    config: AgreementConfig,
    nodes: &[StoredNode<MemoryStable>],
) -> Result<Vec<Message>, Fail>
    requires three { (config.members ≡ 3) × (length nodes.now ≡ 3) }
    requires started { AreStarted config [] nodes.now }
    ensures { IfOk result (λ told. All (MayBeTold config) told.items) }
{
    match chosen_by(alloc, config, nodes) {
        Ok(told) => Ok(told),
        Err(_) => Err(Fail::from("nothing is told")),
    }
}

/// Three nodes that go on over what these ones kept, and have heard what was chosen. Against the rules, each has lost so many
/// of its last records.
pub(crate) fn started_over<R: Threads + Sync>(
    rt: &R,
    alloc: Global,
    hashing: RandomState,
    before: &[StoredNode<MemoryStable>],
    lost: usize,
) -> Result<Started, Fail> {
    let members = Members::new(3).ok_or("no members")?;
    let config = AgreementConfig::new(members, SLOTS).ok_or("no config")?;
    let opened = reopened(alloc, hashing, config, before, lost)?;
    let told = told_by(alloc, config, opened.as_slice())?;
    let heard = hear_together(rt, alloc, config, opened, told.as_slice())?;
    let nodes = Box::new(alloc, heard)?;
    let is_undecided = nodes
        .iter()
        .any(|node| leaves_undecided(node.records(), told.as_slice()));
    Ok(Started {
        nodes,
        is_undecided,
    })
}
