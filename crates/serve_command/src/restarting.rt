//! Clusters that go on over the records of an earlier server.

ghost use Rattle.std.specs.Prelude.{◌≡◌, [], length, IfOk, OnOk};
ghost use Rattle.std.specs.List.{All};
ghost use Rattle.chosen_records.specs.Chosen.{IsRecorded};
ghost use Rattle.flight_service.specs.parts.traces.specs.Told.{config_of};
ghost use Rattle.resumed_nodes.specs.Starting.{AreStarted, GoesOn, MayBeTold, records_at_nodes};
ghost use Rattle.resumed_nodes.specs.Knowing.{KnowsAcknowledged, TellsAll};
ghost use Rattle.serve_command.specs.Restarting.{AreAtStart};

use crate::fault::ServeFault;
use crate::new_nodes::{configured, started};
use crate::progress::Progress;
use crate::stores::FileStore;
use agreement::AgreementConfig;
use ballots::{Message, NodeId};
use chosen_records::ChosenFault;
use flight_service::{Beginning, Config, Journal, Recent, Seat, Started, start_nodes};
use resumed_nodes::laws::{members_go_on, members_know_what_was_acknowledged};
use resumed_nodes::{ReopenFault, chosen_by, hear_together, reopen_next};
use shared_values::HeldValues;
use stable_records::StoreFault;
use std::alloc::Global;
use std::hash::RandomState;
use std::io::Eprint;
use std::sync::{Mutex, Wait};
use std::thread::Threads;
use std::time::Clock;
use stored_nodes::StoredNode;

/// The nodes of a cluster that have started again, each over the records in its file.
pub(crate) type FileNodes = Vec<StoredNode<FileStore>>;

// What nodes of this configuration agree on before they start.
fn agreed_by(config: &Config) -> Result<AgreementConfig, ServeFault>
    ensures { IfOk result (λ agreed. agreed ≡ config_of config.now) }
{
    match AgreementConfig::new(config.members, config.slot_limit) {
        Some(agreed) => Ok(agreed),
        None => Err(ServeFault::Members),
    }
}

// The fault of a server whose node of this number does not start again.
fn reopen_fault(node: u8, fault: ReopenFault) -> ServeFault {
    match fault {
        ReopenFault::Store(StoreFault::Damaged) => ServeFault::Damaged(node),
        ReopenFault::Store(StoreFault::OutOfMemory) => ServeFault::OutOfMemory,
        ReopenFault::Store(StoreFault::Device | StoreFault::Broken) => ServeFault::Device(node),
        ReopenFault::OutOfRange | ReopenFault::AnotherNode => ServeFault::Foreign(node),
        ReopenFault::OutOfMemory => ServeFault::OutOfMemory,
    }
}

// The values that the last of these nodes has in memory. Where there is none, or memory for their places is refused, there are
// no values: the next node then has its own.
fn held_by_last(alloc: Global, nodes: &FileNodes) -> HeldValues {
    match nodes.as_slice().last() {
        Some(node) => match HeldValues::of(alloc, node.records()) {
            Ok(held) => held,
            Err(_) => HeldValues::none(alloc),
        },
        None => HeldValues::none(alloc),
    }
}

// Starts the next node again, over the last of the stores. Where its records have the values of the node before it, it shares
// them, so that the values of all nodes take the memory of one.
fn restart_next(
    alloc: Global,
    hashing: RandomState,
    agreed: AgreementConfig,
    stores: &mut Vec<FileStore>,
    nodes: &mut FileNodes,
) -> Result<(), ServeFault>
    requires { AreStarted agreed [] nodes.old.items }
    ensures { OnOk result (AreStarted agreed [] nodes.new.items) }
{
    let number = nodes.len();
    let (Ok(node), Some(mut store)) = (u8::try_from(number), stores.pop()) else {
        return Err(ServeFault::Members);
    };
    let Some(me) = NodeId::new(node) else {
        drop(store);
        return Err(ServeFault::Members);
    };
    if !agreed.members().have(me) {
        drop(store);
        return Err(ServeFault::Members);
    }
    store.hold(held_by_last(alloc, nodes));
    match reopen_next(alloc, hashing, me, agreed, nodes, store) {
        Ok(()) => Ok(()),
        Err(fault) => Err(reopen_fault(node, fault)),
    }
}

// The nodes over these stores, the last node's first, each with its records.
fn restarted<R: Clock + Eprint>(
    alloc: Global,
    hashing: RandomState,
    agreed: AgreementConfig,
    stores: Vec<FileStore>,
    progress: &mut Progress<'_, R>,
) -> Result<FileNodes, ServeFault>
    ensures { IfOk result (λ nodes. AreStarted agreed [] nodes.items) }
{
    let mut stores = stores;
    let mut nodes = Vec::new(alloc);
    for number in 0..agreed.members().count() {
        restart_next(alloc, hashing, agreed, &mut stores, &mut nodes)?;
        progress.tell(usize::from(number), "has its records");
    }
    Ok(nodes)
}

// What the nodes' records say was chosen.
fn chosen(
    alloc: Global,
    agreed: AgreementConfig,
    nodes: &FileNodes,
) -> Result<Vec<Message>, ServeFault>
    requires { AreStarted agreed [] nodes.now.items }
    ensures all { IfOk result (λ told. length nodes.now.items ≡ agreed.members) }
    ensures may { IfOk result (λ told. All (MayBeTold agreed) told.items) }
    ensures recorded { IfOk result (λ told. All (IsRecorded (records_at_nodes nodes.now.items)) told.items) }
    ensures chosen { IfOk result (λ told. TellsAll agreed (records_at_nodes nodes.now.items) told.items) }
{
    if nodes.len() != usize::from(agreed.members().count()) {
        return Err(ServeFault::Members);
    }
    match chosen_by(alloc, agreed, nodes.as_slice()) {
        Ok(told) => Ok(told),
        Err(ChosenFault::Differ(_)) => Err(ServeFault::Mixed),
        Err(ChosenFault::OutOfMemory) => Err(ServeFault::OutOfMemory),
    }
}

// The nodes, once each has heard what was chosen, all at once.
fn heard<R: Threads + Clock + Eprint + Sync>(
    rt: &R,
    alloc: Global,
    agreed: AgreementConfig,
    nodes: FileNodes,
    told: &[Message],
    progress: &mut Progress<'_, R>,
) -> Result<FileNodes, ServeFault>
    requires started { AreStarted agreed [] nodes.items }
    requires may { All (MayBeTold agreed) told.now }
    ensures heard { IfOk result (λ heard. AreStarted agreed told.now heard.items) }
    ensures records { IfOk result (λ heard. records_at_nodes heard.items ≡ records_at_nodes nodes.items) }
    ensures all { IfOk result (λ heard. length heard.items ≡ length nodes.items) }
{
    let Ok(nodes) = hear_together(rt, alloc, agreed, nodes, told) else {
        return Err(ServeFault::OutOfMemory);
    };
    for number in 0..nodes.len() {
        progress.tell(number, "has learned what was decided");
    }
    Ok(nodes)
}

/// The nodes over these stores, the last node's first, each with the records in its file, once they have heard what these say
/// was chosen; and the messages that told them so. Whatever history left the nodes with these records, some history precedes
/// them as they stand then, in which clients did the same and were answered the same; and each upload that was told there to be
/// applied as a version is applied as that version at each of them at once.
pub(crate) fn restart<R: Threads + Clock + Eprint + Sync>(
    rt: &R,
    alloc: Global,
    hashing: RandomState,
    config: &Config,
    stores: Vec<FileStore>,
) -> Result<(FileNodes, Vec<Message>), ServeFault>
    ensures started { IfOk result (λ found. AreStarted (config_of config.now) found.1.items found.0.items) }
    ensures goes_on { IfOk result (λ found. GoesOn (config_of config.now) (records_at_nodes found.0.items) found.1.items) }
    ensures knows { IfOk result (λ found.
        KnowsAcknowledged (config_of config.now) (records_at_nodes found.0.items) found.1.items) }
{
    members_go_on::<FileStore>();
    members_know_what_was_acknowledged::<FileStore>();
    let agreed = agreed_by(config)?;
    let mut progress = Progress::new(rt);
    let nodes = restarted(alloc, hashing, agreed, stores, &mut progress)?;
    let told = match chosen(alloc, agreed, &nodes) {
        Ok(told) => told,
        Err(fault) => {
            drop(nodes);
            return Err(fault);
        }
    };
    match heard(rt, alloc, agreed, nodes, told.as_slice(), &mut progress) {
        Ok(nodes) => Ok((nodes, told)),
        Err(fault) => Err(fault),
    }
}

// The seat of the last of these nodes.
fn begun<J: Beginning>(
    alloc: Global,
    config: &Config,
    nodes: &mut FileNodes,
    journal: &Journal<J, Recent>,
) -> Result<Mutex<Seat<FileStore, J, Recent>>, ServeFault>
    requires { AreAtStart config.now J.start nodes.old.items }
    ensures { AreAtStart config.now J.start nodes.new.items }
{
    match nodes.pop() {
        Some(node) => Ok(Mutex::new(Seat::begin(alloc, *config, node).counting(journal))),
        None => Err(ServeFault::Members),
    }
}

/// So many nodes that have started again, with a journal without an entry that begins where they stand. [`ServeFault::Members`] says that
/// they are fewer, or none of a cluster.
pub(crate) fn nodes_again<R: Wait, J: Beginning, const N: usize>(
    rt: &R,
    alloc: Global,
    config: &Config,
    nodes: FileNodes,
    journal: Journal<J, Recent>,
) -> Result<Started<N, FileStore, J, Recent>, ServeFault>
    requires { AreAtStart config.now J.start nodes.items }
{
    let mut nodes = nodes;
    let mut seats = Vec::new(alloc);
    for _ in 0..N {
        let last = begun(alloc, config, &mut nodes, &journal)?;
        if seats.push(last).is_err() {
            return Err(ServeFault::OutOfMemory);
        }
    }
    seats.reverse();
    started(start_nodes(rt, alloc, seats, journal))
}
