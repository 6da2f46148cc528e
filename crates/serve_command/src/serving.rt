//! A cluster that is served.

ghost use Rattle.std.specs.Prelude.{◌≡◌, ◌⊎◌, ℕ, List, OnOk, OnErr, []};
ghost use Rattle.std.specs.Io.KnownBytes.{Appends, Keeps};
ghost use Rattle.grpc_frames.specs.FrameFaults.{IsBeginning};
ghost use Rattle.flight_service.specs.parts.traces.specs.Told.{config_of};
ghost use Rattle.resumed_nodes.specs.Heard.{starts_of};
ghost use Rattle.resumed_nodes.specs.Starting.{AreStarted, records_at_nodes};
ghost use Rattle.serve_command.specs.Addresses.{addresses_text};

use crate::addresses::tell_addresses;
use crate::advice::advise;
use crate::fault::{ServeFault, fault_of, folder_fault};
use crate::new_nodes::{configured, journal_of, new_nodes};
use crate::restarting::{FileNodes, nodes_again, restart};
use crate::status::{FAILURE, SUCCESS};
use crate::stores::{FileStore, stores_over};
use crate::supervisor::{Restarts, Supervisor};
use ballots::Message;
use cluster_folder::{open_folder, put_down};
use cluster_identity::Identity;
use crossbeam_channel::Receiver;
use flight_service::{
    Beginning, Config, NoReceipts, Note, OwnEntry, Works, join_all, open_service,
};
use ghost_log::Opened;
use std::alloc::{Alloc, Global};
use std::fs::{File, Files};
use std::hash::RandomState;
use std::io::{Eprint, Write};
use std::marker::Brand;
use std::net::{Net, TcpListener, TcpStream};
use std::sync::Wait;
use std::thread::Threads;
use std::time::{Clock, Duration};

/// `flightd serve`: serves a cluster of 3 or 5 nodes, node k at the port of 127.0.0.1 that is k more than the first, until it
/// is ended from outside. Once all ports are open a line for each node goes to `w`, which is flushed ([`tell_addresses`]).
/// `hashing` has the random keys that keep look-ups fast whatever names clients choose. Node k keeps its records in the file
/// `node-k.rec` of `folder`, which is made where it is missing, and has the name `id` where it is new. Where `is_resumed` says so, the
/// nodes go on over the records that an earlier server left there, and have learned at once what these say was chosen; else no file
/// may have records yet. A put that is not decided after `wait` ends as `Unavailable`, and may be decided later.
///
/// A fault's line goes to `e`: `flightd: Bind` where a port can't be had, `flightd: Members` where the cluster would have
/// another number of nodes, `flightd: Open` where the folder or a file can't be opened or made, `flightd: Locked` where another
/// process has a file, `flightd: OldRecords` where a file has records and the nodes do not go on over them, `flightd: Damaged` where
/// what stands in one means no records, `flightd: Device` where one can't be read or written, `flightd: OutOfMemory` where memory or a
/// thread is refused, `flightd: Io` where `w` fails. Of nodes that go on it is also `flightd: Missing` where a file is not there
/// and others have records, `flightd: Truncated` where one is empty and others have records, and `flightd: Foreign` where the records in
/// one are those of another node or cluster. A second line says which file it is, and what can be done. Where these can't be written, the
/// status alone tells.
pub fn serve_run<
    R: Net<Listener = TcpListener, Stream = TcpStream>
        + Threads
        + Wait
        + Clock
        + Eprint
        + Files<File = File>
        + Alloc<A = Global>
        + Copy
        + Send
        + Sync
        + 'static,
    W: Write,
    E: Write,
>(
    rt: R,
    alloc: Global,
    hashing: RandomState,
    nodes: u8,
    first_port: u16,
    folder: &str,
    wait: Duration,
    is_resumed: bool,
    id: [u8; 16],
    w: &mut W,
    e: &mut E,
) -> u8
    ensures status { (result ≡ 0) ⊎ (result ≡ 1) }
    ensures told { result ≡ 0 → Appends (W.contents w.old) (W.contents w.new) (addresses_text first_port nodes) }
    ensures silent { result ≡ 0 → Keeps (E.contents e.old) (E.contents e.new) }
    ensures failed { result ≡ 1 → (written : List ℕ) × IsBeginning written (addresses_text first_port nodes)
        × Appends (W.contents w.old) (W.contents w.new) written }
{
    match serve_from(
        rt, alloc, hashing, nodes, first_port, folder, wait, is_resumed, id, w,
    ) {
        Ok(()) => SUCCESS,
        Err(fault) => {
            // Where this fails too, the status alone tells.
            let _ = writeln!(e, "flightd: {fault}");
            advise(&rt, alloc, folder, fault, e);
            let _ = e.flush();
            FAILURE
        }
    }
}

// Serves a cluster with its records in the files of a folder, and gives the fault itself.
fn serve_from<
    R: Net<Listener = TcpListener, Stream = TcpStream>
        + Threads
        + Wait
        + Clock
        + Eprint
        + Files<File = File>
        + Alloc<A = Global>
        + Copy
        + Send
        + Sync
        + 'static,
    W: Write,
>(
    rt: R,
    alloc: Global,
    hashing: RandomState,
    nodes: u8,
    first_port: u16,
    folder: &str,
    wait: Duration,
    is_resumed: bool,
    id: [u8; 16],
    w: &mut W,
) -> Result<(), ServeFault>
    ensures all { OnOk result (Appends (W.contents w.old) (W.contents w.new) (addresses_text first_port nodes)) }
    ensures part { OnErr result ((written : List ℕ) × IsBeginning written (addresses_text first_port nodes)
        × Appends (W.contents w.old) (W.contents w.new) written) }
{
    if nodes != 3 && nodes != 5 {
        return Err(ServeFault::Members);
    }
    let (stores, identity) = match opened(&rt, alloc, nodes, folder, is_resumed, id) {
        Ok(opened) => opened,
        Err(fault) => return Err(fault),
    };
    let options = ServeOptions {
        folder,
        identity: &identity,
        wait,
    };
    if is_resumed {
        serve_again(rt, alloc, hashing, nodes, first_port, stores, &options, w)
    } else {
        serve(rt, alloc, hashing, nodes, first_port, stores, &options, w)
    }
}

// The stores over the files of a folder, the last node's first, and what the cluster is.
fn opened<R: Files<File = File> + Alloc<A = Global>>(
    rt: &R,
    alloc: Global,
    nodes: u8,
    folder: &str,
    is_resumed: bool,
    id: [u8; 16],
) -> Result<(Vec<FileStore>, Identity), ServeFault> {
    match open_folder(rt, alloc, nodes, folder, is_resumed, id) {
        Ok(opened) => {
            let stores = stores_over(alloc, opened.disks, opened.sums)?;
            Ok((stores, opened.identity))
        }
        Err(fault) => Err(folder_fault(fault)),
    }
}

/// How a cluster is served besides: where its records are, what is put down there of it once its nodes have started, and how long a put
/// may take.
#[derive(Drop)]
pub struct ServeOptions<'a> {
    /// The folder.
    pub folder: &'a str,
    /// What the cluster is.
    pub identity: &'a Identity,
    /// How long a put is waited for until it is decided. One that isn't by then ends as `Unavailable`, and may be decided later.
    pub wait: Duration,
}

/// Serves a cluster as [`serve_run`] does, over the stores of its nodes, the last node's first, and gives the fault itself.
pub fn serve<
    R: Net<Listener = TcpListener, Stream = TcpStream>
        + Threads
        + Wait
        + Clock
        + Eprint
        + Files<File = File>
        + Copy
        + Send
        + 'static,
    W: Write,
>(
    rt: R,
    alloc: Global,
    hashing: RandomState,
    nodes: u8,
    first_port: u16,
    stores: Vec<FileStore>,
    options: &ServeOptions<'_>,
    w: &mut W,
) -> Result<(), ServeFault>
    ensures all { OnOk result (Appends (W.contents w.old) (W.contents w.new) (addresses_text first_port nodes)) }
    ensures part { OnErr result ((written : List ℕ) × IsBeginning written (addresses_text first_port nodes)
        × Appends (W.contents w.old) (W.contents w.new) written) }
{
    serve_new::<R, W, Brand>(
        rt,
        alloc,
        hashing,
        nodes,
        first_port,
        stores,
        options,
        w,
        Opened::new(),
    )
}

// Serves so many nodes that start with nothing, whose journal has this log. Their number is written out where threads take them: what a
// thread takes lives for `'static`, and there is no saying so of a type whose size is a parameter.
fn serve_new<
    R: Net<Listener = TcpListener, Stream = TcpStream>
        + Threads
        + Wait
        + Clock
        + Eprint
        + Files<File = File>
        + Copy
        + Send
        + 'static,
    W: Write,
    J: Beginning + Send + Sync + 'static,
>(
    rt: R,
    alloc: Global,
    hashing: RandomState,
    count: u8,
    first_port: u16,
    stores: Vec<FileStore>,
    options: &ServeOptions<'_>,
    w: &mut W,
    log: Opened<OwnEntry>,
) -> Result<(), ServeFault>
    requires named { log ≡ J.book }
    requires start { J.start ≡ [] }
    ensures all { OnOk result (Appends (W.contents w.old) (W.contents w.new) (addresses_text first_port count)) }
    ensures part { OnErr result ((written : List ℕ) × IsBeginning written (addresses_text first_port count)
        × Appends (W.contents w.old) (W.contents w.new) written) }
{
    match count {
        3 => match new_nodes::<R, J, 3>(&rt, alloc, hashing, stores, log) {
            Ok((nodes, notes)) => serve_nodes(
                rt, alloc, nodes, notes, first_port, count, options, w,
            ),
            Err(fault) => Err(fault),
        },
        5 => match new_nodes::<R, J, 5>(&rt, alloc, hashing, stores, log) {
            Ok((nodes, notes)) => serve_nodes(
                rt, alloc, nodes, notes, first_port, count, options, w,
            ),
            Err(fault) => Err(fault),
        },
        _ => Err(ServeFault::Members),
    }
}

/// Serves a cluster as [`serve`] does, whose nodes go on over the records in these files, and gives the fault itself.
pub fn serve_again<
    R: Net<Listener = TcpListener, Stream = TcpStream>
        + Threads
        + Wait
        + Clock
        + Eprint
        + Files<File = File>
        + Copy
        + Send
        + Sync
        + 'static,
    W: Write,
>(
    rt: R,
    alloc: Global,
    hashing: RandomState,
    nodes: u8,
    first_port: u16,
    stores: Vec<FileStore>,
    options: &ServeOptions<'_>,
    w: &mut W,
) -> Result<(), ServeFault>
    ensures all { OnOk result (Appends (W.contents w.old) (W.contents w.new) (addresses_text first_port nodes)) }
    ensures part { OnErr result ((written : List ℕ) × IsBeginning written (addresses_text first_port nodes)
        × Appends (W.contents w.old) (W.contents w.new) written) }
{
    let config = match configured(nodes) {
        Ok(config) => config,
        Err(fault) => {
            drop(stores);
            return Err(fault);
        }
    };
    match restart(&rt, alloc, hashing, &config, stores) {
        Ok((old, told)) => serve_restarted::<R, W, Brand>(
            rt,
            alloc,
            nodes,
            first_port,
            config,
            old,
            told,
            options,
            w,
            Opened::new(),
        ),
        Err(fault) => Err(fault),
    }
}

// Serves so many nodes that have started again, whose journal has this log, and begins where they stand. Their number is written out as in
// `serve_new`.
fn serve_restarted<
    R: Net<Listener = TcpListener, Stream = TcpStream>
        + Threads
        + Wait
        + Clock
        + Eprint
        + Files<File = File>
        + Copy
        + Send
        + 'static,
    W: Write,
    J: Beginning + Send + Sync + 'static,
>(
    rt: R,
    alloc: Global,
    count: u8,
    first_port: u16,
    config: Config,
    old: FileNodes,
    told: Vec<Message>,
    options: &ServeOptions<'_>,
    w: &mut W,
    log: Opened<OwnEntry>,
) -> Result<(), ServeFault>
    requires named { log ≡ J.book }
    requires start { J.start ≡ starts_of (records_at_nodes old.items) told.items }
    requires stand { AreStarted (config_of config) told.items old.items }
    ensures all { OnOk result (Appends (W.contents w.old) (W.contents w.new) (addresses_text first_port count)) }
    ensures part { OnErr result ((written : List ℕ) × IsBeginning written (addresses_text first_port count)
        × Appends (W.contents w.old) (W.contents w.new) written) }
{
    drop(told);
    let journal = match journal_of::<J>(alloc, &config, log) {
        Ok(journal) => journal,
        Err(fault) => {
            drop(old);
            return Err(fault);
        }
    };
    match count {
        3 => match nodes_again::<R, J, 3>(&rt, alloc, &config, old, journal) {
            Ok((nodes, notes)) => serve_nodes(
                rt, alloc, nodes, notes, first_port, count, options, w,
            ),
            Err(fault) => Err(fault),
        },
        5 => match nodes_again::<R, J, 5>(&rt, alloc, &config, old, journal) {
            Ok((nodes, notes)) => serve_nodes(
                rt, alloc, nodes, notes, first_port, count, options, w,
            ),
            Err(fault) => Err(fault),
        },
        _ => {
            drop(old);
            Err(ServeFault::Members)
        }
    }
}

// Serves these nodes, until their workers end.
fn serve_nodes<
    R: Net<Listener = TcpListener, Stream = TcpStream>
        + Threads
        + Wait
        + Clock
        + Eprint
        + Files<File = File>
        + Copy
        + Send
        + 'static,
    W: Write,
    C: Restarts + Drop + 'static,
>(
    rt: R,
    alloc: Global,
    nodes: C,
    notes: Vec<Receiver<Note>>,
    first_port: u16,
    count: u8,
    options: &ServeOptions<'_>,
    w: &mut W,
) -> Result<(), ServeFault>
    ensures all { OnOk result (Appends (W.contents w.old) (W.contents w.new) (addresses_text first_port count)) }
    ensures part { OnErr result ((written : List ℕ) × IsBeginning written (addresses_text first_port count)
        × Appends (W.contents w.old) (W.contents w.new) written) }
{
    if let Err(fault) = put_down(&rt, alloc, options.folder, options.identity) {
        return Err(folder_fault(fault));
    }
    let (service, workers) = match open_service(
        rt,
        alloc,
        nodes,
        NoReceipts,
        notes,
        first_port,
        count,
        Some(options.wait),
    ) {
        Ok(opened) => opened,
        Err(fault) => return Err(fault_of(0, fault)),
    };
    let supervisor = match Supervisor::start(rt, alloc, &service, count) {
        Ok(supervisor) => supervisor,
        Err(fault) => {
            service.nodes().stop(&rt);
            join_all(&rt, workers);
            return Err(fault);
        }
    };
    let told = tell_addresses(alloc, first_port, count, w);
    if told.is_err() {
        service.nodes().stop(&rt);
    }
    join_all(&rt, workers);
    supervisor.stop(&rt);
    told
}
