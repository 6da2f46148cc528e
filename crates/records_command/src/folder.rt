//! `flightd records DIR`, over any writers: what a server that resumes over the files of a cluster would serve.

ghost use Rattle.std.specs.Prelude.{◌≡◌, ◌⊎◌, [], ◌∷◌, ◌++◌, length, map, IfOk, IfErr, OnOk, OnErr, string_bytes};
ghost use Rattle.std.specs.Io.KnownBytes.{Appends, Keeps};
ghost use Rattle.ballots.specs.Majority.{IsMembers};
ghost use Rattle.record_sums.specs.Sums.{Fits};
ghost use Rattle.records_command.specs.declared.fault.ShowFolderFault.TheVariants.{Io as NoWriter, Members as NoMembers, OutOfMemory as NoMemory};
ghost use Rattle.records_command.specs.Folders.{AreMeant, FolderFails, FolderShows, Means, ShowsFolder};
ghost use Rattle.records_command.specs.Folders.{folder_text, lines_from, node_line};
ghost use Rattle.records_command.specs.FolderFaults.{IsFaultAt, IsFaultOf, IsMisfitFault, IsReadFault, WritesBeginning, WritesFolder};

use crate::fault::ShowFolderFault;
use crate::status::{FAILURE, SUCCESS};
use ballots::{Members, Record};
use disk_records::laws::files_mean_one;
use disk_records::read_records;
use folder_report::{FolderReport, ReportFault, WriteFault, report_of, write_report};
use grpc_frames::transfer::put;
use record_sums::{NodeFiles, damage_in, first_misfit};
use stable_records::StoreFault;
use std::alloc::{AllocError, Global};
use std::hash::RandomState;
use std::io::Write;

/// `flightd records DIR`: writes to `w` what a server that resumes over these files of all nodes of a cluster would serve, and gives the
/// exit status: how many records each node has, how many slots are decided, the tables with their latest versions, and the slots behind
/// them for which some node accepted something. Place k has the files of node k of `folder`. docs/FORMATS.md has the lines.
///
/// A fault's line goes to `e`: `flightd: Damaged` where a node's file means no records, or such that do not fit their sums;
/// `flightd: Foreign` where the files have two values at one ballot of a slot, `flightd: Members` where there are 0 or more than 7,
/// `flightd: OutOfMemory` where memory is refused, and `flightd: Io` where `w` fails. A second line says which file it is. Where these
/// can't be written, the status alone tells.
pub fn folder_run<W: Write, E: Write>(
    alloc: Global,
    hashing: RandomState,
    folder: &str,
    nodes: &[NodeFiles],
    w: &mut W,
    e: &mut E,
) -> u8
    ensures status { (result ≡ 0) ⊎ (result ≡ 1) }
    ensures told { result ≡ 0 → ShowsFolder nodes.now (W.contents w.old) (W.contents w.new) }
    // Without a fault nothing is said.
    ensures silent { result ≡ 0 → Keeps (E.contents e.old) (E.contents e.new) }
    ensures failed { result ≡ 1 → FolderFails nodes.now (W.contents w.old) (W.contents w.new) }
{
    match show_folder(alloc, hashing, nodes, w) {
        Ok(()) => SUCCESS,
        Err(fault) => {
            report(alloc, folder, nodes, fault, e);
            FAILURE
        }
    }
}

// Reports a fault. Where this fails too, the status alone tells.
fn report<E: Write>(
    alloc: Global,
    folder: &str,
    nodes: &[NodeFiles],
    fault: ShowFolderFault,
    e: &mut E,
) {
    let _ = writeln!(e, "flightd: {fault}");
    match fault {
        ShowFolderFault::Damaged(node) => report_damage(alloc, folder, node, nodes, e),
        ShowFolderFault::Mixed(slot) => {
            let slot = slot.number();
            let _ = writeln!(
                e,
                "{folder} has the files of two clusters: two values at slot {slot}"
            );
        }
        ShowFolderFault::Members | ShowFolderFault::OutOfMemory | ShowFolderFault::Io => {}
    }
    let _ = e.flush();
}

// Says where a node's file is damaged.
fn report_damage<E: Write>(
    alloc: Global,
    folder: &str,
    node: usize,
    nodes: &[NodeFiles],
    e: &mut E,
) {
    let Some(files) = nodes.get(node) else {
        return;
    };
    if let Ok(Some(damage)) = damage_in(alloc, files.records.as_slice(), files.sums.as_slice()) {
        let _ = writeln!(e, "{folder}/node-{node}.rec {damage}");
    }
}

/// Writes what a server that resumes over these files would serve, a line for each thing that is told, to `w`, which is flushed.
///
/// [`ShowFolderFault::Damaged`] names the first node whose file means no records, or such that do not fit their sums;
/// [`ShowFolderFault::Mixed`] a slot at one of whose ballots two values are recorded; [`ShowFolderFault::Members`] says that no cluster has so many
/// nodes. Nothing was written then. On
/// [`ShowFolderFault::OutOfMemory`] nothing was written, or a beginning of the lines. On [`ShowFolderFault::Io`] a write or the flush failed or
/// was interrupted, and a beginning of the lines has gone out, or all of them.
pub fn show_folder<W: Write>(
    alloc: Global,
    hashing: RandomState,
    nodes: &[NodeFiles],
    w: &mut W,
) -> Result<(), ShowFolderFault>
    ensures { FolderShows nodes.now result (W.contents w.old) (W.contents w.new) }
{
    let members = members_of(nodes.len())?;
    let all = all_records(alloc, nodes)?;
    match report_of(alloc, hashing, members, all.as_slice()) {
        Ok(report) => write_folder(alloc, all.as_slice(), &report, w),
        Err(fault) => Err(fault_of(fault)),
    }
}

// The members of a cluster of so many nodes.
fn members_of(count: usize) -> Result<Members, ShowFolderFault>
    ensures members { IfOk result (λ members. members ≡ count) }
    ensures fault { IfErr result (λ fault. (fault ≡ NoMembers) × (IsMembers count → ⊥)) }
{
    match u8::try_from(count) {
        Ok(count) => Members::new(count).ok_or(ShowFolderFault::Members),
        Err(_) => Err(ShowFolderFault::Members),
    }
}

// Why nothing is reported.
fn fault_of(fault: ReportFault) -> ShowFolderFault
    ensures { IsFaultOf fault result }
{
    match fault {
        ReportFault::Differ(slot) => ShowFolderFault::Mixed(slot),
        ReportFault::OutOfMemory => ShowFolderFault::OutOfMemory,
    }
}

// The records of each node.
fn all_records(alloc: Global, nodes: &[NodeFiles]) -> Result<Vec<Vec<Record>>, ShowFolderFault>
    ensures meant { IfOk result (λ all. AreMeant nodes.now (map (λ own. own.items) all.items)) }
    ensures fault { IfErr result (IsReadFault nodes.now) }
{
    let mut all = Vec::new(alloc);
    for node in 0..nodes.len() {
        match records_of(alloc, node, &nodes[node]) {
            Ok(own) => push(&mut all, own)?,
            Err(fault) => return Err(fault),
        }
    }
    Ok(all)
}

// Puts a node's records behind those of the others.
fn push(all: &mut Vec<Vec<Record>>, own: Vec<Record>) -> Result<(), ShowFolderFault>
    ensures behind { OnOk result (map (λ own. own.items) all.new.items ≡ map (λ own. own.items) all.old.items ++ own.items ∷ []) }
    ensures fault { IfErr result (λ fault. fault ≡ NoMemory) }
{
    match all.push(own) {
        Ok(()) => Ok(()),
        Err(_) => Err(ShowFolderFault::OutOfMemory),
    }
}

// The records of the node of this number.
fn records_of(alloc: Global, node: usize, files: &NodeFiles) -> Result<Vec<Record>, ShowFolderFault>
    ensures meant { IfOk result (λ own. Means files.now own.items) }
    ensures fault { IfErr result (IsFaultAt files.now node) }
{
    files_mean_one();
    match read_records(alloc, files.records.as_slice()) {
        Ok(read) => fitting(alloc, node, files, read.records),
        Err(StoreFault::Damaged) => Err(ShowFolderFault::Damaged(node)),
        Err(StoreFault::OutOfMemory) => Err(ShowFolderFault::OutOfMemory),
        // Bytes that are there do not fail.
        Err(StoreFault::Device | StoreFault::Broken) => unreachable!(),
    }
}

// These records of the node of this number, where they fit their sums.
fn fitting(
    alloc: Global,
    node: usize,
    files: &NodeFiles,
    records: Vec<Record>,
) -> Result<Vec<Record>, ShowFolderFault>
    ensures same { IfOk result (λ own. (own.items ≡ records.items) × Fits files.now.sums.items records.items) }
    ensures fault { IfErr result (IsMisfitFault files.now.sums.items records.items node) }
{
    match first_misfit(alloc, files.sums.as_slice(), records.as_slice()) {
        Ok(None) => Ok(records),
        Ok(Some(_)) => {
            drop(records);
            Err(ShowFolderFault::Damaged(node))
        }
        Err(_) => {
            drop(records);
            Err(ShowFolderFault::OutOfMemory)
        }
    }
}

// The line of how many records a node has.
fn node_line(alloc: Global, node: usize, own: &[Record]) -> Result<String, AllocError>
    ensures { IfOk result (λ line. string_bytes line ≡ node_line node own.now) }
{
    let count = own.len();
    format!(in alloc; "node {node} records {count}\n")
}

// Appends the line of the node of this number.
fn push_line(
    alloc: Global,
    text: &mut String,
    node: usize,
    own: &Vec<Record>,
) -> Result<(), AllocError>
    ensures { OnOk result (string_bytes text.new ≡ string_bytes text.old ++ node_line node own.now.items) }
{
    let line = node_line(alloc, node, own.as_slice())?;
    text.push_str(line.as_str())
}

// The lines of all nodes.
fn nodes_text(alloc: Global, all: &[Vec<Record>]) -> Result<String, AllocError>
    ensures { IfOk result (λ text. string_bytes text ≡ lines_from 0 (map (λ own. own.items) all.now)) }
{
    let mut text = String::new(alloc);
    for node in 0..all.len() {
        push_line(alloc, &mut text, node, &all[node])?;
    }
    Ok(text)
}

fn put_text<W: Write>(w: &mut W, text: &[u8]) -> Result<(), ShowFolderFault>
    ensures all { OnOk result (Appends (W.contents w.old) (W.contents w.new) text.now) }
    ensures part { OnErr result (WritesBeginning text.now (W.contents w.old) (W.contents w.new)) }
    ensures fault { IfErr result (λ fault. fault ≡ NoWriter) }
{
    match put(w, text) {
        Ok(()) => Ok(()),
        Err(_) => Err(ShowFolderFault::Io),
    }
}

// Writes the lines of all nodes, and those of the report.
fn write_folder<W: Write>(
    alloc: Global,
    all: &[Vec<Record>],
    report: &FolderReport,
    w: &mut W,
) -> Result<(), ShowFolderFault>
    ensures { WritesFolder (folder_text (map (λ own. own.items) all.now) report.now) result (W.contents w.old) (W.contents w.new) }
{
    let Ok(text) = nodes_text(alloc, all) else {
        return Err(ShowFolderFault::OutOfMemory);
    };
    put_text(w, text.as_bytes())?;
    match write_report(alloc, report, w) {
        Ok(()) => Ok(()),
        Err(WriteFault::OutOfMemory) => Err(ShowFolderFault::OutOfMemory),
        Err(WriteFault::Io) => Err(ShowFolderFault::Io),
    }
}
