//! What is said of a fault that a file is at: which file it is, and what can be done.

use crate::fault::ServeFault;
use cluster_folder::node_files;
use record_sums::{Damage, damage_in};
use std::alloc::{Alloc, Global};
use std::fs::{File, Files};
use std::io::Write;

/// What is to be put back for a node whose file is damaged.
const WHOLE_COPIES: &str = "whole copies of the node's two files, as they were last";

/// Writes which file a fault is about, and what can be done, where it is about one. Where that can't be written, the fault's
/// own line tells.
pub(crate) fn advise<R: Files<File = File> + Alloc<A = Global>, E: Write>(
    files: &R,
    alloc: Global,
    folder: &str,
    fault: ServeFault,
    e: &mut E,
) {
    match fault {
        ServeFault::Folder(fault) => cluster_folder::advise(folder, fault, e),
        ServeFault::OldRecords(node) => {
            advise_of_file(folder, node, "has records: --resume goes on over them", e);
        }
        ServeFault::Damaged(node) => {
            advise_of_damage(folder, node, damage_of(files, alloc, folder, node), e);
        }
        ServeFault::Device(node) => {
            advise_of_file(folder, node, "can't be read or written", e);
        }
        ServeFault::Foreign(node) => advise_of_file(
            folder,
            node,
            "has the records of another node or cluster: put back the node's own file",
            e,
        ),
        ServeFault::Mixed => advise_of_all(
            folder,
            "has the files of two clusters: put back those of one",
            e,
        ),
        ServeFault::Bind | ServeFault::Members | ServeFault::OutOfMemory | ServeFault::Io => {}
    }
}

// Where a node's files are damaged, as far as they can be read again.
fn damage_of<R: Files<File = File> + Alloc<A = Global>>(
    files: &R,
    alloc: Global,
    folder: &str,
    node: u8,
) -> Option<Damage> {
    let path = format!(in alloc; "{folder}/node-{node}.rec").ok()?;
    let read = node_files(files, alloc, path.as_str()).ok()?;
    damage_in(alloc, read.records.as_slice(), read.sums.as_slice()).ok()?
}

// What is said of a file that is damaged, at this byte where it is known.
fn advise_of_damage<E: Write>(folder: &str, node: u8, damage: Option<Damage>, e: &mut E) {
    let _ = match damage {
        Some(damage) => {
            writeln!(
                e,
                "{folder}/node-{node}.rec {damage}; put back {WHOLE_COPIES}"
            )
        }
        None => writeln!(
            e,
            "{folder}/node-{node}.rec is damaged; put back {WHOLE_COPIES}"
        ),
    };
}

fn advise_of_file<E: Write>(folder: &str, node: u8, what: &str, e: &mut E) {
    let _ = writeln!(e, "{folder}/node-{node}.rec {what}");
}

fn advise_of_all<E: Write>(folder: &str, what: &str, e: &mut E) {
    let _ = writeln!(e, "{folder} {what}");
}
