//! What is said of a fault that a folder is at: which file it is, and what can be done.

use crate::fault::FolderFault;
use std::io::Write;

/// Writes which file of a folder a fault is about, and what can be done, in a line. Where that can't be written, the fault's own line
/// tells.
pub fn advise<E: Write>(folder: &str, fault: FolderFault, e: &mut E) {
    if let Some((node, what)) = wrong_records(fault) {
        let _ = writeln!(e, "{folder}/node-{node}.rec {what}");
    }
    if let Some((node, what)) = wrong_sums(fault) {
        let _ = writeln!(e, "{folder}/node-{node}.sum {what}");
    }
    if let Some(what) = wrong_folder(fault) {
        let _ = writeln!(e, "{folder} {what}");
    }
}

// Which node's file of records the fault is about, and what is wrong with it.
fn wrong_records(fault: FolderFault) -> Option<(u8, &'static str)> {
    match fault {
        FolderFault::Open(node) => Some((node, "can't be opened or made")),
        FolderFault::Locked(node) => Some((node, "is in use by another process")),
        FolderFault::Missing(node) => Some((
            node,
            "is missing: put it back; a new file would let its node promise again what it has promised",
        )),
        FolderFault::Truncated(node) => Some((
            node,
            "is shorter than the last server left it: put back the whole file, as it was last",
        )),
        FolderFault::Foreign(node) => Some((
            node,
            "is not the file that the last server left: put back the node's own file, as it was last",
        )),
        FolderFault::Device(node) => Some((node, "can't be read")),
        _ => None,
    }
}

// Likewise of a node's file of sums.
fn wrong_sums(fault: FolderFault) -> Option<(u8, &'static str)> {
    match fault {
        FolderFault::SumsOpen(node) => Some((node, "can't be opened or made")),
        FolderFault::SumsLocked(node) => Some((node, "is in use by another process")),
        _ => None,
    }
}

// What is wrong with the folder, or with the file that says which cluster it is of.
fn wrong_folder(fault: FolderFault) -> Option<&'static str> {
    match fault {
        FolderFault::Folder => Some("can't be opened or made"),
        FolderFault::Members => {
            Some("has the files of another number of nodes: --nodes has to name that number")
        }
        FolderFault::IdentityDevice => Some("has a cluster.json that can't be read or written"),
        FolderFault::IdentityDamaged => Some(
            "has a cluster.json that no server wrote: put it back, or remove it to start without it",
        ),
        _ => None,
    }
}
