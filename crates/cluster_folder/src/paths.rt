//! Where the files of the folder stand.

use crate::fault::FolderFault;
use std::alloc::{AllocError, Global};

// A path that was made, where memory was not refused.
fn made(path: Result<String, AllocError>) -> Result<String, FolderFault> {
    match path {
        Ok(path) => Ok(path),
        Err(_) => Err(FolderFault::OutOfMemory),
    }
}

/// The path of the file of this name.
pub(crate) fn path_in(alloc: Global, folder: &str, name: &str) -> Result<String, FolderFault> {
    made(format!(in alloc; "{folder}/{name}"))
}

/// The path of the records of the node of this number.
pub(crate) fn record_path(alloc: Global, folder: &str, number: u8) -> Result<String, FolderFault> {
    made(format!(in alloc; "{folder}/node-{number}.rec"))
}

/// The path of the sums of the records of the node of this number.
pub(crate) fn sums_path(alloc: Global, folder: &str, number: u8) -> Result<String, FolderFault> {
    made(format!(in alloc; "{folder}/node-{number}.sum"))
}
