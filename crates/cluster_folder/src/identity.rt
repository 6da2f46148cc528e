//! What a folder says of its cluster, in the file `cluster.json`.

use crate::fault::FolderFault;
use crate::paths::path_in;
use cluster_identity::{Identity, IdentityFault, identity_text, read_identity};
use std::alloc::{Alloc, Global};
use std::fs::{self, File, Files};
use std::io::{self, Write};

// The fault of a file that can't be read or written.
fn device_fault(error: &io::Error) -> FolderFault {
    match error.kind() {
        io::ErrorKind::OutOfMemory => FolderFault::OutOfMemory,
        _ => FolderFault::IdentityDevice,
    }
}

/// What the last server put down of the cluster in this folder, `None` where no server has put down anything.
///
/// [`FolderFault::IdentityDamaged`] says that what stands there is not what a server writes, and
/// [`FolderFault::IdentityDevice`] that it can't be read.
pub(crate) fn identity_in<R: Files<File = File> + Alloc<A = Global>>(
    files: &R,
    alloc: Global,
    folder: &str,
) -> Result<Option<Identity>, FolderFault> {
    let path = path_in(alloc, folder, "cluster.json")?;
    let text = match fs::read(files, path.as_str()) {
        Ok(text) => text,
        Err(error) => match error.kind() {
            io::ErrorKind::NotFound => return Ok(None),
            _ => return Err(device_fault(&error)),
        },
    };
    match read_identity(alloc, text.as_slice()) {
        Ok(identity) => Ok(Some(identity)),
        Err(IdentityFault::NotIdentity) => Err(FolderFault::IdentityDamaged),
        Err(IdentityFault::OutOfMemory) => Err(FolderFault::OutOfMemory),
    }
}

// Writes a text into a file, and has it stand in the folder under its name.
fn replace<R: Files<File = File>>(
    files: &R,
    text: &str,
    new: &str,
    name: &str,
    folder: &str,
) -> io::Result<()> {
    let mut file = File::create(files, new)?;
    file.write_all(text.as_bytes())?;
    file.sync_all()?;
    fs::rename(files, new, name)?;
    File::open(files, folder)?.sync_all()
}

/// Puts down what the cluster in this folder is, in the place of what stood there: whole, or not at all, whatever crashes.
///
/// [`FolderFault::IdentityDevice`] says that it can't be written.
pub fn put_down<R: Files<File = File>>(
    files: &R,
    alloc: Global,
    folder: &str,
    identity: &Identity,
) -> Result<(), FolderFault> {
    let Ok(text) = identity_text(alloc, identity) else {
        return Err(FolderFault::OutOfMemory);
    };
    let name = path_in(alloc, folder, "cluster.json")?;
    let new = path_in(alloc, folder, "cluster.json.new")?;
    match replace(files, text.as_str(), new.as_str(), name.as_str(), folder) {
        Ok(()) => Ok(()),
        Err(error) => Err(device_fault(&error)),
    }
}
