//! The folder itself.

use crate::fault::FolderFault;
use std::alloc::Alloc;
use std::fs::{File, Files, canonicalize, create_dir_all};
use std::io;

// More folders than stand above one another in a path, which has 4,096 bytes at most (Linux, `PATH_MAX`).
const MOST_FOLDERS: usize = 2048;

// Syncs the folders above this one, up to one that can't be opened: that was there before.
fn sync_above<R: Files<File = File> + Alloc>(files: &R, folder: &str) -> io::Result<()> {
    let mut path = canonicalize(files, folder)?;
    for _ in 0..MOST_FOLDERS {
        if !path.pop() {
            break;
        }
        let Ok(above) = File::open(files, path.as_str()) else {
            break;
        };
        above.sync_all()?;
    }
    Ok(())
}

// Makes the folder where it is missing, and its name stand in the folder above it, as each name on the way to it.
fn made<R: Files<File = File> + Alloc>(files: &R, folder: &str) -> io::Result<()> {
    if files.metadata(folder).is_ok() {
        return Ok(());
    }
    create_dir_all(files, folder)?;
    sync_above(files, folder)
}

/// Makes the folder where it is missing, so that it stands after a crash. [`FolderFault::Folder`] says that it can't be made.
pub(crate) fn make_folder<R: Files<File = File> + Alloc>(
    files: &R,
    folder: &str,
) -> Result<(), FolderFault> {
    match made(files, folder) {
        Ok(()) => Ok(()),
        Err(error) => match error.kind() {
            io::ErrorKind::OutOfMemory => Err(FolderFault::OutOfMemory),
            _ => Err(FolderFault::Folder),
        },
    }
}
