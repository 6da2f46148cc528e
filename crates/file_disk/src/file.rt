//! A disk over a file of the operating system.

ghost use Rattle.std.specs.Prelude.{[], false, ⊤};
ghost use Rattle.disk_records.specs.Disk.{CountsFailure};

use disk_records::{Disk, DiskFailed};
use stable_records::FaultCount;
use std::alloc::Alloc;
use std::fs::{self, Files, OpenOptions};
use std::io;
use std::os::fd::AsRawFd;
use std::os::unix::fs::FileExt;

/// The bytes that a file stays below: POSIX, `off_t` of 64 bits.
const LIMIT: usize = 1 << 63;

/// A disk over a file of the operating system, which it holds locked (`flock`): no two disks have one file.
///
/// Once a sync has failed, each later one fails too: the system may count a write as done that never came to the
/// medium (Linux forgets a failed write once it has told it). The file has to be opened anew, which reads from the
/// medium.
#[derive(Drop)]
pub struct FileDisk {
    file: fs::File,
    has_lost: bool,
    failures: FaultCount,
}

impl FileDisk {
    /// Opens the file at this path for reading and writing, and makes one without bytes where there is none.
    ///
    /// Its name is made to stand in its folder, and what the system holds of its content in memory is dropped. It is
    /// [`io::ErrorKind::WouldBlock`] where another disk has the file.
    pub fn open<R: Files<File = fs::File> + Alloc>(rt: &R, path: &str) -> io::Result<FileDisk> {
        let file = locked(rt, path)?;
        let mut folder = fs::canonicalize(rt, path)?;
        folder.pop();
        fs::File::open(rt, folder.as_str())?.sync_all()?;
        forget_copies(&file)?;
        Ok(FileDisk {
            file,
            has_lost: false,
            failures: FaultCount::new(),
        })
    }
}

/// Opens or makes the file, and locks it.
fn locked<R: Files<File = fs::File>>(rt: &R, path: &str) -> io::Result<fs::File> {
    let mut file = OpenOptions::new()
        .read(true)
        .write(true)
        .create(true)
        .open(rt, path)?;
    // What is meant for a standard stream that was closed must not land among the records.
    if file.as_raw_fd() <= 2 {
        file = file.try_clone()?;
    }
    file.try_lock()?;
    Ok(file)
}

/// Syncs the file, and drops the copies of its bytes that the system holds in memory.
fn forget_copies(file: &fs::File) -> io::Result<()> {
    file.sync_all()?;
    let advised = libc::posix_fadvise(file.as_raw_fd(), 0, 0, libc::POSIX_FADV_DONTNEED);
    if advised != 0 {
        return Err(io::Error::from_raw_os_error(advised));
    }
    Ok(())
}

/// Counts a failure of the system's call.
fn counted<T: Drop>(failures: &mut FaultCount, done: io::Result<T>) -> Result<T, DiskFailed>
    ensures { CountsFailure result failures.old.count failures.new.count }
{
    match done {
        Ok(given) => Ok(given),
        Err(_) => {
            failures.rise();
            Err(DiskFailed)
        }
    }
}

fn length_of(file: &fs::File) -> io::Result<usize> {
    Ok(file.metadata()?.len() as usize)
}

/// Writes the bytes from a place on that is no further than the end. A file that ends before it was cut by somebody else, who does
/// not ask for the lock: then nothing is written, and the call fails.
fn write_within(file: &fs::File, bytes: &[u8], at: usize) -> io::Result<()> {
    if length_of(file)? < at {
        return Err(io::ErrorKind::UnexpectedEof.into());
    }
    file.write_all_at(bytes, at as u64)
}

impl Disk for FileDisk {
    ghost tells = { false };

    ghost failures = { λ d. d.failures.count };

    ghost content = { λ _. [] };

    ghost may_leave = { λ _ _. ⊤ };

    ghost moment = { λ _. 0 };

    ghost left_since = { λ _ _ _. ⊤ };

    fn len(&mut self) -> Result<usize, DiskFailed> {
        counted(&mut self.failures, length_of(&self.file))
    }

    fn read_at(&mut self, at: usize, into: &mut [u8]) -> Result<(), DiskFailed> {
        let read = self.file.read_exact_at(into, at as u64);
        counted(&mut self.failures, read)
    }

    fn write_at(&mut self, at: usize, bytes: &[u8]) -> Result<(), DiskFailed> {
        if at >= LIMIT || bytes.len() >= LIMIT - at {
            self.failures.rise();
            return Err(DiskFailed);
        }
        counted(&mut self.failures, write_within(&self.file, bytes, at))
    }

    fn sync(&mut self) -> Result<(), DiskFailed> {
        if self.has_lost {
            self.failures.rise();
            return Err(DiskFailed);
        }
        let synced = counted(&mut self.failures, self.file.sync_data());
        self.has_lost = synced.is_err();
        synced
    }

    ghost content_may_stay = { λ _ _. tt };

    ghost counts_now = { λ _ _ _ _ _. tt };

    ghost only_now = { λ _ _ _. tt };
}
