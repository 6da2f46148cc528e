//! Faults that are reported.

ghost use Rattle.std.specs.Prelude.{◌≡◌, ◌↔◌, IsTrue, OnOk};
ghost use Rattle.std.specs.Io.KnownBytes.{Keeps};
ghost use Rattle.client_command.specs.Faults.{IsOpen, status_of};

use crate::fault::CommandFault;
use crate::status::SUCCESS;
use crate::writing::tell_repeat;
use std::alloc::Global;
use std::io::Write;

/// The exit status of a word that was done, or not; a fault's line goes to `err`. Where that can't be written, the
/// status alone tells.
pub(crate) fn report<E: Write>(done: Result<(), CommandFault>, err: &mut E) -> u8
    ensures status { result ≡ status_of done }
    ensures silent { OnOk done (Keeps (E.contents err.old) (E.contents err.new)) }
{
    match done {
        Ok(()) => SUCCESS,
        Err(fault) => {
            let status = fault.status();
            // Where this fails too, the status alone tells.
            let _ = writeln!(err, "flightd: {fault}");
            let _ = err.flush();
            status
        }
    }
}

/// Whether the upload of a put that ended so may have been taken though no line tells it.
fn is_open(done: &Result<(), CommandFault>) -> bool
    ensures { IsTrue result ↔ IsOpen done.now }
{
    match done {
        Ok(()) => false,
        Err(fault) => fault.may_be_taken(),
    }
}

/// The exit status of a put of the upload of this id, whose fault is reported as [`report`] does. Where the upload may
/// have been taken, a second line says by which name it is put again.
pub(crate) fn report_put<E: Write>(
    alloc: Global,
    id: [u8; 16],
    done: Result<(), CommandFault>,
    err: &mut E,
) -> u8
    ensures status { result ≡ status_of done }
    ensures silent { OnOk done (Keeps (E.contents err.old) (E.contents err.new)) }
{
    let is_open = is_open(&done);
    let status = report(done, err);
    if is_open {
        // Where this fails, the status and the line before tell.
        let _ = tell_repeat(alloc, err, id);
    }
    status
}
