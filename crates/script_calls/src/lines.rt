//! The line of each call: its number, and what was told.

ghost use Rattle.std.specs.Prelude.{◌≡◌, IfOk, string_bytes};
ghost use Rattle.script_calls.specs.Lines.{frames_line, line_of};

use crate::told::Told;
use std::alloc::{AllocError, Global};

/// The line of frames.
fn frames_line(alloc: Global, number: usize, frames: &[u8]) -> Result<String, AllocError>
    ensures { IfOk result (λ line. string_bytes line ≡ frames_line number frames.now) }
{
    let digits = hex::encode(alloc, frames)?;
    format!(in alloc; "{number} get {digits}\n")
}

impl Told {
    /// The line of the call of this number, with the newline behind it: the number, and `put V`, the version that the upload made;
    /// `get HEX`, the frames in lower-case hexadecimal digits; `info V L`, the latest version of the table and the number of
    /// locations; or `status S TEXT`, the status and the text of a refusal. [`AllocError`] says that memory was refused.
    pub fn line(&self, alloc: Global, number: usize) -> Result<String, AllocError>
        ensures { IfOk result (λ line. string_bytes line ≡ line_of number self.now) }
    {
        match self {
            Told::Put(version) => format!(in alloc; "{number} put {version}\n"),
            Told::Get(frames) => frames_line(alloc, number, frames),
            Told::Info(version, locations) => {
                format!(in alloc; "{number} info {version} {locations}\n")
            }
            Told::Status(status, text) => format!(in alloc; "{number} status {status} {text}\n"),
        }
    }
}
