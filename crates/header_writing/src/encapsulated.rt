//! Messages between others (Apache Arrow, "Columnar format", "Encapsulated message format").

ghost use Rattle.std.specs.Prelude.{◌≡◌, ◌<◌, ◌^◌, ◌++◌, length, OnOk, OnErr};
ghost use Rattle.header_writing.specs.Canonical.{encapsulated};

use crate::layout::put_word;
use std::alloc::AllocError;

/// What stands before the length of a message.
const CONTINUATION: [u8; 4] = [255, 255, 255, 255];

/// Appends a message behind four bytes 255 and its length in four bytes, the lowest first (Apache Arrow, "Columnar
/// format", "Encapsulated message format").
///
/// The message has less than 2,147,483,648 bytes, as its length is a signed number of 32 bits there; what
/// [`crate::write_schema`] and [`crate::write_batch`] write has. [`AllocError`] says that memory was refused, and the
/// vector then holds what it did before the call.
pub fn encapsulate(message: &[u8], out: &mut Vec<u8>) -> Result<(), AllocError>
    requires small { length message.now < 2 ^ 31 }
    ensures written { OnOk result (out.new.items ≡ out.old.items ++ encapsulated message.now) }
    ensures refused { OnErr result (out.new.items ≡ out.old.items) }
{
    let mut text = Vec::new(*out.allocator());
    text.extend_from_slice(&CONTINUATION)?;
    put_word(&mut text, message.len())?;
    text.extend_from_slice(message)?;
    out.extend_from_slice(&text)
}
