//! The mark of a file.

ghost use Rattle.std.specs.Prelude.{◌≤◌, ◌↔◌, IsTrue};

/// By what the beginning of a file is known again: how many bytes it had, and a digest of the first and the last of
/// them. A beginning that has other bytes only between these has the same mark.
#[derive(Clone, Copy, Debug, PartialEq, Eq)]
pub struct FileMark {
    /// How many bytes were marked.
    pub length: u64,
    /// The SHA-256 digest (FIPS 180-4, section 6.2) of the first of these bytes and then the last, as
    /// [`digested_parts`](crate::digested_parts) names them.
    pub digest: [u8; 32],
}

impl FileMark {
    /// Whether a file of this length, in bytes, has as many bytes as were marked. One that has fewer was cut.
    pub fn is_reached_by(self, length: u64) -> bool
        ensures { IsTrue result ↔ (self.length ≤ length) }
    {
        self.length <= length
    }
}
