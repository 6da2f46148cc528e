//! What goes out for a call before its trailer.

use table_versions::Answer;

/// The frames that go out for a call before its trailer.
#[derive(Drop)]
pub(crate) enum Outgoing {
    /// Frames that were made for this call, one behind the other.
    Made(Vec<u8>),
    /// The frames of a version, which the tables hold too.
    Shared(Answer),
}
