//! The frames of an upload.

ghost use Rattle.std.specs.Prelude.{◌≡◌};

use bytes::Bytes;
use std::marker::Model;

/// The frames that are served of an upload, each by itself. Contracts see their list, and not how much memory holds it.
#[derive(Debug, Drop)]
pub(crate) struct UploadFrames {
    frames: Vec<Bytes>,
}

impl Model for UploadFrames {
    ghost use Rattle.std.specs.Prelude.{ℕ, List};

    ghost Value = { List (List ℕ) };

    ghost view = { λ u. u.frames.items };
}

impl UploadFrames {
    /// These frames.
    pub(crate) fn new(frames: Vec<Bytes>) -> UploadFrames
        ensures { result ≡ frames.items }
    {
        UploadFrames { frames }
    }

    /// The frames.
    pub(crate) fn as_slice(&self) -> &[Bytes]
        ensures { result.now ≡ self.now }
    {
        self.frames.as_slice()
    }
}
