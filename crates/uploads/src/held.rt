//! Uploads that are held, so that nobody has to look again whether their bytes are those of one.

ghost use Rattle.std.specs.Prelude.{◌≡◌, IfSome};

use crate::upload::Upload;

/// Uploads that somebody holds: each was looked at once, when it was made or decoded.
pub trait HeldUploads {
    /// The upload of which these bytes are the encoding, if it is one of those. `None` says nothing of the bytes: they are
    /// looked at then.
    fn find(&self, text: &[u8]) -> Option<&Upload>
        ensures { IfSome result (λ upload. upload.now ≡ text.now) };
}

/// No uploads at all.
#[derive(Clone, Copy, Debug)]
pub struct NoUploads;

impl HeldUploads for NoUploads {
    fn find(&self, _text: &[u8]) -> Option<&Upload> {
        None
    }
}

/// The one upload.
impl HeldUploads for Upload {
    fn find(&self, text: &[u8]) -> Option<&Upload> {
        if self.as_slice() == text {
            Some(self)
        } else {
            None
        }
    }
}
