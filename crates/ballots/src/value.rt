ghost use Rattle.std.specs.Prelude.{◌≡◌, ◌==◌, ℕ, List, ◌↔◌, IsSome, IfSome, IfOk};
ghost use lib.Pointwise.{pointwise};
ghost use Rattle.std.specs.Cmp.Rules.{comparing};
ghost use Rattle.std.proofs.Common.{rules};
ghost use Rattle.ballots.specs.Value.{IsUploadBytes};

use bytes::Bytes;
use std::alloc::AllocError;
use std::marker::Model;

/// The error of a call that fails only where memory is refused.
pub type OutOfMemory = AllocError;

/// The most bytes of an upload's value.
pub const MAX_UPLOAD_BYTES: usize = 16_777_216;

/// The bytes of an upload's value, 1 to [`MAX_UPLOAD_BYTES`]. What they say is not looked at here. A clone shares them:
/// it copies no byte, and takes no memory but what a further owner of a [`Bytes`] may take.
#[derive(Debug, Drop)]
pub struct UploadBytes {
    bytes: Bytes,
}

impl Model for UploadBytes {
    ghost Value = { List ℕ };

    ghost view = { λ u. u.bytes };

    ghost invariant = { λ u. IsUploadBytes u.bytes };
}

impl UploadBytes {
    /// These bytes, `None` for none or for more than [`MAX_UPLOAD_BYTES`]. Who has a `Vec` makes it a [`Bytes`] first,
    /// by `Bytes::from_vec`, which copies no byte.
    pub fn new(bytes: Bytes) -> Option<UploadBytes>
        ensures within { IsSome result ↔ IsUploadBytes bytes }
        ensures value { IfSome result (λ upload. upload ≡ bytes) }
    {
        if bytes.is_empty() || bytes.len() > MAX_UPLOAD_BYTES {
            return None;
        }
        Some(UploadBytes { bytes })
    }

    /// The bytes.
    pub fn as_slice(&self) -> &[u8]
        ensures value { result.now ≡ self.now }
        ensures within { IsUploadBytes self.now }
    {
        self.bytes.as_slice()
    }

    /// The bytes, as they are shared: a clone of them copies no byte.
    pub fn as_bytes(&self) -> &Bytes
        ensures value { result.now ≡ self.now }
        ensures within { IsUploadBytes self.now }
    {
        &self.bytes
    }

    /// Gives the bytes up, and copies none.
    pub fn into_bytes(self) -> Bytes
        ensures value { result ≡ self }
        ensures within { IsUploadBytes self }
    {
        self.bytes
    }
}

impl Clone for UploadBytes {
    ghost is_clone = { λ old new. new ≡ old };

    fn clone(&self) -> Result<UploadBytes, AllocError>
        ensures { IfOk result (λ new. new ≡ self.now) }
    {
        Ok(UploadBytes {
            bytes: self.bytes.clone()?,
        })
    }
}

impl PartialEq for UploadBytes {
    ghost eq = { pointwise ◌==◌ };

    ghost laws = { Prim.search (comparing, rules) };

    fn eq(&self, other: &UploadBytes) -> bool {
        self.bytes == other.bytes
    }
}

impl Eq for UploadBytes {
    ghost laws = { Prim.search (comparing, rules) };
}

/// What is decided for a slot.
#[derive(Clone, Debug, PartialEq, Eq, Drop)]
pub enum Value {
    /// Nothing is uploaded.
    Noop,
    /// An upload.
    Upload(UploadBytes),
}
