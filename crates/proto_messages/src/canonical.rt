//! Messages that are told apart from every other encoding of what they hold.

ghost use Rattle.std.specs.Prelude.{◌≡◌, ◌↔◌, IsTrue};
ghost use Rattle.std.specs.Option.{option_copied};
ghost use Rattle.proto_messages.specs.Canonical.{canonical};
ghost use Rattle.proto_messages.specs.Stripping.{Strips};

use crate::message::ProtoMessage;

/// A message that tells whether bytes are its one canonical encoding. Whoever takes its fields off the front of bytes
/// one by one, each with a call of one of this crate's functions, has [`CanonicalMessage::is_encoded_as`].
pub trait CanonicalMessage: ProtoMessage {
    /// What follows its canonical encoding, or `None` where the bytes do not begin with it. It takes no memory.
    fn strip<'a>(&self, bytes: &'a [u8]) -> Option<&'a [u8]>
        ensures { Strips (canonical Self.descriptor (Self.values self.now)) bytes.now (option_copied result) };

    /// Whether the bytes are its canonical encoding, as [`ProtoMessage::encode`] writes it: the message that
    /// [`ProtoMessage::decode`] gave may be encoded otherwise. It takes no memory.
    final fn is_encoded_as(&self, bytes: &[u8]) -> bool
    where
        Self: Sized,
        ensures { IsTrue result ↔ (bytes.now ≡ canonical Self.descriptor (Self.values self.now)) }
    {
        is_whole::<Self>(self, bytes)
    }
}

/// Whether nothing follows the canonical encoding.
fn is_whole<M: CanonicalMessage>(message: &M, bytes: &[u8]) -> bool
    ensures { IsTrue result ↔ (bytes.now ≡ canonical M.descriptor (M.values message.now)) }
{
    match message.strip(bytes) {
        Some(rest) => rest.is_empty(),
        None => false,
    }
}
