//! Messages of numbered fields (Protocol Buffers, "Encoding"), read from bytes that nobody has checked and written in
//! one encoding each.
//!
//! What fields mean as a message is defined in `specs/Descriptor`, apart from how they are read: one definition for all
//! messages, each of which is the list of its fields. A call that reads is `Ok` exactly where such bytes stand, memory
//! apart, and a fault is told only where it stands. A call that writes appends exactly the one canonical encoding, and
//! [`ProtoMessage::encode`] leaves its vector as it was where memory is refused. Fields themselves, and what each holds
//! as a value of its type, are those of `proto_fields`.
//!
//! A message of a caller's own is a struct with an `impl` of [`ProtoMessage`]: its fields as a descriptor, and a line a
//! field in `check_field`, `take` and `append`, each of them a call of one of the functions below or of
//! `proto_fields`. It then has `decode` and `encode`. Proofs of such an `impl` need nothing but these contracts and the
//! lemmas of `proofs/CallerLemmas`, where `#[tactic(auto, using(proto_messages::proofs::CallerLemmas::chains))]` stands
//! on `append`.
//!
//! Whoever has to tell the one encoding from the others adds an `impl` of [`CanonicalMessage`]: beside each line of
//! `append` one of `strip`, under `#[tactic(auto, using(proto_messages::proofs::CallerLemmas::strips))]`. The message
//! then has `is_encoded_as`, which takes no memory.
#![tactic(auto)]

mod appending;
mod canonical;
pub mod laws;
mod length_prefix;
mod message;
mod repeated;
mod stripping;

pub use appending::{
    append_bool, append_bytes, append_enum, append_int64, append_lent, append_messages, append_one,
    append_string, append_strings, append_uint64,
};
pub use canonical::CanonicalMessage;
pub use message::ProtoMessage;
pub use repeated::{check_embedded, merge_one, push_message, push_string};
pub use stripping::{
    strip_bool, strip_bytes, strip_enum, strip_int64, strip_messages, strip_one, strip_string,
    strip_strings, strip_uint64,
};
