//! Numbered fields (Protocol Buffers, "Encoding"), read from bytes that nobody has checked and written in one encoding
//! each.
//!
//! What bytes encode is defined in `specs/`, apart from how they are read: `Varint` for numbers, `Field` for fields and
//! lists of fields, `Meaning` for what the fields of one number mean together, and `Scalar` for what one field holds as
//! a value of its type. A call that reads is `Ok` exactly where such bytes stand, memory apart, and a fault is told
//! only where it stands. A call that writes appends exactly the one canonical encoding; those named `write_..` leave
//! their vector as it was where memory is refused.
//!
//! Messages of such fields, each with its own descriptor, are those of `proto_messages`.
#![tactic(auto)]

mod fault;
mod field;
pub mod laws;
mod lookup;
mod scalar;
mod varint;
mod writing;

pub use fault::WireFault;
pub use field::{Content, ContentRef, MAX_FIELD_NUMBER, read_fields, split_field};
pub use lookup::{bytes_after, bytes_at, number_at, shared_bytes_at};
pub use scalar::{
    bool_of, bytes_of, check_bytes, check_number, check_string, enum_of, int64_of, string_of,
    uint64_of,
};
pub use varint::{MAX_VARINT_BYTES, split_varint};
pub use writing::{
    append_number, write_bytes, write_nonempty_bytes, write_nonzero_varint, write_varint,
};
