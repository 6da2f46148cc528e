//! The messages of Arrow Flight over the wire: messages of numbered fields, each a struct, and length-prefixed frames,
//! read from bytes that nobody has checked and written in one encoding each.
//!
//! What bytes encode is defined in `specs/`, apart from how they are read: `Flight` has the nine messages as descriptors,
//! after Apache Arrow's Flight.proto. Frames, gRPC's length-prefixed messages, are `grpc_frames`'. What the fields of
//! a descriptor mean is `proto_messages`' own, and so are [`ProtoMessage::decode`] and [`ProtoMessage::encode`], which
//! all nine have; its public names stand here too, and those of `proto_fields`, which it stands on. A call that reads
//! is `Ok` exactly where the bytes begin with such a frame, or mean such a message, memory and failed reads apart, and
//! a fault is told only where it stands. A call that writes appends exactly the one canonical encoding, and leaves its
//! vector as it was where memory is refused.
#![tactic(auto)]

mod flight;
pub mod laws;

pub use flight::data::{FlightData, FlightDataRef, PutResult};
pub use flight::descriptor::{DescriptorType, FlightDescriptor};
pub use flight::endpoint::{FlightEndpoint, Location, Ticket};
pub use flight::info::{Criteria, FlightInfo, SchemaResult};
pub use grpc_frames::laws::{frames_are_one, no_frame_begins_another};
pub use grpc_frames::{
    END_FLAG, Frame, FrameFault, MAX_FRAME_PAYLOAD, MESSAGE_FLAG, read_frame, write_frame,
};
pub use proto_fields::{
    Content, ContentRef, MAX_FIELD_NUMBER, MAX_VARINT_BYTES, WireFault, bool_of, bytes_of,
    check_bytes, check_number, check_string, enum_of, int64_of, read_fields, split_field,
    string_of, uint64_of, write_bytes, write_nonempty_bytes, write_nonzero_varint, write_varint,
};
pub use proto_messages::{
    CanonicalMessage, ProtoMessage, append_bool, append_bytes, append_enum, append_int64,
    append_lent, append_messages, append_one, append_string, append_strings, append_uint64,
    check_embedded, merge_one, push_message, push_string, strip_bool, strip_bytes, strip_enum,
    strip_int64, strip_messages, strip_one, strip_string, strip_strings, strip_uint64,
};
