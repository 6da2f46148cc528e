//! How long what is written will be, told before anything is written. No memory is taken.

ghost use Rattle.std.specs.Prelude.{◌≡◌, ◌<◌, ◌+◌, ◌*◌, ◌^◌, ◌≤◌, ◌↔◌, ℕ, List, [], ◌∷◌, suc, length, IsTrue};
ghost use Rattle.proto_fields.specs.Varint.{varint_text, digits};
ghost use Rattle.proto_fields.specs.Field.{field_text, fields_text, present};
ghost use Rattle.proto_messages.specs.Canonical.{bytes_field};
ghost use Rattle.table_types.specs.Served.{data_text};
ghost use Rattle.table_types.specs.Valid.{FitsFrame};

use grpc_frames::MAX_FRAME_PAYLOAD;
use proto_wire::FlightData;

/// The most bytes of a frame's payload.
const FRAME_LIMIT: u64 = MAX_FRAME_PAYLOAD as u64;

/// How many bytes the shortest varint of a number has (Protocol Buffers, "Base 128 Varints").
fn varint_length(number: u64) -> u64
    ensures { (more : ℕ) → number < 128 ^ suc more → result ≡ length (digits (suc more) number) }
{
    if number < 128 {
        return 1;
    }
    1 + varint_length(number / 128)
}

/// How many bytes a field has that holds so many bytes, with its key and its length, and 0 for none, which are not
/// written (Protocol Buffers, "Encoding").
pub fn field_length(number: u32, count: u64) -> u64
    requires { count < 2 ^ 62 }
    ensures long { (bytes : List ℕ) → length bytes ≡ count
        → result ≡ length (fields_text (present (bytes_field number bytes ∷ []))) }
    ensures few { result ≤ count + 20 }
{
    if count == 0 {
        0
    } else {
        part_length(number, count)
    }
}

/// How many bytes an embedded message of so many bytes has, with its key and its length.
pub fn part_length(number: u32, count: u64) -> u64
    requires { count < 2 ^ 62 }
    ensures long { (bytes : List ℕ) → length bytes ≡ count → result ≡ length (field_text (bytes_field number bytes)) }
    ensures few { result ≤ count + 20 }
{
    varint_length(8 * u64::from(number) + 2) + varint_length(count) + count
}

/// How many bytes the message of Arrow Flight has that holds a header, what the service adds and a body of so many bytes
/// (Apache Arrow, "Flight.proto", `FlightData`).
pub fn message_length(header: u64, metadata: u64, body: u64) -> u64
    requires header_small { header < 2 ^ 62 }
    requires metadata_small { metadata < 2 ^ 62 }
    requires body_small { body < 2 ^ 62 }
    ensures { (h m b : List ℕ) → length h ≡ header → length m ≡ metadata → length b ≡ body
        → result ≡ length (data_text h m b) }
{
    field_length(FlightData::DATA_HEADER_FIELD, header)
        + field_length(FlightData::APP_METADATA_FIELD, metadata)
        + field_length(FlightData::DATA_BODY_FIELD, body)
}

/// Whether a frame has room for the message that holds a header, what the service adds and a body of so many bytes.
pub fn fits_frame(header: u64, metadata: u64, body: u64) -> bool
    ensures { (h m b : List ℕ) → length h ≡ header → length m ≡ metadata → length b ≡ body
        → IsTrue result ↔ FitsFrame (data_text h m b) }
{
    header <= FRAME_LIMIT
        && metadata <= FRAME_LIMIT
        && body <= FRAME_LIMIT
        && message_length(header, metadata, body) <= FRAME_LIMIT
}
