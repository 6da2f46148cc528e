//! Frames with messages of Arrow Flight (Apache Arrow, "Flight.proto", `FlightData`; gRPC, "gRPC over HTTP2",
//! "Length-Prefixed-Message").

ghost use Rattle.std.specs.Prelude.{◌≡◌, ◌≤◌, ◌++◌, length, IfOk, OnOk};
ghost use Rattle.grpc_frames.specs.Frame.{header_text, payload_limit};
ghost use Rattle.table_types.specs.Served.{in_frame, data_text};
ghost use Rattle.table_types.specs.Valid.{FitsFrame};

use ballots::OutOfMemory;
use bytes::Bytes;
use grpc_frames::MESSAGE_FLAG;
use proto_wire::FlightDataRef;
use std::alloc::{AllocError, Global};
use uploads::message_length;

/// How many bytes stand before the message of a frame.
const PREFIX_BYTES: usize = 5;

/// How many bytes the message has with this header, what the service adds, and this body.
fn data_length(header: &[u8], metadata: &[u8], body: &[u8]) -> usize
    requires { FitsFrame (data_text header.now metadata.now body.now) }
    ensures { result ≡ length (data_text header.now metadata.now body.now) }
{
    message_length(
        header.len() as u64,
        metadata.len() as u64,
        body.len() as u64,
    ) as usize
}

/// The beginning of a frame with a message of so many bytes, and room for the message.
fn begun(alloc: Global, length: usize) -> Result<Vec<u8>, OutOfMemory>
    requires { length ≤ payload_limit }
    ensures { IfOk result (λ frame. frame.items ≡ header_text 0 length) }
{
    let mut frame = Vec::with_capacity(alloc, PREFIX_BYTES + length)?;
    let [a, b, c, d] = (length as u32).to_be_bytes();
    frame.extend_from_slice(&[MESSAGE_FLAG, a, b, c, d])?;
    Ok(frame)
}

/// Appends the message with this header, what the service adds, and this body.
fn append_message<'a>(
    frame: &mut Vec<u8>,
    header: &'a [u8],
    metadata: &'a [u8],
    body: &'a [u8],
) -> Result<(), OutOfMemory>
    ensures { OnOk result (frame.new.items ≡ frame.old.items ++ data_text header.now metadata.now body.now) }
{
    let lent = FlightDataRef {
        flight_descriptor: None,
        data_header: header,
        app_metadata: metadata,
        data_body: body,
    };
    match lent.encode(frame) {
        Ok(()) => Ok(()),
        Err(_) => Err(AllocError),
    }
}

/// The frame of the message with this header, what the service adds, and this body. Each byte is written once, into a
/// vector of the frame's length.
pub(crate) fn data_frame(
    alloc: Global,
    header: &[u8],
    metadata: &[u8],
    body: &[u8],
) -> Result<Bytes, OutOfMemory>
    requires { FitsFrame (data_text header.now metadata.now body.now) }
    ensures { IfOk result (λ frame. frame ≡ in_frame (data_text header.now metadata.now body.now)) }
{
    let length = data_length(header, metadata, body);
    let mut frame = begun(alloc, length)?;
    append_message(&mut frame, header, metadata, body)?;
    Ok(Bytes::from_vec(frame)?)
}
