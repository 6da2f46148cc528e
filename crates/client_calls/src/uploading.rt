//! The request with an upload.

ghost use Rattle.std.specs.Prelude.{◌≡◌, [], map, Some, IfOk};
ghost use Rattle.grpc_frames.specs.FrameFaults.{WhereKnown};
ghost use Rattle.proto_messages.specs.Canonical.{canonical};
ghost use Rattle.proto_wire.specs.Flight.{data_descriptor};
ghost use Rattle.proto_wire.specs.FlightValues.{data_ref_values, descriptor_values};
ghost use Rattle.table_types.specs.Served.{in_frame, data_text};
ghost use Rattle.table_types.specs.Uploads.{Upload as Uploaded, upload_text};
ghost use Rattle.table_types.specs.Valid.{IsUpload};
ghost use Rattle.call_protocol.specs.declared.method.Method.TheVariants.{DoPut};
ghost use Rattle.call_protocol.specs.Methods.{path_text};
ghost use Rattle.call_protocol.specs.Texts.{messages_text};
ghost use Rattle.client_calls.specs.Requests.{opening_message, further_message, put_messages, put_request};
ghost use Rattle.client_calls.specs.Sending.{Sends, IsText};

use crate::sending::{path_of, send_end, send_message};
use call_protocol::{CallFault, Method, upload_descriptor};
use proto_wire::{FlightDataRef, FlightDescriptor};
use std::alloc::{AllocError, Global};
use std::io::Write;
use table_types::laws::uploads_have_one_encoding;
use uploads::Upload;

/// The most bytes that the keys and lengths of a header and a body have.
const MAX_KEY_BYTES: usize = 20;

/// The message that holds this.
fn message_of(alloc: Global, lent: FlightDataRef<'_>) -> Result<Vec<u8>, AllocError>
    ensures { IfOk result (λ message. message.items ≡ canonical data_descriptor (data_ref_values lent.entry)) }
{
    let room = lent
        .data_header
        .len()
        .saturating_add(lent.data_body.len())
        .saturating_add(MAX_KEY_BYTES);
    let mut message = Vec::with_capacity(alloc, room)?;
    match lent.encode(&mut message) {
        Ok(()) => Ok(message),
        Err(_) => Err(AllocError),
    }
}

/// The message with this descriptor and this header.
fn described_message<'a>(
    alloc: Global,
    descriptor: &'a FlightDescriptor,
    header: &'a [u8],
) -> Result<Vec<u8>, AllocError>
    ensures { IfOk result (λ message. message.items
        ≡ canonical data_descriptor (Some (descriptor_values descriptor.now), (header.now, ([], ([], tt))))) }
{
    let descriptor = Some(descriptor);
    let lent = FlightDataRef {
        flight_descriptor: descriptor,
        data_header: header,
        app_metadata: &[],
        data_body: &[],
    };
    message_of(alloc, lent)
}

/// The message with this header and this body.
fn batch_message<'a>(alloc: Global, header: &'a [u8], body: &'a [u8]) -> Result<Vec<u8>, AllocError>
    ensures { IfOk result (λ message. message.items ≡ data_text header.now [] body.now) }
{
    let lent = FlightDataRef {
        flight_descriptor: None,
        data_header: header,
        app_metadata: &[],
        data_body: body,
    };
    message_of(alloc, lent)
}

/// The first message of an upload.
fn opening_of(alloc: Global, upload: &Upload) -> Result<Vec<u8>, CallFault>
    ensures { (u : Uploaded) → IsUpload u → upload_text u ≡ upload.now → IsText (opening_message u) result }
{
    let descriptor = upload_descriptor(alloc, upload.table(), upload.id())?;
    let message = described_message(alloc, &descriptor, upload.schema_bytes())?;
    Ok(message)
}

/// Writes the first message of an upload.
fn send_opening<W: Write>(alloc: Global, w: &mut W, upload: &Upload) -> Result<(), CallFault>
    ensures { (u : Uploaded) → IsUpload u → upload_text u ≡ upload.now
        → WhereKnown (W.contents w.old) (W.contents w.new) (Sends result (in_frame (opening_message u))) }
{
    let message = opening_of(alloc, upload)?;
    send_message(w, &message)
}

/// Writes the message of a batch.
fn send_batch<W: Write>(
    alloc: Global,
    w: &mut W,
    header: &[u8],
    body: &[u8],
) -> Result<(), CallFault>
    ensures { WhereKnown (W.contents w.old) (W.contents w.new)
        (Sends result (in_frame (data_text header.now [] body.now))) }
{
    let Ok(message) = batch_message(alloc, header, body) else {
        return Err(CallFault::OutOfMemory);
    };
    send_message(w, &message)
}

/// Writes the messages of an upload's batches.
fn send_batches<W: Write>(alloc: Global, w: &mut W, upload: &Upload) -> Result<(), CallFault>
    ensures { (u : Uploaded) → IsUpload u → upload_text u ≡ upload.now
        → WhereKnown (W.contents w.old) (W.contents w.new)
        (Sends result (messages_text (map (further_message u.schema) u.batches))) }
{
    uploads_have_one_encoding();
    let mut batches = upload.encoded_batches();
    while let Some((header, body)) = batches.next() {
        send_batch(alloc, w, header, body)?;
    }
    Ok(())
}

/// Writes the messages of an upload.
fn send_upload<W: Write>(alloc: Global, w: &mut W, upload: &Upload) -> Result<(), CallFault>
    ensures { (u : Uploaded) → IsUpload u → upload_text u ≡ upload.now
        → WhereKnown (W.contents w.old) (W.contents w.new) (Sends result (messages_text (put_messages u))) }
{
    send_opening(alloc, w, upload)?;
    send_batches(alloc, w, upload)
}

/// Writes the request's path.
fn send_path<W: Write>(alloc: Global, w: &mut W) -> Result<(), CallFault>
    ensures { WhereKnown (W.contents w.old) (W.contents w.new) (Sends result (in_frame (path_text DoPut))) }
{
    let path = path_of(alloc, Method::DoPut)?;
    send_message(w, &path)
}

/// Writes the request with an upload, message by message.
pub(crate) fn send_put_request<W: Write>(
    alloc: Global,
    w: &mut W,
    upload: &Upload,
) -> Result<(), CallFault>
    ensures { (u : Uploaded) → IsUpload u → upload_text u ≡ upload.now
        → WhereKnown (W.contents w.old) (W.contents w.new) (Sends result (put_request u)) }
{
    send_path(alloc, w)?;
    send_upload(alloc, w, upload)?;
    send_end(w)
}
