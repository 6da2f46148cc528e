//! What a service tells of all its tables.

ghost use Rattle.std.specs.Prelude.{◌≡◌, ℕ, List, IfOk, IfErr};
ghost use Rattle.grpc_frames.specs.FrameFaults.{WhereKnown};
ghost use Rattle.call_protocol.specs.declared.call_fault.CallFault.TheVariants.{OutOfMemory};
ghost use Rattle.client_calls.specs.declared.client_fault.ClientFault.TheVariants.{Call};
ghost use Rattle.client_calls.specs.declared.listing.Listing.TheVariants.{Told};
ghost use Rattle.client_calls.specs.Answers.{Receives, Requests};
ghost use Rattle.client_calls.specs.Requests.{list_request};
ghost use Rattle.client_calls.specs.Results.{GivesInfos, HasInfos};
ghost use Rattle.client_calls.specs.Parts.{AddsInfo, IsListed, ListsAll, ListsMore, listing_without};

use crate::client_fault::ClientFault;
use crate::parts::{AnswerPart, MAX_ANSWER_FRAMES, next_part};
use crate::requesting::send_list_request;
use call_protocol::CallFault;
use grpc_frames::laws::no_frame_begins_another;
use proto_fields::WireFault;
use proto_messages::ProtoMessage;
use proto_wire::FlightInfo;
use std::alloc::Global;
use std::io::{Read, Write};

/// What is kept of the messages that came.
#[derive(Debug, Drop)]
enum Listing {
    /// They tell of these tables.
    Told(Vec<FlightInfo>),
    /// One of them tells of no table.
    Spoiled,
}

/// The tables with one more.
fn with_info(infos: Vec<FlightInfo>, info: FlightInfo) -> Result<Listing, ClientFault>
    ensures more { IfOk result (AddsInfo infos info) }
    ensures fault { IfErr result (λ fault. fault ≡ Call OutOfMemory) }
{
    let mut infos = infos;
    match infos.push(info) {
        Ok(()) => Ok(Listing::Told(infos)),
        Err(_) => Err(ClientFault::Call(CallFault::OutOfMemory)),
    }
}

/// What is left where a message could not be read: memory was refused, or else the message tells of no table.
fn without_info(fault: WireFault) -> Result<Listing, ClientFault>
    ensures left { result ≡ listing_without fault }
    ensures fault { IfErr result (λ fault. fault ≡ Call OutOfMemory) }
{
    match fault {
        WireFault::OutOfMemory => Err(ClientFault::Call(CallFault::OutOfMemory)),
        WireFault::BadVarint
        | WireFault::BadKey
        | WireFault::BadWireType
        | WireFault::CutShort
        | WireFault::NotUtf8 => Ok(Listing::Spoiled),
    }
}

/// The tables with that of one message more.
fn with_message(
    alloc: Global,
    infos: Vec<FlightInfo>,
    message: &[u8],
) -> Result<Listing, ClientFault>
    ensures listed { (messages : List (List ℕ)) → IsListed (Told infos) messages
        → ListsMore messages message.now result }
    ensures fault { IfErr result (λ fault. fault ≡ Call OutOfMemory) }
{
    match FlightInfo::decode(alloc, message) {
        Ok(info) => with_info(infos, info),
        Err(fault) => without_info(fault),
    }
}

impl Listing {
    /// With one message more.
    fn take(self, alloc: Global, message: &[u8]) -> Result<Listing, ClientFault>
        ensures listed { (messages : List (List ℕ)) → IsListed self messages
            → ListsMore messages message.now result }
        ensures fault { IfErr result (λ fault. fault ≡ Call OutOfMemory) }
    {
        match self {
            Listing::Told(infos) => with_message(alloc, infos, message),
            Listing::Spoiled => Ok(Listing::Spoiled),
        }
    }

    /// The tables of all messages.
    fn all(self) -> Result<Vec<FlightInfo>, ClientFault>
        ensures { ListsAll self result }
    {
        match self {
            Listing::Told(infos) => Ok(infos),
            Listing::Spoiled => Err(ClientFault::BadAnswer),
        }
    }
}

/// Reads an answer that tells of all tables.
fn read_infos<R: Read>(alloc: Global, r: &mut R) -> Result<Vec<FlightInfo>, ClientFault>
    ensures { WhereKnown (R.remaining r.old) (R.remaining r.new) (Receives GivesInfos HasInfos result) }
{
    no_frame_begins_another();
    let mut listing = Listing::Told(Vec::new(alloc));
    for _count in 0..MAX_ANSWER_FRAMES {
        match next_part(alloc, r)? {
            AnswerPart::Message(message) => listing = listing.take(alloc, &message)?,
            AnswerPart::End => return listing.all(),
        }
    }
    Err(ClientFault::BadAnswer)
}

/// Asks what the service tells of each of its tables (Apache Arrow, "Flight.proto", `ListFlights`): writes the request, with
/// criteria that all tables meet, and reads the answer.
///
/// The answer is a message for each table, each of which means a `FlightInfo`, in any encoding, and the trailer of a call that was
/// answered. The infos are given in the order of the messages.
///
/// - [`ClientFault::Status`]: the service refused the call, with this status and this text, whatever messages came before.
/// - [`ClientFault::BadAnswer`]: what came is neither such an answer nor a refusal, within [`MAX_ANSWER_FRAMES`] frames.
/// - [`ClientFault::Call`]: a read or a write failed, or memory was refused.
///
/// Nothing behind the trailer is read. Once a message is none of an answer, what came before it is let go, and further messages
/// are read for the trailer alone.
pub fn call_list<R: Read, W: Write>(
    alloc: Global,
    r: &mut R,
    w: &mut W,
) -> Result<Vec<FlightInfo>, ClientFault>
    // What has gone out is the request, or a beginning of it where it could not be written.
    ensures sent { WhereKnown (W.contents w.old) (W.contents w.new) (Requests result list_request) }
    // What was told, and what is left of the input behind it.
    ensures told { WhereKnown (R.remaining r.old) (R.remaining r.new) (Receives GivesInfos HasInfos result) }
{
    if let Err(fault) = send_list_request(alloc, w) {
        return Err(ClientFault::Call(fault));
    }
    read_infos(alloc, r)
}
