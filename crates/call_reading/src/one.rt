//! The calls that have one message: what each asks for.

ghost use Rattle.std.specs.Prelude.{◌≡◌, ◌⊎◌, ℕ, List, string_bytes, IfOk, IfErr, OnOk};
ghost use Rattle.grpc_frames.specs.FrameFaults.{WhereKnown};
ghost use Rattle.proto_messages.specs.Descriptor.{IsMessage};
ghost use Rattle.proto_wire.specs.Flight.{flight_descriptor_descriptor, ticket_descriptor, criteria_descriptor};
ghost use Rattle.table_types.specs.Ticket.{TableVersion};
ghost use Rattle.call_protocol.specs.Names.{TableFault};
ghost use Rattle.call_protocol.specs.declared.refusal.CallRefusal.{CallRefusal as RefusalModel};
ghost use Rattle.call_protocol.specs.declared.refusal.CallRefusal.TheVariants.{OutOfMemory};
ghost use Rattle.call_reading.specs.Requests.{AsksForTable, AsksForAll, AsksForVersion};
ghost use Rattle.call_reading.specs.Faults.{IsNoMessage, MeansAtFault, CriteriaFault, TicketFault};
ghost use Rattle.call_reading.specs.Reading.{ReadsTable, ReadsCriteria, ReadsTicket};

use crate::frames::{first_message, read_end};
use call_protocol::{CallRefusal, table_in};
use proto_messages::ProtoMessage;
use proto_wire::{Criteria, FlightDescriptor, Ticket as TicketMessage};
use std::alloc::Global;
use std::io::Read;
use table_types::{Ticket, TicketFault as BadTicket};

/// The message that these bytes mean.
fn decoded<M: ProtoMessage + Drop>(alloc: Global, message: &[u8]) -> Result<M, CallRefusal>
    ensures read { IfOk result (λ read. IsMessage M.descriptor message.now (M.values read)) }
    ensures fault { IfErr result (IsNoMessage M.descriptor message.now) }
{
    match M::decode(alloc, message) {
        Ok(read) => Ok(read),
        Err(fault) => Err(CallRefusal::Wire(fault)),
    }
}

/// The table that a descriptor names.
fn table_asked(alloc: Global, message: &[u8]) -> Result<String, CallRefusal>
    ensures asks { IfOk result (λ table. AsksForTable message.now (string_bytes table)) }
    ensures fault { IfErr result (λ refusal.
        MeansAtFault flight_descriptor_descriptor TableFault message.now refusal
        ⊎ (((table : List ℕ) × AsksForTable message.now table) × (refusal ≡ OutOfMemory))) }
{
    let descriptor = decoded::<FlightDescriptor>(alloc, message)?;
    let table = table_in(&descriptor)?;
    Ok(String::from_str(alloc, table)?)
}

/// Whether the criteria leave out no flight.
fn check_criteria(alloc: Global, message: &[u8]) -> Result<(), CallRefusal>
    ensures asks { OnOk result (AsksForAll message.now) }
    ensures fault { IfErr result (MeansAtFault criteria_descriptor CriteriaFault message.now) }
{
    let criteria = decoded::<Criteria>(alloc, message)?;
    if criteria.expression.is_empty() {
        Ok(())
    } else {
        Err(CallRefusal::Criteria)
    }
}

/// The version that a ticket asks for.
fn version_asked(alloc: Global, message: &[u8]) -> Result<Ticket, CallRefusal>
    ensures asks { IfOk result (AsksForVersion message.now) }
    ensures fault { IfErr result (λ refusal.
        MeansAtFault ticket_descriptor TicketFault message.now refusal
        ⊎ (((asked : TableVersion) × AsksForVersion message.now asked) × (refusal ≡ OutOfMemory))) }
{
    let asked = decoded::<TicketMessage>(alloc, message)?;
    match Ticket::decode(alloc, &asked.ticket) {
        Ok(ticket) => Ok(ticket),
        Err(BadTicket::BadTicket) => Err(CallRefusal::BadTicket),
        Err(BadTicket::OutOfMemory) => Err(CallRefusal::OutOfMemory),
    }
}

/// The table of a call that asks for one.
pub(crate) fn read_table<R: Read>(alloc: Global, r: &mut R) -> Result<String, CallRefusal>
    ensures { WhereKnown (R.remaining r.old) (R.remaining r.new)
        (ReadsTable result) }
{
    let message = first_message(alloc, r)?;
    let table = table_asked(alloc, &message)?;
    read_end(alloc, r)?;
    Ok(table)
}

/// Reads a call that asks for all tables.
pub(crate) fn read_criteria<R: Read>(alloc: Global, r: &mut R) -> Result<(), CallRefusal>
    ensures { WhereKnown (R.remaining r.old) (R.remaining r.new)
        (ReadsCriteria result) }
{
    let message = first_message(alloc, r)?;
    check_criteria(alloc, &message)?;
    read_end(alloc, r)
}

/// The version of a call that asks for one.
pub(crate) fn read_ticket<R: Read>(alloc: Global, r: &mut R) -> Result<Ticket, CallRefusal>
    ensures { WhereKnown (R.remaining r.old) (R.remaining r.new)
        (ReadsTicket result) }
{
    let message = first_message(alloc, r)?;
    let ticket = version_asked(alloc, &message)?;
    read_end(alloc, r)?;
    Ok(ticket)
}
