//! The messages of Arrow Flight as words: of each field by rising numbers what it holds (Apache Arrow,
//! "Flight.proto"). Of a field that may be missing or repeated its count comes first. A text is given as its bytes.

use proto_wire::{
    Criteria, FlightData, FlightDescriptor, FlightEndpoint, FlightInfo, Location, PutResult,
    SchemaResult, Ticket,
};
use std::alloc::Global;
use story_requests::{RequestFault, Response};

/// A message that can be shown.
pub(crate) trait Shown {
    /// Puts what its fields hold.
    fn show(&self, alloc: Global, answer: &mut Response) -> Result<(), RequestFault>;
}

fn show_signed(alloc: Global, number: i64, answer: &mut Response) -> Result<(), RequestFault> {
    let digits = format!(in alloc; "{number}")?;
    answer.word(digits.as_str())
}

fn show_one<M: Shown>(
    alloc: Global,
    message: &Option<M>,
    answer: &mut Response,
) -> Result<(), RequestFault> {
    match message {
        None => answer.number(0),
        Some(message) => {
            answer.number(1)?;
            message.show(alloc, answer)
        }
    }
}

fn show_each<M: Shown>(
    alloc: Global,
    messages: &[M],
    answer: &mut Response,
) -> Result<(), RequestFault> {
    answer.number(messages.len() as u64)?;
    for message in messages {
        message.show(alloc, answer)?;
    }
    Ok(())
}

impl Shown for FlightDescriptor {
    fn show(&self, alloc: Global, answer: &mut Response) -> Result<(), RequestFault> {
        show_signed(alloc, i64::from(self.descriptor_type.0), answer)?;
        answer.bytes(&self.cmd)?;
        answer.number(self.path.len() as u64)?;
        for element in &self.path {
            answer.bytes(element.as_bytes())?;
        }
        Ok(())
    }
}

impl Shown for Ticket {
    fn show(&self, _alloc: Global, answer: &mut Response) -> Result<(), RequestFault> {
        answer.bytes(&self.ticket)
    }
}

impl Shown for Location {
    fn show(&self, _alloc: Global, answer: &mut Response) -> Result<(), RequestFault> {
        answer.bytes(self.uri.as_bytes())
    }
}

impl Shown for FlightEndpoint {
    fn show(&self, alloc: Global, answer: &mut Response) -> Result<(), RequestFault> {
        show_one(alloc, &self.ticket, answer)?;
        show_each(alloc, &self.location, answer)
    }
}

impl Shown for FlightInfo {
    fn show(&self, alloc: Global, answer: &mut Response) -> Result<(), RequestFault> {
        answer.bytes(&self.schema)?;
        show_one(alloc, &self.flight_descriptor, answer)?;
        show_each(alloc, &self.endpoint, answer)?;
        show_signed(alloc, self.total_records, answer)?;
        show_signed(alloc, self.total_bytes, answer)?;
        answer.number(u64::from(self.ordered))
    }
}

impl Shown for SchemaResult {
    fn show(&self, _alloc: Global, answer: &mut Response) -> Result<(), RequestFault> {
        answer.bytes(&self.schema)
    }
}

impl Shown for Criteria {
    fn show(&self, _alloc: Global, answer: &mut Response) -> Result<(), RequestFault> {
        answer.bytes(&self.expression)
    }
}

impl Shown for FlightData {
    fn show(&self, alloc: Global, answer: &mut Response) -> Result<(), RequestFault> {
        show_one(alloc, &self.flight_descriptor, answer)?;
        answer.bytes(&self.data_header)?;
        answer.bytes(&self.app_metadata)?;
        answer.bytes(&self.data_body)
    }
}

impl Shown for PutResult {
    fn show(&self, _alloc: Global, answer: &mut Response) -> Result<(), RequestFault> {
        answer.bytes(&self.app_metadata)
    }
}
