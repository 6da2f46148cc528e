//! What a service says of a flight.

use crate::flight::descriptor::FlightDescriptor;
use crate::flight::endpoint::FlightEndpoint;
use proto_fields::{ContentRef, WireFault, bool_of, bytes_of, check_bytes, check_number, int64_of};
use proto_messages::{
    ProtoMessage, append_bool, append_bytes, append_int64, append_messages, append_one,
    check_embedded, merge_one, push_message,
};
use std::alloc::{AllocError, Global};

/// What a service says of a flight: its schema, its name, and where its batches are.
#[derive(Clone, Debug, PartialEq, Eq, Drop)]
pub struct FlightInfo {
    /// The schema as an encapsulated message of Arrow, field 1.
    pub schema: Vec<u8>,
    /// What names the flight, field 2.
    pub flight_descriptor: Option<FlightDescriptor>,
    /// The endpoints, which together give all batches, field 3.
    pub endpoint: Vec<FlightEndpoint>,
    /// The number of rows, -1 where it is not known, field 4.
    pub total_records: i64,
    /// The number of bytes, -1 where it is not known, field 5.
    pub total_bytes: i64,
    /// Whether the endpoints give the batches in order, field 6.
    pub ordered: bool,
}

/// The schema of a flight.
#[derive(Clone, Debug, PartialEq, Eq, Drop)]
pub struct SchemaResult {
    /// The schema as an encapsulated message of Arrow, field 1.
    pub schema: Vec<u8>,
}

/// Which flights are to be listed.
#[derive(Clone, Debug, PartialEq, Eq, Drop)]
pub struct Criteria {
    /// The service's own expression, empty for all flights, field 1.
    pub expression: Vec<u8>,
}

impl ProtoMessage for FlightInfo {
    ghost use Rattle.std.proofs.Common.{rules};
    ghost use Rattle.proto_wire.specs.Flight.{info_descriptor};
    ghost use Rattle.proto_wire.specs.FlightValues.{info_values};

    ghost descriptor = { info_descriptor };

    ghost values = { info_values };

    fn empty(alloc: Global) -> FlightInfo {
        FlightInfo {
            schema: Vec::new(alloc),
            flight_descriptor: None,
            endpoint: Vec::new(alloc),
            total_records: 0,
            total_bytes: 0,
            ordered: false,
        }
    }

    fn check_field(number: u32, content: ContentRef<'_>) -> Result<(), WireFault> {
        match number {
            1 => check_bytes(content),
            2 => check_embedded::<FlightDescriptor>(content),
            3 => check_embedded::<FlightEndpoint>(content),
            4 | 5 | 6 => check_number(content),
            _ => Ok(()),
        }
    }

    fn take(
        &mut self,
        alloc: Global,
        number: u32,
        content: ContentRef<'_>,
    ) -> Result<(), WireFault> {
        match number {
            1 => self.schema = bytes_of(alloc, content)?,
            2 => merge_one(alloc, &mut self.flight_descriptor, content)?,
            3 => push_message(alloc, &mut self.endpoint, content)?,
            4 => self.total_records = int64_of(content)?,
            5 => self.total_bytes = int64_of(content)?,
            6 => self.ordered = bool_of(content)?,
            _ => {}
        }
        Ok(())
    }

    #[tactic(auto, using(proto_messages::proofs::CallerLemmas::chains))]
    fn append(&self, out: &mut Vec<u8>) -> Result<(), AllocError> {
        append_bytes(out, 1, &self.schema)?;
        append_one(out, 2, &self.flight_descriptor)?;
        append_messages(out, 3, &self.endpoint)?;
        append_int64(out, 4, self.total_records)?;
        append_int64(out, 5, self.total_bytes)?;
        append_bool(out, 6, self.ordered)?;
        Ok(())
    }

    ghost rises = { Prim.search rules };
}

impl ProtoMessage for SchemaResult {
    ghost use Rattle.std.proofs.Common.{rules};
    ghost use Rattle.proto_wire.specs.Flight.{schema_result_descriptor};
    ghost use Rattle.proto_wire.specs.FlightValues.{schema_result_values};

    ghost descriptor = { schema_result_descriptor };

    ghost values = { schema_result_values };

    fn empty(alloc: Global) -> SchemaResult {
        SchemaResult {
            schema: Vec::new(alloc),
        }
    }

    fn check_field(number: u32, content: ContentRef<'_>) -> Result<(), WireFault> {
        if number == 1 {
            return check_bytes(content);
        }
        Ok(())
    }

    fn take(
        &mut self,
        alloc: Global,
        number: u32,
        content: ContentRef<'_>,
    ) -> Result<(), WireFault> {
        if number == 1 {
            self.schema = bytes_of(alloc, content)?;
        }
        Ok(())
    }

    #[tactic(auto, using(proto_messages::proofs::CallerLemmas::chains))]
    fn append(&self, out: &mut Vec<u8>) -> Result<(), AllocError> {
        append_bytes(out, 1, &self.schema)
    }

    ghost rises = { Prim.search rules };
}

impl ProtoMessage for Criteria {
    ghost use Rattle.std.proofs.Common.{rules};
    ghost use Rattle.proto_wire.specs.Flight.{criteria_descriptor};
    ghost use Rattle.proto_wire.specs.FlightValues.{criteria_values};

    ghost descriptor = { criteria_descriptor };

    ghost values = { criteria_values };

    fn empty(alloc: Global) -> Criteria {
        Criteria {
            expression: Vec::new(alloc),
        }
    }

    fn check_field(number: u32, content: ContentRef<'_>) -> Result<(), WireFault> {
        if number == 1 {
            return check_bytes(content);
        }
        Ok(())
    }

    fn take(
        &mut self,
        alloc: Global,
        number: u32,
        content: ContentRef<'_>,
    ) -> Result<(), WireFault> {
        if number == 1 {
            self.expression = bytes_of(alloc, content)?;
        }
        Ok(())
    }

    #[tactic(auto, using(proto_messages::proofs::CallerLemmas::chains))]
    fn append(&self, out: &mut Vec<u8>) -> Result<(), AllocError> {
        append_bytes(out, 1, &self.expression)
    }

    ghost rises = { Prim.search rules };
}
