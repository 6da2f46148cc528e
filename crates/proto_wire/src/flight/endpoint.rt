//! Where the batches of a flight are, and the ticket that asks for them.

use proto_fields::{ContentRef, WireFault, bytes_of, check_bytes, check_string, string_of};
use proto_messages::{
    CanonicalMessage, ProtoMessage, append_bytes, append_messages, append_one, append_string,
    check_embedded, merge_one, push_message, strip_bytes, strip_messages, strip_one, strip_string,
};
use std::alloc::{AllocError, Global};

/// What a client sends to be given batches, opaque to all but the service that made it.
#[derive(Clone, Debug, PartialEq, Eq, Drop)]
pub struct Ticket {
    /// The service's own bytes.
    pub ticket: Vec<u8>,
}

/// Where a service is.
#[derive(Clone, Debug, PartialEq, Eq, Drop)]
pub struct Location {
    /// Its URI, as `grpc+tcp://127.0.0.1:42000`.
    pub uri: String,
}

/// A ticket, and where it is served.
#[derive(Clone, Debug, PartialEq, Eq, Drop)]
pub struct FlightEndpoint {
    /// The ticket that these locations serve.
    pub ticket: Option<Ticket>,
    /// The locations, each of which gives the same batches.
    pub location: Vec<Location>,
}

impl ProtoMessage for Ticket {
    ghost use Rattle.std.proofs.Common.{rules};
    ghost use Rattle.proto_wire.specs.Flight.{ticket_descriptor};
    ghost use Rattle.proto_wire.specs.FlightValues.{ticket_values};

    ghost descriptor = { ticket_descriptor };

    ghost values = { ticket_values };

    fn empty(alloc: Global) -> Ticket {
        Ticket {
            ticket: Vec::new(alloc),
        }
    }

    fn check_field(number: u32, content: ContentRef<'_>) -> Result<(), WireFault> {
        if number == 1 {
            return check_bytes(content);
        }
        Ok(())
    }

    fn take(
        &mut self,
        alloc: Global,
        number: u32,
        content: ContentRef<'_>,
    ) -> Result<(), WireFault> {
        if number == 1 {
            self.ticket = bytes_of(alloc, content)?;
        }
        Ok(())
    }

    #[tactic(auto, using(proto_messages::proofs::CallerLemmas::chains))]
    fn append(&self, out: &mut Vec<u8>) -> Result<(), AllocError> {
        append_bytes(out, 1, &self.ticket)
    }

    ghost rises = { Prim.search rules };
}

impl CanonicalMessage for Ticket {
    #[tactic(auto, using(proto_messages::proofs::CallerLemmas::strips))]
    fn strip<'a>(&self, bytes: &'a [u8]) -> Option<&'a [u8]> {
        strip_bytes(bytes, 1, &self.ticket)
    }
}

impl ProtoMessage for Location {
    ghost use Rattle.std.proofs.Common.{rules};
    ghost use Rattle.proto_wire.specs.Flight.{location_descriptor};
    ghost use Rattle.proto_wire.specs.FlightValues.{location_values};

    ghost descriptor = { location_descriptor };

    ghost values = { location_values };

    fn empty(alloc: Global) -> Location {
        Location {
            uri: String::new(alloc),
        }
    }

    fn check_field(number: u32, content: ContentRef<'_>) -> Result<(), WireFault> {
        if number == 1 {
            return check_string(content);
        }
        Ok(())
    }

    fn take(
        &mut self,
        alloc: Global,
        number: u32,
        content: ContentRef<'_>,
    ) -> Result<(), WireFault> {
        if number == 1 {
            self.uri = string_of(alloc, content)?;
        }
        Ok(())
    }

    #[tactic(auto, using(proto_messages::proofs::CallerLemmas::chains))]
    fn append(&self, out: &mut Vec<u8>) -> Result<(), AllocError> {
        append_string(out, 1, &self.uri)
    }

    ghost rises = { Prim.search rules };
}

impl CanonicalMessage for Location {
    #[tactic(auto, using(proto_messages::proofs::CallerLemmas::strips))]
    fn strip<'a>(&self, bytes: &'a [u8]) -> Option<&'a [u8]> {
        strip_string(bytes, 1, &self.uri)
    }
}

impl ProtoMessage for FlightEndpoint {
    ghost use Rattle.std.proofs.Common.{rules};
    ghost use Rattle.proto_wire.specs.Flight.{endpoint_descriptor};
    ghost use Rattle.proto_wire.specs.FlightValues.{endpoint_values};

    ghost descriptor = { endpoint_descriptor };

    ghost values = { endpoint_values };

    fn empty(alloc: Global) -> FlightEndpoint {
        FlightEndpoint {
            ticket: None,
            location: Vec::new(alloc),
        }
    }

    fn check_field(number: u32, content: ContentRef<'_>) -> Result<(), WireFault> {
        match number {
            1 => check_embedded::<Ticket>(content),
            2 => check_embedded::<Location>(content),
            _ => Ok(()),
        }
    }

    fn take(
        &mut self,
        alloc: Global,
        number: u32,
        content: ContentRef<'_>,
    ) -> Result<(), WireFault> {
        match number {
            1 => merge_one(alloc, &mut self.ticket, content),
            2 => push_message(alloc, &mut self.location, content),
            _ => Ok(()),
        }
    }

    #[tactic(auto, using(proto_messages::proofs::CallerLemmas::chains))]
    fn append(&self, out: &mut Vec<u8>) -> Result<(), AllocError> {
        append_one(out, 1, &self.ticket)?;
        append_messages(out, 2, &self.location)?;
        Ok(())
    }

    ghost rises = { Prim.search rules };
}

impl CanonicalMessage for FlightEndpoint {
    #[tactic(auto, using(proto_messages::proofs::CallerLemmas::strips))]
    fn strip<'a>(&self, bytes: &'a [u8]) -> Option<&'a [u8]> {
        let bytes = strip_one(bytes, 1, &self.ticket)?;
        strip_messages(bytes, 2, &self.location)
    }
}
