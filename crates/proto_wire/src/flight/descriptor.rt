//! What names a flight.

use proto_fields::{
    ContentRef, WireFault, bytes_of, check_bytes, check_number, check_string, enum_of,
};
use proto_messages::{ProtoMessage, append_bytes, append_enum, append_strings, push_string};
use std::alloc::{AllocError, Global};

/// How a descriptor names its flight. An enumeration of proto3 is open: a number that is none of the named ones is
/// kept.
#[derive(Clone, Copy, Debug, PartialEq, Eq)]
pub struct DescriptorType(pub i32);

/// The names of `DescriptorType` in Flight.proto.
impl DescriptorType {
    /// Of a descriptor that does not say.
    pub const UNKNOWN: DescriptorType = DescriptorType(0);
    /// Named by its `path`.
    pub const PATH: DescriptorType = DescriptorType(1);
    /// Named by its `cmd`.
    pub const CMD: DescriptorType = DescriptorType(2);
}

/// What names a flight: a path, or a command that is opaque to all but the service.
#[derive(Clone, Debug, PartialEq, Eq, Drop)]
pub struct FlightDescriptor {
    /// Which of the two names it, field 1 (`type` in Flight.proto, a word of the language here).
    pub descriptor_type: DescriptorType,
    /// The command, field 2.
    pub cmd: Vec<u8>,
    /// The path, element by element, field 3.
    pub path: Vec<String>,
}

impl ProtoMessage for FlightDescriptor {
    ghost use Rattle.std.proofs.Common.{rules};
    ghost use Rattle.proto_wire.specs.Flight.{flight_descriptor_descriptor};
    ghost use Rattle.proto_wire.specs.FlightValues.{descriptor_values};

    ghost descriptor = { flight_descriptor_descriptor };

    ghost values = { descriptor_values };

    fn empty(alloc: Global) -> FlightDescriptor {
        FlightDescriptor {
            descriptor_type: DescriptorType::UNKNOWN,
            cmd: Vec::new(alloc),
            path: Vec::new(alloc),
        }
    }

    fn check_field(number: u32, content: ContentRef<'_>) -> Result<(), WireFault> {
        match number {
            1 => check_number(content),
            2 => check_bytes(content),
            3 => check_string(content),
            _ => Ok(()),
        }
    }

    fn take(
        &mut self,
        alloc: Global,
        number: u32,
        content: ContentRef<'_>,
    ) -> Result<(), WireFault> {
        match number {
            1 => self.descriptor_type = DescriptorType(enum_of(content)?),
            2 => self.cmd = bytes_of(alloc, content)?,
            3 => push_string(alloc, &mut self.path, content)?,
            _ => {}
        }
        Ok(())
    }

    #[tactic(auto, using(proto_messages::proofs::CallerLemmas::chains))]
    fn append(&self, out: &mut Vec<u8>) -> Result<(), AllocError> {
        append_enum(out, 1, self.descriptor_type.0)?;
        append_bytes(out, 2, &self.cmd)?;
        append_strings(out, 3, &self.path)?;
        Ok(())
    }

    ghost rises = { Prim.search rules };
}
