//! What streams of batches are made of, and the answer to an upload.

use crate::flight::descriptor::FlightDescriptor;
use proto_fields::{ContentRef, WireFault, bytes_of, check_bytes};
use proto_messages::laws::canonical_messages_are_messages;
use proto_messages::{ProtoMessage, append_bytes, append_lent, check_embedded, merge_one};
use std::alloc::{AllocError, Global};

/// A schema or a batch on its way.
#[derive(Clone, Debug, PartialEq, Eq, Drop)]
pub struct FlightData {
    /// What names the flight, in the first message of an upload, field 1.
    pub flight_descriptor: Option<FlightDescriptor>,
    /// The header, a Message of Arrow's metadata, field 2.
    pub data_header: Vec<u8>,
    /// What the service adds, field 3.
    pub app_metadata: Vec<u8>,
    /// The body of a batch, field 1000.
    pub data_body: Vec<u8>,
}

/// A schema or a batch on its way whose bytes are lent, so that writing it copies them once.
#[derive(Clone, Copy, Debug)]
pub struct FlightDataRef<'a> {
    /// What names the flight, in the first message of an upload, field 1.
    pub flight_descriptor: Option<&'a FlightDescriptor>,
    /// The header, a Message of Arrow's metadata, field 2.
    pub data_header: &'a [u8],
    /// What the service adds, field 3.
    pub app_metadata: &'a [u8],
    /// The body of a batch, field 1000.
    pub data_body: &'a [u8],
}

/// The answer to an upload.
#[derive(Clone, Debug, PartialEq, Eq, Drop)]
pub struct PutResult {
    /// What the service says of it, field 1.
    pub app_metadata: Vec<u8>,
}

impl ProtoMessage for FlightData {
    ghost use Rattle.std.proofs.Common.{rules};
    ghost use Rattle.proto_wire.specs.Flight.{data_descriptor};
    ghost use Rattle.proto_wire.specs.FlightValues.{data_values};

    ghost descriptor = { data_descriptor };

    ghost values = { data_values };

    fn empty(alloc: Global) -> FlightData {
        FlightData {
            flight_descriptor: None,
            data_header: Vec::new(alloc),
            app_metadata: Vec::new(alloc),
            data_body: Vec::new(alloc),
        }
    }

    fn check_field(number: u32, content: ContentRef<'_>) -> Result<(), WireFault> {
        match number {
            FlightData::FLIGHT_DESCRIPTOR_FIELD => check_embedded::<FlightDescriptor>(content),
            FlightData::DATA_HEADER_FIELD
            | FlightData::APP_METADATA_FIELD
            | FlightData::DATA_BODY_FIELD => check_bytes(content),
            _ => Ok(()),
        }
    }

    fn take(
        &mut self,
        alloc: Global,
        number: u32,
        content: ContentRef<'_>,
    ) -> Result<(), WireFault> {
        match number {
            FlightData::FLIGHT_DESCRIPTOR_FIELD => {
                merge_one(alloc, &mut self.flight_descriptor, content)?
            }
            FlightData::DATA_HEADER_FIELD => self.data_header = bytes_of(alloc, content)?,
            FlightData::APP_METADATA_FIELD => self.app_metadata = bytes_of(alloc, content)?,
            FlightData::DATA_BODY_FIELD => self.data_body = bytes_of(alloc, content)?,
            _ => {}
        }
        Ok(())
    }

    fn append(&self, out: &mut Vec<u8>) -> Result<(), AllocError> {
        self.lent().append(out)
    }

    ghost rises = { Prim.search rules };
}

impl FlightData {
    ghost use Rattle.std.specs.Prelude.{◌≡◌};
    ghost use Rattle.proto_wire.specs.FlightValues.{data_values, data_ref_values};

    /// The number of the field `flight_descriptor`.
    pub const FLIGHT_DESCRIPTOR_FIELD: u32 = 1;

    /// The number of the field `data_header`.
    pub const DATA_HEADER_FIELD: u32 = 2;

    /// The number of the field `app_metadata`.
    pub const APP_METADATA_FIELD: u32 = 3;

    /// The number of the field `data_body`.
    pub const DATA_BODY_FIELD: u32 = 1_000;

    /// The same message with its bytes lent.
    pub fn lent(&self) -> FlightDataRef<'_>
        ensures { data_ref_values result ≡ data_values self.now }
    {
        FlightDataRef {
            flight_descriptor: self.flight_descriptor.as_ref(),
            data_header: &self.data_header,
            app_metadata: &self.app_metadata,
            data_body: &self.data_body,
        }
    }
}

impl FlightDataRef<'_> {
    ghost use Rattle.std.specs.Prelude.{◌≡◌, ◌++◌, IfErr, OnOk, OnErr};
    ghost use Rattle.proto_fields.specs.declared.fault.WireFault.TheVariants.{OutOfMemory};
    ghost use Rattle.proto_messages.specs.Canonical.{Fits, canonical};
    ghost use Rattle.proto_messages.specs.Descriptor.{IsMessage};
    ghost use Rattle.proto_fields.specs.Writing.{Grows};
    ghost use Rattle.proto_wire.specs.Flight.{data_descriptor};
    ghost use Rattle.proto_wire.specs.FlightValues.{data_ref_values};

    /// Appends the canonical encoding of the [`FlightData`] that holds the same, and is read back as it. The only fault
    /// is [`WireFault::OutOfMemory`], and the vector then holds what it did before.
    pub fn encode(&self, out: &mut Vec<u8>) -> Result<(), WireFault>
        ensures ok { OnOk result
            (out.new.items ≡ out.old.items ++ canonical data_descriptor (data_ref_values self.now)) }
        ensures means { OnOk result (IsMessage data_descriptor
            (canonical data_descriptor (data_ref_values self.now)) (data_ref_values self.now)) }
        ensures err { OnErr result (out.new.items ≡ out.old.items) }
        ensures fault { IfErr result (λ fault. fault ≡ OutOfMemory) }
    {
        canonical_messages_are_messages();
        let start = out.len();
        match self.append(out) {
            Ok(()) => Ok(()),
            Err(_) => {
                out.truncate(start);
                Err(WireFault::OutOfMemory)
            }
        }
    }

    /// Appends its canonical encoding. Where memory is refused, a beginning of it may stay.
    #[tactic(auto, using(proto_messages::proofs::CallerLemmas::chains))]
    fn append(&self, out: &mut Vec<u8>) -> Result<(), AllocError>
        ensures ok { OnOk result
            (out.new.items ≡ out.old.items ++ canonical data_descriptor (data_ref_values self.now)) }
        ensures err { OnErr result (Grows out.old.items out.new.items) }
        ensures fits { OnOk result (Fits data_descriptor (data_ref_values self.now)) }
    {
        append_lent(
            out,
            FlightData::FLIGHT_DESCRIPTOR_FIELD,
            self.flight_descriptor,
        )?;
        append_bytes(out, FlightData::DATA_HEADER_FIELD, self.data_header)?;
        append_bytes(out, FlightData::APP_METADATA_FIELD, self.app_metadata)?;
        append_bytes(out, FlightData::DATA_BODY_FIELD, self.data_body)?;
        Ok(())
    }
}

impl ProtoMessage for PutResult {
    ghost use Rattle.std.proofs.Common.{rules};
    ghost use Rattle.proto_wire.specs.Flight.{put_result_descriptor};
    ghost use Rattle.proto_wire.specs.FlightValues.{put_result_values};

    ghost descriptor = { put_result_descriptor };

    ghost values = { put_result_values };

    fn empty(alloc: Global) -> PutResult {
        PutResult {
            app_metadata: Vec::new(alloc),
        }
    }

    fn check_field(number: u32, content: ContentRef<'_>) -> Result<(), WireFault> {
        if number == 1 {
            return check_bytes(content);
        }
        Ok(())
    }

    fn take(
        &mut self,
        alloc: Global,
        number: u32,
        content: ContentRef<'_>,
    ) -> Result<(), WireFault> {
        if number == 1 {
            self.app_metadata = bytes_of(alloc, content)?;
        }
        Ok(())
    }

    #[tactic(auto, using(proto_messages::proofs::CallerLemmas::chains))]
    fn append(&self, out: &mut Vec<u8>) -> Result<(), AllocError> {
        append_bytes(out, 1, &self.app_metadata)
    }

    ghost rises = { Prim.search rules };
}
