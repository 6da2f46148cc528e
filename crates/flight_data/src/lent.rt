//! What the fields of a message mean, of which the bytes are lent.

ghost use Rattle.std.specs.Prelude.{◌≡◌, ◌⊎◌, List, Err, Some, IfOk, IfErr, OnOk};
ghost use Rattle.proto_fields.specs.declared.fault.WireFault.TheVariants.{OutOfMemory};
ghost use Rattle.proto_fields.specs.Field.{Field, IsFields, IsUnlessRefused, field_at, held_at};
ghost use Rattle.proto_fields.specs.Scalar.{TypeBytes, scalar_in, ScalarFault};
ghost use Rattle.proto_messages.specs.Descriptor.{Values, IsMessage, FieldIsAtFault, IsMessageFault, IsFaultless};
ghost use Rattle.proto_messages.specs.Taking.{nothing, Takes, TakesAll};
ghost use Rattle.proto_wire.specs.Flight.{data_descriptor};
ghost use Rattle.flight_data.specs.Lent.{lent_values};

use proto_fields::{ContentRef, WireFault, split_field};
use proto_messages::{check_embedded, merge_one};
use proto_wire::{FlightData, FlightDescriptor};
use std::alloc::Global;

/// A schema or a batch on its way, as it was received: the bytes are lent from those of the message.
#[derive(Debug, Drop)]
pub struct LentFlightData<'a> {
    /// What names the flight, in the first message of an upload, field 1.
    pub flight_descriptor: Option<FlightDescriptor>,
    /// The header, a Message of Arrow's metadata, field 2.
    pub data_header: &'a [u8],
    /// What the service adds, field 3.
    pub app_metadata: &'a [u8],
    /// The body of a batch, field 1000.
    pub data_body: &'a [u8],
}

/// The bytes of a field. The fault is [`WireFault::BadWireType`].
fn lent_bytes(content: ContentRef<'_>) -> Result<&[u8], WireFault>
    ensures read { IfOk result (λ value. scalar_in TypeBytes (held_at content.entry) ≡ Some value.now) }
    ensures fault { IfErr result (λ fault. ScalarFault TypeBytes fault (held_at content.entry)) }
{
    match content {
        ContentRef::Bytes(bytes) => Ok(bytes),
        _ => Err(WireFault::BadWireType),
    }
}

/// Why bytes could not be read as such a message: a fault that stands in them, and refused memory only where there is
/// none.
fn fault_of(bytes: &[u8]) -> WireFault
    ensures stands { IsMessageFault data_descriptor bytes.now result }
    ensures memory { result ≡ OutOfMemory → IsFaultless data_descriptor bytes.now }
{
    match check_embedded::<FlightData>(ContentRef::Bytes(bytes)) {
        Ok(()) => WireFault::OutOfMemory,
        Err(fault) => fault,
    }
}

impl<'a> LentFlightData<'a> {
    /// The message that no fields mean.
    fn empty() -> LentFlightData<'a>
        ensures { lent_values result ≡ nothing data_descriptor }
    {
        LentFlightData {
            flight_descriptor: None,
            data_header: &[],
            app_metadata: &[],
            data_body: &[],
        }
    }

    /// Takes one field more: the last of its number counts, descriptors are merged, and another number is passed over.
    /// The fault is one that stands in the field, or [`WireFault::OutOfMemory`].
    fn take(&mut self, alloc: Global, number: u32, content: ContentRef<'a>) -> Result<(), WireFault>
        ensures taken { OnOk result (Takes data_descriptor (field_at number content.entry)
            (lent_values self.old) (lent_values self.new)) }
        ensures fault { IfErr result (λ fault. (fault ≡ OutOfMemory)
            ⊎ FieldIsAtFault data_descriptor fault (field_at number content.entry)) }
    {
        match number {
            FlightData::FLIGHT_DESCRIPTOR_FIELD => {
                merge_one(alloc, &mut self.flight_descriptor, content)?
            }
            FlightData::DATA_HEADER_FIELD => self.data_header = lent_bytes(content)?,
            FlightData::APP_METADATA_FIELD => self.app_metadata = lent_bytes(content)?,
            FlightData::DATA_BODY_FIELD => self.data_body = lent_bytes(content)?,
            _ => {}
        }
        Ok(())
    }

    /// Takes the fields of some bytes behind those that it has taken.
    fn merge(&mut self, alloc: Global, bytes: &'a [u8]) -> Result<(), WireFault>
        ensures merged { OnOk result ((fields : List Field) × IsFields bytes.now fields
            × TakesAll (Takes data_descriptor) fields (lent_values self.old) (lent_values self.new)) }
        ensures fault { IfErr result (IsMessageFault data_descriptor bytes.now) }
    {
        let mut rest = bytes;
        while !rest.is_empty() {
            let (number, content, after) = split_field(rest)?;
            self.take(alloc, number, content)?;
            rest = after;
        }
        Ok(())
    }

    /// The message that bytes mean. Its header, its metadata and its body are lent from them; the descriptor is a copy,
    /// and of what is read memory is taken for that alone.
    ///
    /// Its refusals are those of `FlightData::decode` of `proto_wire`: a fault that stands in the bytes, or
    /// [`WireFault::OutOfMemory`], and that only of bytes without a fault.
    pub fn read(alloc: Global, bytes: &'a [u8]) -> Result<LentFlightData<'a>, WireFault>
        ensures read { IfOk result (λ read. IsMessage data_descriptor bytes.now (lent_values read)) }
        ensures only { (v : Values data_descriptor) → IsMessage data_descriptor bytes.now v
            → IsUnlessRefused lent_values result v }
        ensures fault { IfErr result (IsMessageFault data_descriptor bytes.now) }
        ensures memory { result ≡ Err OutOfMemory → IsFaultless data_descriptor bytes.now }
    {
        let mut data = LentFlightData::empty();
        match data.merge(alloc, bytes) {
            Ok(()) => Ok(data),
            Err(_) => Err(fault_of(bytes)),
        }
    }
}
