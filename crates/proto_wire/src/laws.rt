//! Laws of the definitions of the messages of Arrow Flight.

ghost use Rattle.std.specs.Prelude.{◌≡◌};
ghost use Rattle.proto_wire.specs.Flight.{unknown_type, path_type, cmd_type};
ghost use Rattle.proto_wire.specs.declared.flight.descriptor.TheConstants.DescriptorType.{UNKNOWN, PATH, CMD};

/// The names of [`crate::DescriptorType`] stand for the numbers that Flight.proto gives them.
pub fn descriptor_types_are_those_of_flight()
    ensures unknown { UNKNOWN.0 ≡ unknown_type }
    ensures path { PATH.0 ≡ path_type }
    ensures cmd { CMD.0 ≡ cmd_type }
{}
