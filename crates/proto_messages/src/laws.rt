//! Laws of what fields mean as a message, and of what is written for one.

ghost use Rattle.std.specs.Prelude.{◌≡◌, ◌++◌, List, ℕ};
ghost use Rattle.proto_fields.specs.declared.fault.WireFault.{WireFault};
ghost use Rattle.proto_messages.specs.Descriptor.{Descriptor, Values, IsMessage, TextFault, FieldIsAtFault};
ghost use Rattle.proto_messages.specs.Canonical.{RisesFrom, Fits, canonical};
ghost use Rattle.proto_messages.specs.Merged.{Merged};

/// A text means at most one message of a descriptor.
pub fn messages_are_one()
    ensures { (descriptor : Descriptor) (text : List ℕ) (v w : Values descriptor)
        → IsMessage descriptor text v → IsMessage descriptor text w → v ≡ w }
{}

/// Two texts laid end to end mean what both mean, merged (Protocol Buffers, "Encoding", "Last One Wins"): the last
/// value of a single field wins, the elements of a repeated field are those of the first text and then those of the
/// second, each in their order, and embedded messages are merged likewise.
pub fn texts_end_to_end_merge()
    ensures { (descriptor : Descriptor) (text more : List ℕ) (v w : Values descriptor)
        → IsMessage descriptor text v → IsMessage descriptor more w
        → (both : Values descriptor) × IsMessage descriptor (text ++ more) both × Merged descriptor v w both }
{}

/// Where a fault stands, no message does. So a reader that tells a fault has refused what nobody can read.
pub fn faults_stand_apart()
    ensures { (descriptor : Descriptor) (text : List ℕ) (fault : WireFault) (v : Values descriptor)
        → TextFault (FieldIsAtFault descriptor) fault text → ¬ IsMessage descriptor text v }
{}

/// What is written for a message is read as that message, for every descriptor whose fields stand by rising numbers.
pub fn canonical_messages_are_messages()
    ensures { (descriptor : Descriptor) (v : Values descriptor)
        → RisesFrom 0 descriptor → Fits descriptor v → IsMessage descriptor (canonical descriptor v) v }
{}

/// Bytes are what is written for at most one message, of every descriptor whose fields stand by rising numbers. So
/// whoever is given an encoding that is told to be the one knows its message by its bytes.
pub fn canonical_messages_are_one()
    ensures { (descriptor : Descriptor) (v w : Values descriptor) → RisesFrom 0 descriptor
        → Fits descriptor v → Fits descriptor w → canonical descriptor v ≡ canonical descriptor w → v ≡ w }
{}
