//! Two messages of our own with a field of every kind of number and of bytes, read and written by the public calls of
//! `proto_messages` and `proto_fields` alone.

use proto_fields::{
    ContentRef, WireFault, bool_of, bytes_of, check_bytes, check_number, check_string, enum_of,
    int64_of, string_of, uint64_of,
};
use proto_messages::{
    CanonicalMessage, ProtoMessage, append_bool, append_bytes, append_enum, append_int64,
    append_string, append_strings, append_uint64, push_string, strip_bool, strip_bytes, strip_enum,
    strip_int64, strip_string, strip_strings, strip_uint64,
};
use std::alloc::{AllocError, Global};

/// A field of each kind of number.
#[derive(Drop)]
pub struct Numbers {
    /// An enumeration, field 1.
    pub kind: i32,
    /// An int64, field 2.
    pub change: i64,
    /// A uint64, field 3.
    pub count: u64,
    /// A bool, field 4.
    pub is_last: bool,
}

/// A field of each kind of bytes.
#[derive(Drop)]
pub struct ByteFields {
    /// Bytes, field 1.
    pub payload: Vec<u8>,
    /// A string, field 2.
    pub name: String,
    /// Repeated strings, field 3.
    pub tags: Vec<String>,
}

impl ProtoMessage for Numbers {
    ghost use Rattle.std.proofs.Common.{rules};
    ghost use Rattle.wire_conformance.specs.Sample.{numbers_descriptor};

    ghost descriptor = { numbers_descriptor };

    ghost values = { λ m. (m.kind, (m.change, (m.count, (m.is_last, tt)))) };

    fn empty(_alloc: Global) -> Numbers {
        Numbers {
            kind: 0,
            change: 0,
            count: 0,
            is_last: false,
        }
    }

    fn check_field(number: u32, content: ContentRef<'_>) -> Result<(), WireFault> {
        match number {
            1 | 2 | 3 | 4 => check_number(content),
            _ => Ok(()),
        }
    }

    fn take(
        &mut self,
        _alloc: Global,
        number: u32,
        content: ContentRef<'_>,
    ) -> Result<(), WireFault> {
        match number {
            1 => self.kind = enum_of(content)?,
            2 => self.change = int64_of(content)?,
            3 => self.count = uint64_of(content)?,
            4 => self.is_last = bool_of(content)?,
            _ => {}
        }
        Ok(())
    }

    #[tactic(auto, using(proto_messages::proofs::CallerLemmas::chains))]
    fn append(&self, out: &mut Vec<u8>) -> Result<(), AllocError> {
        append_enum(out, 1, self.kind)?;
        append_int64(out, 2, self.change)?;
        append_uint64(out, 3, self.count)?;
        append_bool(out, 4, self.is_last)?;
        Ok(())
    }

    ghost rises = { Prim.search rules };
}

impl CanonicalMessage for Numbers {
    #[tactic(auto, using(proto_messages::proofs::CallerLemmas::strips))]
    fn strip<'a>(&self, bytes: &'a [u8]) -> Option<&'a [u8]> {
        let bytes = strip_enum(bytes, 1, self.kind)?;
        let bytes = strip_int64(bytes, 2, self.change)?;
        let bytes = strip_uint64(bytes, 3, self.count)?;
        strip_bool(bytes, 4, self.is_last)
    }
}

impl ProtoMessage for ByteFields {
    ghost use Rattle.std.proofs.Common.{rules};
    ghost use Rattle.wire_conformance.specs.Sample.{words_descriptor};
    ghost use Rattle.std.specs.Prelude.{map};
    ghost use Rattle.std.specs.String.{string_bytes};

    ghost descriptor = { words_descriptor };

    ghost values = { λ m. (m.payload.items, (string_bytes m.name, (map string_bytes m.tags.items, tt))) };

    fn empty(alloc: Global) -> ByteFields {
        ByteFields {
            payload: Vec::new(alloc),
            name: String::new(alloc),
            tags: Vec::new(alloc),
        }
    }

    fn check_field(number: u32, content: ContentRef<'_>) -> Result<(), WireFault> {
        match number {
            1 => check_bytes(content),
            2 | 3 => check_string(content),
            _ => Ok(()),
        }
    }

    fn take(
        &mut self,
        alloc: Global,
        number: u32,
        content: ContentRef<'_>,
    ) -> Result<(), WireFault> {
        match number {
            1 => self.payload = bytes_of(alloc, content)?,
            2 => self.name = string_of(alloc, content)?,
            3 => push_string(alloc, &mut self.tags, content)?,
            _ => {}
        }
        Ok(())
    }

    #[tactic(auto, using(proto_messages::proofs::CallerLemmas::chains))]
    fn append(&self, out: &mut Vec<u8>) -> Result<(), AllocError> {
        append_bytes(out, 1, &self.payload)?;
        append_string(out, 2, &self.name)?;
        append_strings(out, 3, &self.tags)?;
        Ok(())
    }

    ghost rises = { Prim.search rules };
}

impl CanonicalMessage for ByteFields {
    #[tactic(auto, using(proto_messages::proofs::CallerLemmas::strips))]
    fn strip<'a>(&self, bytes: &'a [u8]) -> Option<&'a [u8]> {
        let bytes = strip_bytes(bytes, 1, &self.payload)?;
        let bytes = strip_string(bytes, 2, &self.name)?;
        strip_strings(bytes, 3, &self.tags)
    }
}
