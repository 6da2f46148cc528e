//! Floats that are no finite numbers, for which JSON has no numbers (RFC 8259, section 6). Texts stand for them (Protocol Buffers,
//! "ProtoJSON Format").

ghost use Rattle.std.specs.Prelude.{◌≡◌, ◌≢◌, ◌<◌, ◌^◌, IfSome, IfNone};
ghost use Rattle.serde_json.specs.Data.{string};
ghost use Rattle.serde_json.specs.View.{view};
ghost use Rattle.json_rows.specs.declared.non_finite.NonFinite.{NonFinite};
ghost use Rattle.json_rows.specs.NonFinites.{text_of, double_bits_of, single_bits_of};

use serde_json::Value;

/// A float that is no finite number.
#[derive(Clone, Copy, Debug, PartialEq, Eq)]
pub enum NonFinite {
    /// The quiet NaN without a sign and without a payload.
    Nan,
    /// Infinity.
    Infinity,
    /// Infinity below zero.
    MinusInfinity,
}

impl NonFinite {
    /// The text that tells it: `NaN`, `Infinity` or `-Infinity`.
    pub(crate) fn text(self) -> &'static str
        ensures { result.now ≡ text_of self }
    {
        match self {
            NonFinite::Nan => "NaN",
            NonFinite::Infinity => "Infinity",
            NonFinite::MinusInfinity => "-Infinity",
        }
    }

    /// The bits of it in eight bytes.
    pub(crate) fn double_bits(self) -> u64
        ensures { result ≡ double_bits_of self }
    {
        match self {
            NonFinite::Nan => 0x7ff8_0000_0000_0000,
            NonFinite::Infinity => 0x7ff0_0000_0000_0000,
            NonFinite::MinusInfinity => 0xfff0_0000_0000_0000,
        }
    }

    /// The bits of it in four bytes.
    pub(crate) fn single_bits(self) -> u64
        ensures { result ≡ single_bits_of self }
    {
        match self {
            NonFinite::Nan => 0x7fc0_0000,
            NonFinite::Infinity => 0x7f80_0000,
            NonFinite::MinusInfinity => 0xff80_0000,
        }
    }

    /// The one that a value tells.
    pub(crate) fn told_by(value: &Value) -> Option<NonFinite>
        ensures some { IfSome result (λ told. view value.now ≡ string (text_of told)) }
        ensures none { IfNone result ((told : NonFinite) → view value.now ≢ string (text_of told)) }
    {
        match value.as_str() {
            Some("NaN") => Some(NonFinite::Nan),
            Some("Infinity") => Some(NonFinite::Infinity),
            Some("-Infinity") => Some(NonFinite::MinusInfinity),
            Some(_) | None => None,
        }
    }

    /// The one of these bits in eight bytes.
    pub(crate) fn of_double_bits(bits: u64) -> Option<NonFinite>
        ensures some { IfSome result (λ told. bits ≡ double_bits_of told) }
        ensures none { IfNone result ((told : NonFinite) → bits ≢ double_bits_of told) }
    {
        match bits {
            0x7ff8_0000_0000_0000 => Some(NonFinite::Nan),
            0x7ff0_0000_0000_0000 => Some(NonFinite::Infinity),
            0xfff0_0000_0000_0000 => Some(NonFinite::MinusInfinity),
            _ => None,
        }
    }

    /// The one of these bits in four bytes.
    pub(crate) fn of_single_bits(bits: u64) -> Option<NonFinite>
        ensures some { IfSome result (λ told. bits ≡ single_bits_of told) }
        ensures none { IfNone result ((told : NonFinite) → bits ≢ single_bits_of told) }
    {
        match bits {
            0x7fc0_0000 => Some(NonFinite::Nan),
            0x7f80_0000 => Some(NonFinite::Infinity),
            0xff80_0000 => Some(NonFinite::MinusInfinity),
            _ => None,
        }
    }
}
