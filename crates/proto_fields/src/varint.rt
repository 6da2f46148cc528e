//! Numbers of 64 bits at the front of some bytes (Protocol Buffers, "Base 128 Varints").

ghost use Rattle.std.specs.Prelude.{◌≡◌, ℕ, List, IfOk, IfErr, IsOkAnd};
ghost use Rattle.proto_fields.specs.Varint.{VarintThen, VarintFault};
ghost use Rattle.proto_fields.specs.Reading.{Gives, number_at, varint_at};

use crate::fault::WireFault;

/// The most bytes of a varint: ten hold 64 bits.
pub const MAX_VARINT_BYTES: usize = 10;

/// The number that follows a byte is below this: 57 bits and the byte's seven make 64.
const HIGH_LIMIT: u64 = 1 << 57;

/// The number at the front in at most `most` bytes, and the bytes after it.
#[tactic(auto, unfolding(crate::specs::Reading::number_at, crate::specs::Reading::joined))]
fn number_within(buf: &[u8], most: usize) -> Result<(u64, &[u8]), WireFault>
    ensures { Gives (λ x. (x.0, x.1.now)) result (number_at most buf.now) }
{
    match buf {
        [] if most == 0 => Err(WireFault::BadVarint),
        [] => Err(WireFault::CutShort),
        [first, rest @ ..] => {
            if most == 0 {
                return Err(WireFault::BadVarint);
            }
            if *first < 128 {
                return Ok((u64::from(*first), rest));
            }
            let (high, rest) = number_within(rest, most - 1)?;
            if high >= HIGH_LIMIT {
                return Err(WireFault::BadVarint);
            }
            Ok((high * 128 + u64::from(*first - 128), rest))
        }
    }
}

/// The number at the front and the bytes after it, or the fault that is met first from left to right.
#[tactic(auto, unfolding(crate::specs::Reading::varint_at, crate::specs::Reading::number_at))]
pub(crate) fn split_number(buf: &[u8]) -> Result<(u64, &[u8]), WireFault>
    ensures { Gives (λ x. (x.0, x.1.now)) result (varint_at buf.now) }
{
    match buf {
        // Most keys, numbers and lengths take one byte.
        [first, rest @ ..] if *first < 128 => Ok((u64::from(*first), rest)),
        _ => number_within(buf, MAX_VARINT_BYTES),
    }
}

/// The number of 64 bits at the front, and the bytes after it (Protocol Buffers, "Base 128 Varints"). It need not be in
/// its shortest encoding. No memory is taken.
///
/// Bytes that do not begin with a number are refused with what is wrong there: [`WireFault::BadVarint`] where it goes
/// on past [`MAX_VARINT_BYTES`] or takes more than 64 bits, and [`WireFault::CutShort`] where the bytes end before it
/// does.
pub fn split_varint(bytes: &[u8]) -> Result<(u64, &[u8]), WireFault>
    ensures read { IfOk result (λ x. VarintThen bytes.now x.0 x.1.now) }
    ensures only { (n : ℕ) (rest : List ℕ) → VarintThen bytes.now n rest
        → IsOkAnd result (λ x. (x.0 ≡ n) × (x.1.now ≡ rest)) }
    ensures fault { IfErr result (λ fault. VarintFault fault bytes.now) }
{
    split_number(bytes)
}
