//! Ballots and values as one line each: a ballot is its round, a point and its node, as in `2.1`; a value is `noop`, or
//! the bytes of an upload as lower-case hexadecimal digits (RFC 4648, section 8). Each has one line, and no other is
//! read.

use crate::ballot::Ballot;
use crate::node::NodeId;
use crate::value::{UploadBytes, Value};
use bytes::Bytes;
use hex::FromHexError;
use std::alloc::{AllocError, Global};
use std::fmt;
use std::str::FromStr;
use thiserror::Error;

/// What is wrong with a line that should be a ballot, a value or a message.
#[derive(Clone, Copy, Debug, PartialEq, Eq, Error)]
pub enum LineFault {
    /// It is no round, point and node within their limits, or has other digits than the shortest.
    #[error("BadBallot")]
    BadBallot,
    /// It is neither `noop` nor lower-case hexadecimal digits of an upload's bytes.
    #[error("BadValue")]
    BadValue,
    /// It is no node, slot and word of a message, or something stands behind them.
    #[error("BadMessage")]
    BadMessage,
    /// Memory was refused.
    #[error("OutOfMemory")]
    OutOfMemory,
}

impl From<AllocError> for LineFault {
    ghost use Rattle.std.specs.Prelude.{◌≡◌};
    ghost use Rattle.ballots.specs.declared.printed.LineFault.TheVariants.{OutOfMemory};

    ghost from_gives = { λ _ fault. fault ≡ OutOfMemory };

    fn from(_: AllocError) -> LineFault {
        LineFault::OutOfMemory
    }
}

/// The round, a point and the node, as in `2.1`.
impl fmt::Display for Ballot {
    fn fmt<W: fmt::Write>(&self, f: &mut fmt::Formatter<W>) -> fmt::Result {
        let round = self.round();
        let node = self.node().number();
        write!(f, "{round}.{node}")
    }
}

/// Reads what `Display` writes, and no other line.
impl FromStr for Ballot {
    type Err = LineFault;

    fn from_str(line: &str) -> Result<Ballot, LineFault> {
        let Some((round, node)) = line.split_once('.') else {
            return Err(LineFault::BadBallot);
        };
        ballot_of(round, node).ok_or(LineFault::BadBallot)
    }
}

fn ballot_of(round: &str, node: &str) -> Option<Ballot> {
    let node = u8::try_from(number_of(node)?).ok()?;
    Ballot::new(number_of(round)?, NodeId::new(node)?)
}

/// The number that these digits spell, with no sign, and no zero before them.
pub(crate) fn number_of(digits: &str) -> Option<u32> {
    if digits.starts_with('+') || (digits.starts_with('0') && digits.len() > 1) {
        return None;
    }
    digits.parse::<u32>().ok()
}

/// The bytes as lower-case hexadecimal digits, two for each.
impl fmt::Display for UploadBytes {
    fn fmt<W: fmt::Write>(&self, f: &mut fmt::Formatter<W>) -> fmt::Result {
        for byte in self.as_slice() {
            write!(f, "{:02x}", byte)?;
        }
        Ok(())
    }
}

/// `noop`, or the bytes of the upload.
impl fmt::Display for Value {
    fn fmt<W: fmt::Write>(&self, f: &mut fmt::Formatter<W>) -> fmt::Result {
        match self {
            Value::Noop => f.write_str("noop"),
            Value::Upload(upload) => fmt::Display::fmt(upload, f),
        }
    }
}

impl Value {
    /// Reads what `Display` writes, and no other line. It stands in the place of `FromStr`, which has no allocator.
    pub fn from_str(alloc: Global, line: &str) -> Result<Value, LineFault> {
        if line == "noop" {
            return Ok(Value::Noop);
        }
        if line.bytes().any(|byte| byte.is_ascii_uppercase()) {
            return Err(LineFault::BadValue);
        }
        let bytes = match hex::decode(alloc, line) {
            Ok(bytes) => bytes,
            Err(FromHexError::OutOfMemory) => return Err(LineFault::OutOfMemory),
            Err(_) => return Err(LineFault::BadValue),
        };
        let shared = Bytes::from_vec(bytes).map_err(|_| LineFault::OutOfMemory)?;
        match UploadBytes::new(shared) {
            Some(upload) => Ok(Value::Upload(upload)),
            None => Err(LineFault::BadValue),
        }
    }
}
