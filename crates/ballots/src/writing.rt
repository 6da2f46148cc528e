//! What messages and records are written of, appended to a vector, and how a refused one is undone.

ghost use Rattle.std.specs.Prelude.{◌≡◌, ◌++◌, [], ◌∷◌, take, OnOk, OnErr};
ghost use Rattle.proto_fields.specs.Field.{IsFieldNumber};
ghost use Rattle.proto_fields.specs.Writing.{Grows};
ghost use Rattle.ballots.specs.Ballot.{IsBallot};
ghost use Rattle.ballots.specs.Message.{number_field, written, value_bytes, IsValue};

use crate::ballot::Ballot;
use crate::value::{OutOfMemory, Value};
use proto_fields::write_nonzero_varint;

/// A ballot as its round and its node's number.
pub(crate) fn pair(ballot: Ballot) -> (u32, u8)
    ensures value { (result.0 ≡ ballot.round) × (result.1 ≡ ballot.node) }
    ensures within { IsBallot ballot }
{
    (ballot.round(), ballot.node().number())
}

/// Appends a ballot's two fields, of these numbers.
#[tactic(auto, using(crate::proofs::Written::written_rules))]
pub(crate) fn append_pair(
    out: &mut Vec<u8>,
    numbers: (u32, u32),
    pair: (u32, u8),
) -> Result<(), OutOfMemory>
    requires { IsFieldNumber numbers.0 × IsFieldNumber numbers.1 }
    ensures ok { OnOk result (out.new.items
        ≡ out.old.items ++ written (number_field numbers.0 pair.0 ∷ number_field numbers.1 pair.1 ∷ [])) }
    ensures err { Grows out.old.items out.new.items }
{
    write_nonzero_varint(out, numbers.0, u64::from(pair.0))?;
    write_nonzero_varint(out, numbers.1, u64::from(pair.1))?;
    Ok(())
}

impl Value {
    /// The bytes of an upload's value, none of a Noop.
    pub fn as_bytes(&self) -> &[u8]
        ensures value { result.now ≡ value_bytes self.now }
        ensures within { IsValue self.now }
    {
        match self {
            Value::Noop => &[],
            Value::Upload(bytes) => bytes.as_slice(),
        }
    }
}

/// Takes away what a refused call had appended behind `start`.
pub(crate) fn or_undone(
    out: &mut Vec<u8>,
    start: usize,
    appended: Result<(), OutOfMemory>,
) -> Result<(), OutOfMemory>
    ensures same { result ≡ appended }
    ensures ok { OnOk result (out.new.items ≡ out.old.items) }
    ensures err { OnErr result (out.new.items ≡ take start out.old.items) }
{
    if appended.is_err() {
        out.truncate(start);
    }
    appended
}
