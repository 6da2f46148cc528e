//! Records written as bytes, each in its one canonical encoding.

ghost use Rattle.std.specs.Prelude.{◌≡◌, ◌≤◌, ◌++◌, length, OnOk, OnErr};
ghost use Rattle.proto_fields.specs.Writing.{Grows};
ghost use Rattle.ballots.specs.AllFields.{all_record_fields_text};
ghost use Rattle.ballots.specs.Limits.{max_record_bytes};
ghost use Rattle.ballots.specs.Record.{canonical_record, IsRecordInRange, IsRecordText};

use crate::record::Record;
use crate::record::numbers::{
    ACCEPTED, BEGAN, KIND, NODE, PROMISED, PROMISED_FROM, ROUND, SLOT, VALUE,
};
use crate::value::OutOfMemory;
use crate::writing::{append_pair, or_undone, pair};
use proto_fields::{write_nonempty_bytes, write_nonzero_varint};

/// Appends all fields of a record, those left out that are 0 or no bytes.
#[tactic(auto, using(crate::proofs::Written::written_rules))]
fn append_record_fields(
    out: &mut Vec<u8>,
    kind: u64,
    slot: u32,
    ballot: (u32, u8),
    value: &[u8],
) -> Result<(), OutOfMemory>
    ensures ok { OnOk result (out.new.items
        ≡ out.old.items ++ all_record_fields_text kind slot ballot.0 ballot.1 value.now) }
    ensures err { Grows out.old.items out.new.items }
{
    write_nonzero_varint(out, KIND, kind)?;
    write_nonzero_varint(out, SLOT, u64::from(slot))?;
    append_pair(out, (ROUND, NODE), ballot)?;
    write_nonempty_bytes(out, VALUE, value)?;
    Ok(())
}

impl Record {
    #[tactic(auto, using(crate::proofs::AllFields::all_record_fields))]
    fn append(&self, out: &mut Vec<u8>) -> Result<(), OutOfMemory>
        ensures ok { OnOk result (out.new.items ≡ out.old.items ++ canonical_record self.now) }
        ensures err { Grows out.old.items out.new.items }
        ensures within { OnOk result (IsRecordInRange self.now) }
    {
        match self {
            Record::Began(ballot) => append_record_fields(out, BEGAN, 0, pair(*ballot), &[]),
            Record::Promised(slot, ballot) => {
                append_record_fields(out, PROMISED, slot.number(), pair(*ballot), &[])
            }
            Record::Accepted(slot, acceptance) => append_record_fields(
                out,
                ACCEPTED,
                slot.number(),
                pair(acceptance.ballot),
                acceptance.value.as_bytes(),
            ),
            Record::PromisedFrom(first, ballot) => {
                append_record_fields(out, PROMISED_FROM, first.number(), pair(*ballot), &[])
            }
        }
    }

    /// Appends the record's bytes: rising field numbers, shortest varints, defaults left out, [`MAX_RECORD_BYTES`] at
    /// most. A refused one leaves the vector as it was.
    pub fn encode(&self, out: &mut Vec<u8>) -> Result<(), OutOfMemory>
        ensures ok { OnOk result (out.new.items ≡ out.old.items ++ canonical_record self.now) }
        ensures err { OnErr result (out.new.items ≡ out.old.items) }
        // What is written means the record, and so is read as it.
        ensures means { OnOk result (IsRecordText (canonical_record self.now) self.now) }
        ensures short { OnOk result (length (canonical_record self.now) ≤ max_record_bytes) }
    {
        let start = out.len();
        let appended = self.append(out);
        or_undone(out, start, appended)
    }
}
