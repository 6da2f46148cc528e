//! What the fields of a text mean, gathered in one walk over its bytes with no memory taken: a look-up for each number
//! would walk over them again.

ghost use Rattle.std.specs.Prelude.{◌≡◌, ◌<◌, ◌==◌, ℕ, if◌then◌else◌, List, IfOk, IfErr, IsOkAnd};
ghost use Rattle.proto_fields.specs.Field.{Field, IsFields, FieldsFault, field_at};
ghost use Rattle.ballots.specs.Gathering.{Notes, Gathers, number_of, value_of};

use proto_fields::{ContentRef, WireFault, bytes_after, split_field};

/// The fields of messages and of records that hold numbers are numbered below this.
pub(crate) const FIELD_NUMBERS: usize = 9;

/// What the fields of a text mean.
#[derive(Drop)]
pub(crate) struct Fields<'a> {
    /// As numbers, by field number: the last one, 0 where there is no such field, and `None` where one of them is of
    /// another wire type.
    pub(crate) numbers: [Option<u64>; FIELD_NUMBERS],

    /// What the fields of the value's number mean as bytes, with the same cases.
    pub(crate) value: Option<&'a [u8]>,
}

impl Fields<'_> {
    /// What the fields of this number mean as a number.
    pub(crate) fn number(&self, number: u32) -> Option<u64>
        requires known { number < FIELD_NUMBERS }
        ensures { result ≡ number_of self.now.numbers number }
    {
        self.numbers[number as usize]
    }
}

/// Takes one field more into what the numbers mean.
fn note_number(numbers: &mut [Option<u64>; FIELD_NUMBERS], number: u32, content: ContentRef<'_>)
    ensures { Notes numbers.old numbers.new (field_at number content.entry) }
{
    let place = number as usize;
    if place < FIELD_NUMBERS {
        numbers[place] = numbers[place].and(content.number());
    }
}

/// What the fields of a text mean, the bytes of one number among them. A fault says that the text is no list of fields.
pub(crate) fn gather<'a>(text: &'a [u8], value: u32) -> Result<Fields<'a>, WireFault>
    ensures read { IfOk result (λ all. (fields : List Field) × IsFields text.now fields) }
    ensures only { (fields : List Field) → IsFields text.now fields
        → IsOkAnd result (λ all. Gathers value all.numbers (value_of all) fields) }
    ensures fault { IfErr result (λ fault. FieldsFault fault text.now) }
{
    let mut numbers = [Some(0); FIELD_NUMBERS];
    let mut last: Option<&'a [u8]> = Some(&[]);
    let mut rest = text;
    while !rest.is_empty() {
        let (number, content, after) = split_field(rest)?;
        note_number(&mut numbers, number, content);
        last = bytes_after(last, value, number, content);
        rest = after;
    }
    Ok(Fields {
        numbers,
        value: last,
    })
}
