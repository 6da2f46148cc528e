//! The lines of a text and their values.

ghost use Rattle.std.specs.Prelude.{◌≡◌, ◌≤◌, ◌<◌, ◌∷◌, ◌++◌, ℕ, List, [], length, map, Some, None, IfOk, IfErr, IsUtf8};
ghost use Rattle.std.specs.List.{AllZip};
ghost use Rattle.serde_json.specs.Data.{Data};
ghost use Rattle.serde_json.specs.View.{view};
ghost use Rattle.json_rows.specs.declared.fault.JsonFault.TheVariants.{OutOfMemory};
ghost use Rattle.json_rows.specs.Lines.{IsOfSchema, TellsLine, lines_of};

use crate::fault::{JsonFault, JsonLineFault};
use memchr::memchr;
use serde_json::Value;
use std::alloc::Global;
use std::str::from_utf8;

/// The first line of a text that is not empty, and what stands behind its line feed.
fn cut_line(text: &[u8]) -> (&[u8], &[u8])
    requires { 0 < length text.now }
    ensures lines { lines_of text.now ≡ result.0.now ∷ lines_of result.1.now }
    ensures shorter { length result.1.now < length text.now }
{
    match memchr(b'\n', text) {
        Some(end) => (&text[..end], &text[end + 1..]),
        None => (text, &[]),
    }
}

/// The value of a line.
fn value_of(alloc: Global, line: &[u8], number: u64) -> Result<Value, JsonFault>
    ensures read { IfOk result (λ value. TellsLine line.now (view value)) }
    ensures refused { (d : Data) → TellsLine line.now d → IfErr result (λ fault. fault ≡ OutOfMemory) }
    ensures kind { IfErr result (λ fault. IsOfSchema fault → ⊥) }
{
    let Ok(text) = from_utf8(line) else {
        return Err(JsonFault::Line {
            line: number,
            fault: JsonLineFault::NotUtf8,
        });
    };
    match Value::from_str(alloc, text) {
        Ok(value) => Ok(value),
        Err(error) if error.is_memory() => Err(JsonFault::OutOfMemory),
        Err(_) => Err(JsonFault::Line {
            line: number,
            fault: JsonLineFault::NotJson,
        }),
    }
}

/// Some values of a text, one a line, and what is left of it.
#[derive(Drop)]
pub(crate) struct Taken<'t> {
    /// The values.
    pub(crate) values: Vec<Value>,
    /// The text behind their lines.
    pub(crate) rest: &'t [u8],
}

/// The values of the first lines of a text, so many at most, where the first line has this number.
pub(crate) fn take_values(
    alloc: Global,
    text: &[u8],
    first: u64,
    most: usize,
) -> Result<Taken<'_>, JsonFault>
    ensures read { IfOk result (λ taken. (lines : List (List ℕ)) × (lines_of text.now ≡ lines ++ lines_of taken.rest.now)
        × AllZip TellsLine lines (map view taken.values.items)) }
    ensures few { IfOk result (λ taken. length taken.values.items ≤ most) }
    ensures shorter { IfOk result (λ taken. 0 < most → 0 < length text.now
        → length taken.rest.now < length text.now) }
    ensures refused { (values : List Data) → AllZip TellsLine (lines_of text.now) values
        → IfErr result (λ fault. fault ≡ OutOfMemory) }
    ensures kind { IfErr result (λ fault. IsOfSchema fault → ⊥) }
{
    let mut values = Vec::new(alloc);
    let mut rest = text;
    while values.len() < most && !rest.is_empty() {
        let (line, after) = cut_line(rest);
        let value = value_of(alloc, line, first.saturating_add(values.len() as u64))?;
        if values.push(value).is_err() {
            return Err(JsonFault::OutOfMemory);
        }
        rest = after;
    }
    Ok(Taken { values, rest })
}
