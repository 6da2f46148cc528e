//! The value of JSON that a file is, and what stands in it.

ghost use Rattle.std.specs.Prelude.{◌≡◌, ℕ, List, Some, Ok, map, option_map, IfOk, IfErr, IfSome, IsSome, IsUtf8};
ghost use Rattle.std.specs.String.{string_bytes};
ghost use Rattle.serde_json.specs.Data.{Data, string};
ghost use Rattle.serde_json.specs.Find.{as_array};
ghost use Rattle.serde_json.specs.View.{view, items_view};
ghost use Rattle.run_files.specs.declared.fault.ValueFault.TheVariants.{OutOfMemory};
ghost use Rattle.run_files.specs.Flaws.{ReadsText};
ghost use Rattle.run_files.specs.JsonValues.{whole, words, text_at, array_at};

use crate::fault::ValueFault;
use crate::flaw::TextFlaw;
use serde_json::Value;
use std::alloc::{AllocError, Global};
use std::str::from_utf8;

/// The value that a file is, or what is wrong with it.
pub(crate) fn value_of(alloc: Global, file: &[u8]) -> Result<Result<Value, TextFlaw>, AllocError>
    ensures read { IfOk result (ReadsText file.now) }
    ensures memory { IfErr result (λ _. IsUtf8 file.now) }
{
    let Ok(text) = from_utf8(file) else {
        return Ok(Err(TextFlaw::NotUtf8));
    };
    match Value::from_str(alloc, text) {
        Ok(value) => Ok(Ok(value)),
        Err(error) if error.is_memory() => Err(AllocError),
        Err(_) => Ok(Err(TextFlaw::NotJson)),
    }
}

/// The text at a name of an object.
pub(crate) fn text_at<'a>(value: &'a Value, name: &str) -> Option<&'a str>
    ensures { option_map (λ text. text.now) result ≡ text_at name.now (view value.now) }
{
    value.get(name).and_then(Value::as_str)
}

/// The items of the array at a name of an object.
pub(crate) fn array_at<'a>(value: &'a Value, name: &str) -> Option<&'a Vec<Value>>
    ensures { option_map (λ items. items_view items.now.items) result ≡ array_at name.now (view value.now) }
{
    value.get(name).and_then(Value::as_array)
}

/// A whole number of 64 bits.
pub(crate) fn whole_of(value: &Value) -> Result<u64, ValueFault>
    ensures read { IfOk result (λ number. view value.now ≡ whole number) }
    ensures only { (number : ℕ) → view value.now ≡ whole number → result ≡ Ok number }
{
    match value.as_u64() {
        Some(number) => Ok(number),
        None => Err(ValueFault::Unfit),
    }
}

/// A text, copied.
pub(crate) fn text_of(alloc: Global, value: &Value) -> Result<String, ValueFault>
    ensures read { IfOk result (λ text. view value.now ≡ string (string_bytes text)) }
    ensures refused { (text : List ℕ) → view value.now ≡ string text → IfErr result (λ fault. fault ≡ OutOfMemory) }
{
    match value.as_str() {
        Some(text) => Ok(String::from_str(alloc, text)?),
        None => Err(ValueFault::Unfit),
    }
}

/// The items of an array that tells of a node.
#[derive(Clone, Copy)]
pub(crate) struct Words<'a> {
    /// The first item, a text.
    pub(crate) word: &'a str,
    /// The second one, the number of a node.
    pub(crate) node: u64,
    /// What stands behind them.
    pub(crate) rest: &'a [Value],
}

/// The items of an array that tells of a node.
pub(crate) fn words_of(value: &Value) -> Option<Words<'_>>
    ensures read { IfSome result (λ said. as_array (view value.now)
        ≡ Some (words said.word.now said.node (map view said.rest.now))) }
    ensures only { (word : List ℕ) (node : ℕ) (rest : List Data) → as_array (view value.now) ≡ Some (words word node rest)
        → IsSome result }
{
    let Some(items) = value.as_array() else {
        return None;
    };
    let [word, node, rest @ ..] = items.as_slice() else {
        return None;
    };
    let word = word.as_str()?;
    let node = node.as_u64()?;
    Some(Words { word, node, rest })
}
