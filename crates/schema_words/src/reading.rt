//! Schemas that words tell.

ghost use Rattle.std.specs.Prelude.{◌≡◌, ◌↔◌, [], codes, length, map, MatchOption, Bool, IfOk, IfErr, OnOk, IsTrue};
ghost use Rattle.std.specs.List.{slice_split};
ghost use Rattle.std.specs.Str.{IsTrimAscii};
ghost use Rattle.header_types.specs.Fields.{DataType, FieldHead, tree, no_more};
ghost use Rattle.header_types.specs.Views.{data_type_of, forest_of, schema_of, tree_of};
ghost use Rattle.schema_words.specs.Spelling.{SpellsField, SpellsFields, SpellsSchema, SpellsType, is_comma};
ghost use Rattle.schema_words.specs.Faults.{PushesField, TellsNoField, TellsNoSchema};

use crate::fault::SchemaWordsFault;
use crate::plain::plain_type;
use header_types::{Field, Schema, Ty};
use std::alloc::{AllocError, Global};

// Whether these words, white space aside, are `not null`.
fn is_not_null(mark: &str) -> bool
    ensures { IsTrue result ↔ IsTrimAscii mark.now (codes "not null") }
{
    mark.trim_ascii() == "not null"
}

// The type that is said of a field, and whether it may hold nulls.
fn type_of(said: &str) -> Option<(Ty, bool)>
    ensures { MatchOption result ((t : DataType) (nullable : Bool) → SpellsType said.now t nullable → ⊥)
        (λ told. SpellsType said.now (data_type_of told.0) told.1) }
{
    match said.split_once(' ') {
        None => match plain_type(said) {
            Some(ty) => Some((ty, true)),
            None => None,
        },
        Some((words, mark)) if is_not_null(mark) => match plain_type(words) {
            Some(ty) => Some((ty, false)),
            None => None,
        },
        Some(_) => None,
    }
}

// The field that this part of the words tells, if it tells one.
fn field_of(alloc: Global, part: &str) -> Result<Option<Field>, AllocError>
    ensures { IfOk result (λ found. MatchOption found ((head : FieldHead) → SpellsField part.now head → ⊥)
        (λ field. (head : FieldHead) × SpellsField part.now head × (tree_of field ≡ tree head [] no_more))) }
{
    let Some((name, said)) = part.split_once(':') else {
        return Ok(None);
    };
    let Some((ty, nullable)) = type_of(said.trim_ascii()) else {
        return Ok(None);
    };
    Ok(Some(Field {
        name: String::from_str(alloc, name.trim_ascii())?,
        nullable,
        ty,
        children: Vec::new(alloc),
        metadata: Vec::new(alloc),
    }))
}

// Puts the field that this part tells behind the others, of which there are as many as parts stand before it.
fn push_field(alloc: Global, part: &str, fields: &mut Vec<Field>) -> Result<(), SchemaWordsFault>
    ensures pushed { OnOk result (PushesField part.now fields.old.items fields.new.items) }
    ensures fault { IfErr result (TellsNoField part.now (length fields.old.items)) }
{
    match field_of(alloc, part)? {
        Some(field) => match fields.push(field) {
            Ok(()) => Ok(()),
            Err(_) => Err(SchemaWordsFault::OutOfMemory),
        },
        None => Err(SchemaWordsFault::BadField(fields.len() as u64 + 1)),
    }
}

// The fields that the parts of these words tell, which stand between commas.
fn fields_of(alloc: Global, words: &str) -> Result<Vec<Field>, SchemaWordsFault>
    ensures read { IfOk result (λ fields. SpellsFields (slice_split is_comma words.now)
        (forest_of (map tree_of fields.items))) }
    ensures fault { IfErr result (TellsNoSchema words.now) }
{
    let mut fields = Vec::new(alloc);
    let mut rest = words;
    while let Some((part, others)) = rest.split_once(',') {
        push_field(alloc, part, &mut fields)?;
        rest = others;
    }
    push_field(alloc, rest, &mut fields)?;
    Ok(fields)
}

/// The schema that words tell: its fields, with a comma between each two of them; each is a name, a colon and the words of a type
/// as [`plain_words`](crate::plain_words) has them, and where it may hold no null a space and `not null` behind these. White
/// space round a name and round what stands behind its colon is passed over. A name is what stands before the first colon, whatever
/// it is; the words tell no metadata, and no field inside another.
///
/// [`SchemaWordsFault::BadField`] gives the place, from 1 on, of the first part that is no field. How many fields there may be, and
/// how long their names, is left to whoever takes the schema.
pub fn schema_of_words(alloc: Global, words: &str) -> Result<Schema, SchemaWordsFault>
    ensures read { IfOk result (λ schema. SpellsSchema words.now (schema_of schema)) }
    ensures fault { IfErr result (TellsNoSchema words.now) }
{
    Ok(Schema {
        fields: fields_of(alloc, words)?,
        metadata: Vec::new(alloc),
    })
}
