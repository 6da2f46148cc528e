//! The shape of a schema: its message without any metadata.

ghost use Rattle.std.specs.Prelude.{◌≡◌, true, map, IfOk};
ghost use Rattle.header_types.specs.Profile.{InProfile};
ghost use Rattle.header_types.specs.SameShape.{bare_tree};
ghost use Rattle.header_types.specs.Views.{tree_of, schema_of};
ghost use Rattle.table_types.specs.Tables.{bare_schema};
ghost use Rattle.table_types.specs.Uploads.{schema_text};

use ballots::OutOfMemory;
use bytes::Bytes;
use header_types::{Field, Schema};
use header_writing::write_schema;
use std::alloc::Global;

/// Whether these fields have no metadata at any level.
fn are_bare(fields: &[Field]) -> bool
    ensures { result ≡ true → map bare_tree (map tree_of fields.now) ≡ map tree_of fields.now }
{
    for field in fields {
        if !field.metadata.is_empty() || !are_bare(&field.children) {
            return false;
        }
    }
    true
}

/// These fields, without metadata at any level.
fn bare_fields(alloc: Global, fields: Vec<Field>) -> Result<Vec<Field>, OutOfMemory>
    ensures { IfOk result (λ bare. map tree_of bare.items ≡ map bare_tree (map tree_of fields.items)) }
{
    let mut bare = Vec::new(alloc);
    for field in fields {
        let Field {
            name,
            nullable,
            ty,
            children,
            ..
        } = field;
        let children = bare_fields(alloc, children)?;
        let metadata = Vec::new(alloc);
        bare.push(Field {
            name,
            nullable,
            ty,
            children,
            metadata,
        })?;
    }
    Ok(bare)
}

/// The message of a schema.
pub(crate) fn message_of(alloc: Global, schema: &Schema) -> Result<Bytes, OutOfMemory>
    requires { InProfile (schema_of schema.now) }
    ensures { IfOk result (λ message. message ≡ schema_text (schema_of schema.now)) }
{
    let mut message = Vec::new(alloc);
    write_schema(schema, &mut message)?;
    Ok(Bytes::from_vec(message)?)
}

/// The message of a schema without its metadata: of one shape are the schemas of which this is one text. It shares the bytes
/// of the schema's own message where the schema has no metadata.
pub(crate) fn shape_of(alloc: Global, schema: Schema, message: &Bytes) -> Result<Bytes, OutOfMemory>
    requires profile { InProfile (schema_of schema) }
    requires message { message.now ≡ schema_text (schema_of schema) }
    ensures { IfOk result (λ shape. shape ≡ schema_text (bare_schema (schema_of schema))) }
{
    if schema.metadata.is_empty() && are_bare(&schema.fields) {
        return message.clone();
    }
    let fields = bare_fields(alloc, schema.fields)?;
    let metadata = Vec::new(alloc);
    message_of(alloc, &Schema { fields, metadata })
}
