//! Laws of the columns that a header lists.

ghost use Rattle.std.specs.Prelude.{◌≡◌, length};
ghost use Rattle.header_types.specs.Fields.{SchemaTree};
ghost use Rattle.header_types.specs.Header.{Head};
ghost use Rattle.batch_types.specs.Laid.{node_count, buffer_count};
ghost use Rattle.batch_types.specs.LaysOut.{HasColumns};
ghost use Rattle.batch_columns.specs.Sources.{columns_from};

/// Where a header has as many nodes and buffers as the fields of a schema have, the columns that are read of it one
/// after the other are its columns for that schema.
pub fn sources_are_the_columns()
    ensures { (schema : SchemaTree) (head : Head) → length head.nodes ≡ node_count schema.fields
        → length head.buffers ≡ buffer_count schema.fields
        → HasColumns schema head (columns_from schema.fields head.nodes head.buffers) }
{}
