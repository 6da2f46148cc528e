//! Laws of what a text shows as a header, and of the limits.

ghost use Rattle.std.specs.Prelude.{◌≡◌, ℕ, List};
ghost use Rattle.header_types.specs.Fields.{SchemaTree};
ghost use Rattle.header_types.specs.Header.{Header, schema_header, ShowsHeader};
ghost use Rattle.header_types.specs.Limits.{depth_limit, fields_limit, entries_limit, bytes_limit, nodes_limit};
ghost use Rattle.header_types.specs.Limits.{buffers_limit};
ghost use Rattle.header_types.specs.Profile.{InProfile};

use crate::limits::{MAX_BUFFERS, MAX_DEPTH, MAX_FIELDS, MAX_METADATA_ENTRIES, MAX_TEXT_BYTES};

/// A text shows at most one header.
pub fn headers_are_one()
    ensures { (text : List ℕ) (x y : Header) → ShowsHeader text x → ShowsHeader text y → x ≡ y }
{}

/// A schema that a text shows is in profile ([`crate::Schema::in_profile`]), so that it can be written.
pub fn shown_schemas_are_in_profile()
    ensures { (text : List ℕ) (schema : SchemaTree) → ShowsHeader text (schema_header schema) → InProfile schema }
{}

/// The limits of the program are those of the definitions, and these numbers: levels, fields, entries of metadata and
/// bytes of texts of a schema, and nodes and buffers of a batch that is written.
pub fn limits_are_these()
    ensures depth { (depth_limit ≡ 16) × (MAX_DEPTH ≡ depth_limit) }
    ensures fields { (fields_limit ≡ 512) × (MAX_FIELDS ≡ fields_limit) }
    ensures entries { (entries_limit ≡ 4096) × (MAX_METADATA_ENTRIES ≡ entries_limit) }
    ensures bytes { (bytes_limit ≡ 1048576) × (MAX_TEXT_BYTES ≡ bytes_limit) }
    ensures nodes { (nodes_limit ≡ 512) × (MAX_FIELDS ≡ nodes_limit) }
    ensures buffers { (buffers_limit ≡ 1536) × (MAX_BUFFERS ≡ buffers_limit) }
{}
