//! Laws of the definitions that the reader and the writer of headers are proved against.

ghost use Rattle.std.specs.Prelude.{◌≡◌, ◌≤◌, length};
ghost use Rattle.header_types.specs.Fields.{SchemaTree};
ghost use Rattle.header_types.specs.Header.{Header, schema_header, ShowsHeader};
ghost use Rattle.header_types.specs.Profile.{InProfile};
ghost use Rattle.header_writing.specs.Canonical.{header_text};
ghost use Rattle.flatbuf_meta.specs.Writable.{IsWritable, schema_text_limit};

pub use header_reading::laws::faults_stand_apart;
pub use header_types::laws::{headers_are_one, limits_are_these, shown_schemas_are_in_profile};

/// The text that is written of a header shows it.
pub fn written_headers_are_shown()
    ensures { (x : Header) → IsWritable x → ShowsHeader (header_text x) x }
{}

/// Headers that are written differ where what they say differs.
pub fn written_headers_differ()
    ensures { (x y : Header) → IsWritable x → IsWritable y → header_text x ≡ header_text y → x ≡ y }
{}

/// The text that is written of a schema in profile has no more than 1,310,720 bytes, which is what the limits of its
/// fields, its entries of metadata and its texts leave.
pub fn written_schemas_are_short()
    ensures { (schema : SchemaTree) → InProfile schema → length (header_text (schema_header schema)) ≤ schema_text_limit }
{}
