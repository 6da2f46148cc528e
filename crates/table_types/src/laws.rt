//! Laws of the tables that a list of uploads makes.

ghost use Rattle.std.specs.Prelude.{◌≡◌, ◌≢◌, ℕ, ◌-◌, ◌<◌, ◌≤◌, List, [], ◌++◌, length, take, get_or, Some, true, false, ◌↔◌};
ghost use Rattle.flatbuf_meta.specs.Writable.{IsWritable};
ghost use Rattle.header_types.specs.Fields.{SchemaTree};
ghost use Rattle.header_types.specs.Header.{schema_header, batch_header};
ghost use Rattle.header_types.specs.Profile.{InProfile};
ghost use Rattle.header_types.specs.SameShape.{SameShape};
ghost use Rattle.table_types.specs.Uploads.{Upload, upload_text};
ghost use Rattle.batch_types.specs.Cells.{Rows};
ghost use Rattle.batch_types.specs.Canonical.{canonical_head, canonical_body};
ghost use Rattle.batch_types.specs.Written.{CanBeWritten};
ghost use Rattle.table_types.specs.declared.names.TheConstants.{MAX_TABLE_NAME_BYTES};
ghost use Rattle.table_types.specs.Valid.{IsUpload, name_limit, upload_limit};
ghost use Rattle.table_types.specs.Texts.{IsUploadText, AreUploadsOf};
ghost use Rattle.table_types.specs.Tables.{bare_schema, has_id, shape_text, is_same, effective, Version, version_of, Outcome, applied, conflicting, unknown, first_with_id, outcome_of};
ghost use Rattle.std.specs.List.{AllByRecursion, list_any};
ghost use Rattle.table_types.specs.Ticket.{TableVersion, IsTableVersion, ticket_text, IsTicket};

use batch_types::laws::{batches_are_one, written_rows_are_laid_out};
use flatbuf_meta::laws::written_headers_differ;
use proto_messages::laws::canonical_messages_are_one;

/// The limit of names in the definitions is the program's.
pub fn name_limit_is_this()
    ensures { MAX_TABLE_NAME_BYTES ≡ name_limit }
{}

/// An encoding is that of one upload: two uploads that are taken are one where their encodings are, cell for cell.
pub fn uploads_have_one_encoding()
    ensures { (x y : Upload) → IsUpload x → IsUpload y → upload_text x ≡ upload_text y → x ≡ y }
{
    batches_are_one();
    written_rows_are_laid_out();
    written_headers_differ();
    canonical_messages_are_one();
}

/// A list of texts holds one list of uploads, at most one a text and each of them such as is taken; two lists end to end
/// hold the uploads of both; and no bytes at all are no upload.
pub fn texts_hold_one_list_of_uploads()
    ensures one { (texts : List (List ℕ)) (xs ys : List Upload) → AreUploadsOf texts xs → AreUploadsOf texts ys
        → xs ≡ ys }
    ensures valid { (texts : List (List ℕ)) (xs : List Upload) → AreUploadsOf texts xs → AllByRecursion IsUpload xs }
    ensures few { (texts : List (List ℕ)) (xs : List Upload) → AreUploadsOf texts xs → length xs ≤ length texts }
    ensures both { (first second : List (List ℕ)) (xs ys : List Upload) → AreUploadsOf first xs → AreUploadsOf second ys
        → AreUploadsOf (first ++ second) (xs ++ ys) }
    ensures none { IsUploadText [] → ⊥ }
{
    uploads_have_one_encoding();
}

/// A batch of an upload has a header that can be written, where its body is no longer than an upload may be.
pub fn batches_have_headers()
    ensures { (schema : SchemaTree) (rows : Rows) → InProfile schema → CanBeWritten schema rows
        → length (canonical_body schema rows) ≤ upload_limit → IsWritable (batch_header (canonical_head schema rows)) }
{
    written_rows_are_laid_out();
}

/// Tables only grow: where one list of uploads begins another, each effective upload of the one is the other's too, at the
/// same place, and so is each version of each table; and what is told of an upload whose id has come never changes.
pub fn tables_grow()
    ensures effective { (table : List ℕ) (before after : List Upload)
        → take (length (effective table before)) (effective table (before ++ after)) ≡ effective table before }
    ensures versions { (table : List ℕ) (number : ℕ) (before after : List Upload) (version : Version)
        → version_of table number before ≡ Some version → version_of table number (before ++ after) ≡ Some version }
    ensures outcomes { (before after : List Upload) (upload : Upload) (outcome : Outcome)
        → outcome_of before upload ≡ outcome → outcome ≢ unknown → outcome_of (before ++ after) upload ≡ outcome }
{}

/// An upload counts once: the uploads of a version have different ids; and an upload that is told to be applied as some
/// version is the last of that version's uploads, and stands at that place of each later one.
pub fn uploads_count_once()
    ensures apart { (table : List ℕ) (uploads : List Upload) (i j : ℕ) (none : Upload)
        → i < j → j < length (effective table uploads)
        → (get_or (effective table uploads) i none).id ≢ (get_or (effective table uploads) j none).id }
    ensures placed { (uploads : List Upload) (upload none : Upload) (number : ℕ)
        → outcome_of uploads upload ≡ applied number → (number ≤ length (effective upload.table uploads))
        × (1 ≤ number)
        × (is_same (get_or (effective upload.table uploads) (number - 1) none) upload ≡ true) }
{}

/// A table has one shape: its effective uploads are to it, each of the shape of the first.
pub fn tables_have_one_shape()
    ensures table { (table : List ℕ) (uploads : List Upload) (i : ℕ) (none : Upload) → i < length (effective table uploads)
        → (get_or (effective table uploads) i none).table ≡ table }
    ensures shape { (table : List ℕ) (uploads : List Upload) (i : ℕ) (none : Upload) → i < length (effective table uploads)
        → shape_text (get_or (effective table uploads) i none) ≡ shape_text (get_or (effective table uploads) 0 none) }
{}

/// No upload is lost: one that came first of its id is applied where it has the shape of its table, and so is the first
/// upload to a table. Nothing is known of an upload exactly where none of its id has come; and a conflict is told only
/// where another came first under its id.
pub fn no_upload_is_lost()
    ensures counted { (uploads : List Upload) (upload none : Upload) → first_with_id upload.id uploads ≡ Some upload
        → shape_text upload ≡ shape_text (get_or (effective upload.table uploads) 0 none)
        → (number : ℕ) × (outcome_of uploads upload ≡ applied number) }
    ensures unknown { (uploads : List Upload) (upload : Upload)
        → (outcome_of uploads upload ≡ unknown) ↔ (list_any (has_id upload.id) uploads ≡ false) }
    ensures conflict { (uploads : List Upload) (upload : Upload) → outcome_of uploads upload ≡ conflicting
        → (first : Upload) × (first_with_id upload.id uploads ≡ Some first) × (is_same first upload ≡ false) }
{}

/// A shape is a schema without its metadata: uploads whose schemas differ in metadata alone have one shape; and where two
/// have one, their schemas differ in no more, if they can be written without it.
pub fn shapes_are_without_metadata()
    ensures same { (x y : Upload) → SameShape x.schema y.schema → shape_text x ≡ shape_text y }
    ensures apart { (x y : Upload) → IsWritable (schema_header (bare_schema x.schema)) → IsWritable (schema_header (bare_schema y.schema))
        → shape_text x ≡ shape_text y → SameShape x.schema y.schema }
{
    written_headers_differ();
}

/// Bytes are the ticket for one version at most, and each version that there can be has one ticket.
pub fn tickets_have_one_encoding()
    ensures one { (text : List ℕ) (x y : TableVersion) → IsTicket text x → IsTicket text y → x ≡ y }
    ensures each { (x : TableVersion) → IsTableVersion x → IsTicket (ticket_text x) x }
{
    canonical_messages_are_one();
}
