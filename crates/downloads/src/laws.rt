//! Laws of what is served.

ghost use Rattle.std.specs.Prelude.{◌≡◌, ℕ, List, map, Option};
ghost use Rattle.std.specs.List.{AllByRecursion, flat_map};
ghost use Rattle.header_types.specs.Fields.{SchemaTree};
ghost use Rattle.table_types.specs.Tables.{Version};
ghost use Rattle.table_types.specs.Answers.{answer_messages};
ghost use Rattle.table_types.specs.Valid.{FitsFrame};
ghost use Rattle.downloads.specs.Downloads.{ServedUpload, Downloaded, IsServedVersion, IsDownload, IdsChange, downloaded_of, served_messages};
ghost use Rattle.downloads.specs.Parts.{parts_of, part_text};
ghost use Rattle.header_types.specs.Profile.{InProfile};
ghost use Rattle.batch_types.specs.Cells.{Rows};
ghost use Rattle.downloads.specs.Messages.{IsSchemaMessage, IsUploadMessage};

use batch_types::laws::{batches_are_one, written_rows_are_laid_out};
use flatbuf_meta::laws::written_headers_differ;
use proto_messages::laws::canonical_messages_are_one;
use table_types::laws::batches_have_headers;

/// What a node answers to a ticket says what it serves: the schema of the version, and of each upload its id and its
/// batches, cell for cell. The uploads have the shape of the version's schema, which may have other metadata than theirs.
pub fn versions_are_downloads()
    ensures { (version : Version) → IsServedVersion version → IsDownload (answer_messages version) (downloaded_of version) }
{}

/// The messages of uploads are those of their parts, one behind the other; and the parts are of one list of uploads at most,
/// where no two that stand side by side have one id.
pub fn parts_are_of_one_list_of_uploads()
    ensures texts { (schema : SchemaTree) (uploads : List ServedUpload)
        → flat_map (served_messages schema) uploads ≡ map (part_text schema) (flat_map parts_of uploads) }
    ensures one { (uploads others : List ServedUpload) → IdsChange uploads → IdsChange others
        → flat_map parts_of uploads ≡ flat_map parts_of others → uploads ≡ others }
{}

/// Messages that frames have room for are those of one download at most: they say the schema, each upload's id and its
/// batches in one way.
pub fn downloads_are_one()
    ensures { (messages : List (List ℕ)) (one other : Downloaded) → AllByRecursion FitsFrame messages → IsDownload messages one
        → IsDownload messages other → one ≡ other }
{
    messages_are_one();
}

/// A message that a frame has room for is that of one schema at most, and says one thing of one upload at most, to a table
/// of a schema in profile; and none is both.
pub fn messages_are_one()
    ensures schema { (message : List ℕ) (one other : SchemaTree) → FitsFrame message → IsSchemaMessage message one
        → IsSchemaMessage message other → one ≡ other }
    ensures upload { (schema : SchemaTree) (message id name : List ℕ) (rows others : Option Rows) → InProfile schema
        → FitsFrame message → IsUploadMessage schema message id rows → IsUploadMessage schema message name others
        → (id ≡ name) × (rows ≡ others) }
    ensures apart { (schema other : SchemaTree) (message id : List ℕ) (rows : Option Rows) → FitsFrame message
        → IsSchemaMessage message other → ¬ IsUploadMessage schema message id rows }
{
    batches_are_one();
    batches_have_headers();
    canonical_messages_are_one();
    written_headers_differ();
    written_rows_are_laid_out();
}
