//! The headers of Arrow's messages as values, and what a text shows as a header.
//!
//! What a text shows is defined in `specs/` as a relation on the text alone, apart from how it is read: `Slots` has the
//! fields of tables, `TypeIds` the types of fields, `Shown` fields and trees, `Limits` how much a schema may say and
//! `Header` schemas, batches and messages, after Apache Arrow, "Schema.fbs" and "Message.fbs". `Views` and
//! `HeaderViews` say what the values of this crate mean there. `header_reading` reads headers and `header_writing`
//! writes them, apart from one another.
//!
//! `Schema::same_shape` tells whether two schemas are equal but for metadata (`SameShape` in `specs/`), and
//! `Schema::in_profile` whether a schema can be written and read back (`Profile`); without memory. `SchemaTotals`
//! counts what a schema says. A schema is no deeper than 16 levels and has at most 512 fields, 4,096 entries of
//! metadata and 1,048,576 bytes of texts, counted over the tree as it is shown, so that what is shared counts each
//! time.
//!
//! The functions of `laws` do nothing: their contracts are laws of the definitions. Lemmas that callers may cite stand
//! in `proofs/Beyond`, `proofs/Unique` and `proofs/FieldTrees`.
#![tactic(auto)]

mod fault;
mod field_type;
mod header;
pub mod laws;
mod limits;
mod profile;
mod schema;
mod shape;
mod totals;

pub use fault::MetaFault;
pub use field_type::{BitWidth, DateUnit, DecimalWidth, Precision, TimeUnit, Ty};
pub use header::{BatchHead, Header};
pub use limits::{MAX_BUFFERS, MAX_DEPTH, MAX_FIELDS, MAX_METADATA_ENTRIES, MAX_TEXT_BYTES};
pub use profile::allows_children;
pub use schema::{Field, Schema};
pub use totals::SchemaTotals;
