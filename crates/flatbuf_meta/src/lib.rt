//! The metadata of Arrow's messages, read from bytes that nobody has checked, and written.
//!
//! What a text shows as the header of a message is defined in `header_types`, as a relation on the text alone, beside
//! the values that say it; `header_reading` has the call that reads it, and `header_writing` those that write it. Their
//! public names stand here too, so that callers need this crate alone.
//!
//! The functions of `laws` do nothing: their contracts are laws of the definitions, as that what a text shows as a
//! schema can be written, and that headers which differ are written differently. Those that speak of what is written
//! are proved here.
#![tactic(auto)]

pub mod laws;

pub use header_reading::read_message;
pub use header_types::{
    BatchHead, BitWidth, DateUnit, DecimalWidth, Field, Header, MAX_BUFFERS, MAX_DEPTH, MAX_FIELDS,
    MAX_METADATA_ENTRIES, MAX_TEXT_BYTES, MetaFault, Precision, Schema, TimeUnit, Ty,
};
pub use header_writing::{encapsulate, write_batch, write_schema};
