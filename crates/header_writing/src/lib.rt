//! The headers of Arrow's messages, written in their one layout.
//!
//! `write_schema` and `write_batch` append the one text of a header, which `Objects` in `specs/` lays out and
//! `Canonical` says what it has, and which shows that header, as `header_types` defines it; `encapsulate` puts the
//! marker and the length before a message. `schema_length` and `batch_length` say before how many bytes are written.
#![tactic(auto)]

mod encapsulated;
mod layout;
mod length;
mod type_table;
mod write;

pub use encapsulated::encapsulate;
pub use length::{batch_length, schema_length};
pub use write::{write_batch, write_schema};
