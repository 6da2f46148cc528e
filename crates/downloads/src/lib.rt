//! What a client is served of a version of a table (Apache Arrow, "Arrow Flight RPC", "Downloading Data").
//!
//! An answer has the message of a schema, and then messages of uploads, each with an id and a batch or with an id alone.
//! Which bytes are such a message is defined in `specs/Messages`: each has one encoding. [`schema_in`] and [`upload_message_in`] find
//! the fields of a message without memory, build it again, and take it only where that gives the same bytes.
//!
//! `specs/Downloads` defines which messages are those of an answer to a ticket, and `specs/Parts` what each of them says: the
//! id of an upload, and a batch of it or none. The laws say that a node's answers are such, and that the messages of uploads,
//! of which no two that stand side by side have one id, group into them in one way.
//!
//! A [`Downloading`] takes the messages of an answer one by one, and gives the [`Download`] that they are, in which no two
//! uploads have one id:
//!
//! ```text
//! let mut downloading = Downloading::Begun;
//! for message in messages {
//!     downloading = downloading.take(alloc, message)?;
//! }
//! downloading.finish(alloc)
//! ```
#![tactic(auto)]

mod adding;
mod download;
mod downloading;
mod ids;
pub mod laws;
mod parts;
mod schema_message;
mod upload_message;

pub use download::{Download, ServedUpload};
pub use downloading::Downloading;
pub use schema_message::schema_in;
pub use upload_message::{UploadMessage, upload_message_in};
