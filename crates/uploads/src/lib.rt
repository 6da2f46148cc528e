//! Uploads: what a client hands in, in the one encoding that nodes agree on.
//!
//! What an upload is, how it is encoded and which ones are taken is defined in `table_types`; its `Texts` has
//! which bytes are one. An [`Upload`] holds its encoding and nothing else: to encode it, to copy it
//! and to compare it costs no copy, and its parts are found again by a walk over its few fields ([`parts_of`], and
//! [`EncodedBatches`] for the batches, one after the other).
//!
//! [`Upload::new`] makes an upload of a schema and batches, [`Upload::decode`] one of bytes that nobody has checked. Bytes that
//! somebody holds as an upload's need not be looked at again ([`HeldUploads`]).
//!
//! - **Parts.** `Parts` in `specs/` has how an upload's fields follow one another (Protocol Buffers, "Encoding"). [`parts_of`]
//!   and [`EncodedBatches`] find them again in bytes that are known to be an upload; [`part_length`], [`field_length`],
//!   [`message_length`] and [`fits_frame`] say how long they are before they are written. No call takes memory.
//! - **Reading.** [`check_upload`] says whether bytes that nobody has checked are the encoding of an upload that is taken.
//!   Fields, names and limits are looked at first, without memory (`finding`, `Found` in `specs/`); then the schema and each
//!   batch are read, and taken only where writing them again gives the same bytes (`reading`, `Read` in `specs/`).
//!   [`read_schema`] and [`read_written_batch`] read one of them by itself, as it is served to clients too; [`written_schema`] and
//!   [`written_batches`] read again what is known to be written so.
//! - **Writing.** `Making` in `specs/` has which upload a table's name, an id, a schema and batches make, and why they make
//!   none, in the order in which it is reported. [`encode_upload`] looks at them first: at names and at the schema (`making`),
//!   and then at how long the encoding and the messages would be that are served of it, which is counted and takes no memory
//!   (`sizes`). Only then is the encoding written, part by part into one vector of the length that was counted (`encoding`).
//!   [`laws`] has that at most one fault holds.
//!
//! The limits of uploads are here as well. `proofs/CallerLemmas` has lemmas of the definitions alone, for those who read and
//! write such bytes.
#![tactic(auto)]

mod decode_fault;
mod decoding;
mod encoded_batches;
mod encoding;
mod finding;
mod held;
pub mod laws;
mod lengths;
mod limits;
mod making;
mod parts;
mod reading;
mod sizes;
mod upload;
mod upload_fault;
mod written;

pub use ballots::MAX_UPLOAD_BYTES;
pub use decode_fault::DecodeFault;
pub use decoding::check_upload;
pub use encoded_batches::EncodedBatches;
pub use held::{HeldUploads, NoUploads};
pub use lengths::{field_length, fits_frame, message_length, part_length};
pub use limits::{MAX_UPLOAD_BATCHES, UPLOAD_ID_BYTES, limits_are_those_of_uploads};
pub use making::encode_upload;
pub use parts::{Parts, parts_of};
pub use reading::{read_schema, read_written_batch};
pub use sizes::batch_size;
pub use table_types::{MAX_TABLE_NAME_BYTES, is_table_name};
pub use upload::Upload;
pub use upload_fault::UploadFault;
pub use written::{written_batches, written_schema};
