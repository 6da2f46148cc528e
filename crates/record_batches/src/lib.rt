//! Batches of rows, read from headers and bodies that nobody has checked, and written as the one body of their rows
//! (Apache Arrow, "Arrow Columnar Format", "RecordBatch message").
//!
//! [`read_batch`] gives the batch that a header and a body lay out, or the first fault that stands in them;
//! [`read_batch_within`] builds none whose body would be longer than whoever asks allows. [`write_body`]
//! writes a batch's one canonical body (`Canonical` in the definitions of `batch_types`), and the header that says where its
//! parts stand: the buffers of each column, depth first, each from a multiple of eight bytes on, with zero bytes between them
//! ("Buffer alignment and padding"). [`body_length`] says before how many bytes that will be; [`batch_head`] makes the header
//! alone, and [`append_body`] puts the body behind what is written already. A column keeps its buffers as they are written,
//! so to write one is to copy it. The header stays a value here: `header_writing` makes a message of it.
//! What is written is read again as it was, and a header and a body lay out at most one batch: the laws of `batch_types`.
//!
//! The crates below have the other parts: `batch_columns` the columns, `batch_checking` the faults, `batch_reading` how columns
//! are taken from a body, and `batch_lengths` how long the body is that will be written of them.
#![tactic(auto)]

mod body;
mod buffers;
mod head;
pub mod laws;
mod length;
mod read;
mod write;

pub use batch_columns::{Batch, Column, ColumnFault, Layout, layout_of};
pub use batch_types::BatchFault;
pub use body::append_body;
pub use head::batch_head;
pub use length::body_length;
pub use read::{read_batch, read_batch_within};
pub use write::write_body;
