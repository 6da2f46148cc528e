//! The client's side of one call of Arrow Flight, over any reader and writer (Apache Arrow, "Arrow Flight RPC").
//!
//! What a call writes is defined in `specs/Requests`, what an answer is in `Answers`, and what its messages say in `Results`,
//! apart from the order in which they are written and read. A call writes its request's frames and nothing else, and then
//! reads to the trailer behind the answer's messages, and no further.
#![tactic(auto)]

mod client_fault;
mod frames;
mod getting;
mod info;
pub mod laws;
mod listing;
mod one;
mod parts;
mod putting;
mod requesting;
mod sending;
mod uploading;
mod versions;

pub use client_fault::ClientFault;
pub use downloads::{Download, ServedUpload};
pub use frames::call_get_frames;
pub use getting::{call_get, read_download};
pub use info::call_info;
pub use listing::call_list;
pub use parts::MAX_ANSWER_FRAMES;
pub use putting::call_put;
