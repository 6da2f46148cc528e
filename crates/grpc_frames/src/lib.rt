//! Length-prefixed frames over any reader and writer: a flag, the length of a payload in four bytes, and the payload.
//!
//! How a frame is spelled is defined in `specs/Frame`, apart from how it is read, after gRPC over HTTP/2,
//! "Length-Prefixed-Message". A read is `Ok` exactly where the input begins with such a frame or has ended, memory and
//! failed reads apart; a fault is told only where it stands, and where the reader then stands is told with it. A write
//! sends exactly the one text of its frame, or less than all of it where a write failed.
#![tactic(auto)]

mod fault;
mod frame;
pub mod laws;
pub mod transfer;

pub use fault::FrameFault;
pub use frame::{END_FLAG, Frame, MAX_FRAME_PAYLOAD, MESSAGE_FLAG, read_frame, write_frame};
