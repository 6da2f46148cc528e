//! What a client asks for by one call of Arrow Flight, read over any reader (Apache Arrow, "Arrow Flight RPC").
//!
//! What a text of frames asks for as a call is defined in `specs/Requests`, apart from the order in which it is read; `Faults`
//! has what is wrong with a text and where. [`read_call`] reads a call to its end, or to the first fault that stands in it.
#![tactic(auto)]

mod frames;
pub mod laws;
mod one;
mod reading;
mod request;
mod upload_builder;
mod uploading;

pub use reading::read_call;
pub use request::FlightRequest;
pub use uploading::MAX_MESSAGES;
