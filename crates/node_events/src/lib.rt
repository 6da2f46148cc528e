//! What can happen to one node, and what it gives.
//!
//! An [`Event`] is of one node: a client hands in an upload or asks for something, time passes, a message is delivered,
//! or the node goes down or starts again. [`EventResult`] is what comes of it. The definitions of `histories` speak of events
//! and of what they give by values of their own; `specs/Told` tells the types of this crate as these.
#![tactic(auto)]

mod copying;
mod event;
mod event_result;
pub mod laws;
mod table_text;

pub use copying::copy_of;
pub use event::Event;
pub use event_result::{EventResult, Reason};
pub use table_text::TableText;
