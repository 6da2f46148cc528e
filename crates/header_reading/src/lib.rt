//! The headers of Arrow's messages, read from bytes that nobody has checked.
//!
//! What a text shows as a header is defined in `header_types`; `Faults` in `specs/` has what is wrong with a text, each
//! fault by a condition of its own. The call `read_message` is `Ok` exactly where the text shows a header, memory
//! apart, and a fault is told only where it stands; which of several is told is open. A schema is read and counted in
//! one pass, so that no memory is asked for beyond the limits of `header_types`. Where memory was refused, the text is
//! looked at once more without any: memory is refused only of a text that shows a header.
//!
//! The function of `laws` does nothing: its contract is a law of the definitions.
#![tactic(auto)]

mod batch;
mod build;
mod field;
pub mod laws;
mod message;
mod slot;
mod slots;
mod type_id;
mod verify;

pub use message::read_message;
