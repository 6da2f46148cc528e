//! FlatBuffers read at byte offsets of a text, without memory, from bytes that nobody has checked.
//!
//! What a place shows is defined in `specs/` as a relation on the text alone, apart from how it is read: `Number`,
//! `Table` and `Vector` after FlatBuffers, "FlatBuffer Internals". Each call is `Ok` exactly where the place shows a
//! value, and a fault is told only where it stands. Only the bytes that the value needs have to lie in the text. A
//! place is any `usize`, also one behind the end of the text: nothing is shown there.
//!
//! `Table` looks at the way to a table's vtable once, for all of its fields. The functions of `laws` do nothing: their
//! contracts are laws of the definitions.
#![tactic(auto)]

mod elements;
mod fault;
pub mod laws;
mod number;
mod table;

pub use elements::{text, vector};
pub use fault::PlaceFault;
pub use number::{follow, uint};
pub use table::{Table, slot};
