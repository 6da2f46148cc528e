//! Bits packed into bytes, eight a byte, the lowest first: the validity of columns and the values of Bool columns
//! (Apache Arrow, "Arrow Columnar Format", "Validity bitmaps" and "Fixed-size Primitive Layout").
//!
//! `bit` and `count_zeros` look at bits in bytes that nobody has checked, from any bit on; bits behind the last byte
//! are not set. A [`Bitmap`] is a list of bits that grows, bit by bit or by a run of bits of other bytes, and whose
//! bytes are the one packed form of the list: as few bytes as will do, with zero bits behind the last bit. They are not
//! padded to a multiple of 8 or 64: that is for whoever lays out buffers (the same page, "Buffer Alignment and
//! Padding").
#![tactic(auto)]

mod bitmap;
mod bits;
pub mod laws;

pub use bitmap::Bitmap;
pub use bits::{bit, count_zeros};
