//! Cells as plain values, to look at what a column holds in a few lines: a null, a bit, bytes, a list of cells, or one
//! cell of each field of a struct (Apache Arrow, "Arrow Columnar Format", "Terminology").
#![tactic(auto)]

mod cell;
mod looking;

pub use cell::Cell;
pub use looking::cells_of;
