//! The columns of a batch, built of a header and a body that are known to lay it out.
//!
//! Of each column some places are selected: at the top all rows, inside a list the places of the elements of its valid
//! cells, inside a struct its own places, inside a list of one size so many for each of its places. They are handed
//! down as runs of following places, with one bit a place that says whether the cell there is selected, where some are
//! not: what stands under a null of a struct or of a list of one size is blank (Apache Arrow, "Arrow Columnar Format",
//! "Physical memory layout"; `Spots` in `specs/`).
#![tactic(auto)]

mod batch;
mod bits;
mod blocks;
mod building;
mod inside;
mod one_run;
mod plan;
mod selection;
mod spans;

pub use batch::build_batch;
