//! Columns and batches made of plain cells, of every type of the profile: nulls, bits, bytes, texts, lists and structs,
//! one inside the other (Apache Arrow, "Arrow Columnar Format", "Physical memory layout"). The function of `laws` does
//! nothing: its contract is a law of the definitions.
#![tactic(auto)]

mod batch;
mod building;
mod fault;
mod fields;
mod fitting;
mod flat;
pub mod laws;
mod nested;
mod slots;

pub use batch::batch_of;
pub use building::column_of;
pub use fault::{CellsFault, RowsFault};
