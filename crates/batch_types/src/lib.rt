//! Batches of rows: what a header and a body lay out, and what is written of it.
//!
//! The definitions in `specs/` are of whole lists and of the tree of the types, after Apache Arrow, "Arrow Columnar Format":
//! `Cells` has what a batch holds, `Typed` which cells a field may have, `Layouts` how the values of each type stand in
//! buffers, `Laid` the nodes and buffers of a header column by column, `Placed` which cell stands at a place of a column,
//! `Rules` what a column has to keep, `Order` which broken rule is told, `LaysOut` a batch or a fault, `Canonical` the one
//! body that is written, `Written` which rows can be written and the cell that is read of a column of them, and `Examples`
//! batches that were worked out by hand.
//!
//! The crates above read and write batches: [`BatchFault`] says what is wrong with one that can't be read, and the functions
//! of `laws`, which do nothing, have laws of the definitions as their contracts.
#![tactic(auto)]

mod fault;
pub mod laws;

pub use fault::BatchFault;
