//! Conformance tests of `bitmaps`, `batch_columns`, `column_building` and `record_batches`, where only code can test:
//! long inputs, refused memory, cells that are of no field, copies and what equals them. Short inputs are rows of the
//! stories of `batch_stories`.
//!
//! There is no code here but tests, which stand in a crate of their own so that what that crate proves is not proved
//! again with their tests.
#![tactic(auto)]

#[cfg(test)]
mod bits;
#[cfg(test)]
mod columns;
#[cfg(test)]
mod compared;
#[cfg(test)]
mod made_cells;
#[cfg(test)]
mod refused_memory;
#[cfg(test)]
mod writing;
