//! How long the body is that would be written of a batch that a header and a body lay out, told before the batch is built.
//!
//! Several columns of a header may name the same bytes of a body (Apache Arrow, "Arrow Columnar Format", "RecordBatch
//! message"), so that a short body may lay out a batch that is many times as long once it is written. [`canonical_length`]
//! says that length and takes no memory: who has a limit asks it between `check_batch` of `batch_checking` and `build_batch`
//! of `batch_reading`, and builds nothing that is too long.
//!
//! The columns are gone over twice, depth first, and each time once. The first time (`walk`) what follows from their values is
//! added up in a table with an entry for each node: whether one of the cells that are written is null, and how many bytes or
//! elements these have. Where no value is null a run of following places is counted at once (`run`), and else a block of
//! places with a mark for each (`marks`, `bits`, `marked`); what is wanted inside lists is gathered in runs and in blocks
//! again. The second time (`fields`) the table says how many cells each column has and how long its own buffers are
//! (`sizes`).
//!
//! In `specs/`, `Along` says which cells of a column are wanted, `Counted` and `Tally` what is counted of one and of several,
//! `Reach` how far a column is read, and `Sizes` how long buffers are; they are tools of contracts. Which cells are wanted
//! inside a column is defined in `specs/` of `batch_reading`, and the body that is written in `Canonical` of `batch_types`.
#![tactic(auto)]

mod bits;
mod counted;
mod fields;
mod length;
mod marked;
mod run;
mod sizes;
mod validity_mask;
mod walk;

pub use length::canonical_length;
