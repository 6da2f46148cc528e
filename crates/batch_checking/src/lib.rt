//! Whether a header and a body lay out a batch of rows, and if not, which fault is the first.
//!
//! [`check_batch`] answers exactly that: what lays out a batch, and which fault is told, is defined in `LaysOut` in
//! `specs/` of `batch_types`, after Apache Arrow, "Arrow Columnar Format", "Physical memory layout" and "RecordBatch
//! message". It takes no memory. The header's own rules come first (`head`); then the columns are gone over depth first
//! (`fields`), each by its own rules (`column`): whether its buffers lie in the body and are long enough (`lengths`), as
//! many values are null as its node says (`validity`), its offsets rise (`offsets`), it has as many values as are asked
//! of it, and its texts are UTF-8 (`texts`). A text has to be UTF-8 only where it belongs to the batch. That is asked for
//! texts alone that are valid and not UTF-8, from the text up through the columns around it (`around`).
//!
//! In `specs/`, `SourceRules` and `Checked` have the rules of what is read of a column, `Around` which places belong to
//! the batch, and `Columns`, `Walk` and `Whole` what is known on the way; they are tools of contracts and proofs.
#![tactic(auto)]

mod around;
mod batch;
mod column;
mod fields;
mod head;
mod lengths;
mod offsets;
mod texts;
mod validity;

pub use batch::check_batch;
