//! Rows of a table as lines of JSON (RFC 8259; JSON Lines): `read_rows` makes batches of a text, `rows_text` the lines of a
//! batch, and `schema_of_rows` a schema for lines that come without one.
//!
//! Which value of JSON tells which cell of a field is one relation in `specs/`, apart from how it is read and how it is
//! written (`Forms`, `Numbers`, `Cells`), and so is which text tells which rows (`Lines`). `cell_of` reads the cell that a
//! value tells, and `write_cell` writes a value that tells a cell. `laws` says that a text tells one list of values at most, and
//! those the rows of one batch at most: what is read of the lines that were written of a batch are its rows.
#![tactic(auto)]

mod exact;
mod fault;
mod flat;
mod flat_writing;
mod float_writing;
mod floats;
mod form;
pub mod laws;
mod lines;
mod names;
mod non_finite;
mod numbers;
mod read;
mod reading;
mod row_lines;
mod rows;
mod tokens;
mod untyped;
mod writing;

pub use fault::{CellFault, JsonFault, JsonLineFault};
pub use form::Form;
pub use read::{BODY_LIMIT, MOST_ROWS, read_rows};
pub use reading::{cell_of, cells_of};
pub use row_lines::rows_text;
pub use untyped::schema_of_rows;
pub use writing::write_cell;
