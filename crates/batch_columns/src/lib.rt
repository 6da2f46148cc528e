//! The columns of batches: as values that are held, and as the header and the body of a batch have them.
//!
//! A [`Column`] keeps its buffers as they are written (Apache Arrow, "Arrow Columnar Format", "Physical memory layout"), and a
//! [`Batch`] has a number of rows and its columns; [`are_of`] tells whether columns are of some fields. The module `Sources` of
//! `specs/` has the columns that a header lists for some fields, depth first, as a function of its whole lists ("RecordBatch
//! message"), and `Read` what is read of one of them. A [`Place`] says how many nodes and buffers stand before a column,
//! [`place_behind`] how many stand before what follows the columns of some fields, and [`encoded_column_at`] reads the column
//! of a field there, without memory. Whether a buffer is long enough, and what it holds, is not looked at here. Offsets of all
//! crates are read by [`offset_at`] and [`start_at`], and written by [`put_offset`].
//!
//! The function of `laws` does nothing: its contract is a law of the definitions.
#![tactic(auto)]

mod batch;
mod building;
mod cells;
mod column;
mod copy;
mod counts;
mod encoded_column;
mod equal;
mod fault;
mod fitting;
pub mod laws;
mod layout;
mod offsets;
mod place;

pub use batch::Batch;
pub use column::Column;
pub use counts::{ROWS_LIMIT, VALUES_LIMIT, limits_are_those_of_batches};
pub use encoded_column::{EncodedColumn, encoded_column_at};
pub use fault::ColumnFault;
pub use fitting::{are_of, layout_of};
pub use layout::Layout;
pub use offsets::{offset_at, put_offset, start_at};
pub use place::{Place, buffers_in, place_behind};
