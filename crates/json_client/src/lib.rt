//! A client's calls over rows as lines of JSON: [`put_rows`] uploads the rows that lines tell, and [`get_rows`] writes the lines of
//! a version's rows.
//!
//! Each is one call on one connection, over any reader and writer, as those of `client_calls` are; which lines tell which rows is
//! that of `json_rows`. `specs/Puts` has which upload is made of lines, and `specs/Prints` which lines are written of a version.
#![tactic(auto)]

mod fault;
mod getting;
mod making;
mod printing;
mod putting;

pub use fault::RowCallFault;
pub use getting::get_rows;
pub use making::upload_of_rows;
pub use printing::write_rows;
pub use putting::put_rows;
