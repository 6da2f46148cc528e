//! One call of a script, over any reader and writer, and the line that is printed of it.
//!
//! `ask` makes the call, as `client_calls` makes it, and gives what was told: an answer, or a status that is not 0. `Told::line` is
//! its line. What a call asks and what an answer tells is defined in `specs/Asking`, and the lines in `Lines`. Who plays a script
//! has a connection for each call, and asks again where `asks_again` says so:
//!
//! ```text
//! let told = ask(alloc, r, w, &call.asked)?;
//! if !asks_again(&call.asked, &told) { out.write_all(told.line(alloc, number)?.as_bytes())?; }
//! ```
#![tactic(auto)]

mod asking;
mod lines;
mod told;

pub use asking::ask;
pub use told::{Told, Unanswered, asks_again};
