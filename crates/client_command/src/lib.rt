//! `flightd put`, `get`, `list` and `info`: the commands of a client, over any connections and writers.
//!
//! Each word has a function `.._run`, which reads its words, makes its calls, each over a connection of its own
//! ([`Connect`] of `client_connections`), prints what was told, reports a fault in a line, and gives the exit status. The
//! words of a put are read apart, by `put_words`, so that they are judged before its rows are read from a file.
//! Beneath it stands a function that gives the fault itself. What goes over each connection is that of `client_calls`
//! (`specs/Calls`), and which rows are put and printed that of `json_client`; `specs/Puts`, `Gets` and the others say
//! what is printed of it.
#![tactic(auto)]

mod asking;
mod everywhere;
mod fault;
mod fields;
mod getting;
mod informing;
mod latest;
pub mod laws;
mod listing;
mod printing;
mod putting;
mod reporting;
mod status;
mod tables;
mod visiting;
mod words;
mod writing;

pub use everywhere::{get_everywhere_at, get_everywhere_run};
pub use fault::CommandFault;
pub use getting::{get_latest_at, get_rows_at, get_run};
pub use informing::info_run;
pub use listing::list_run;
pub use putting::{put_rows_at, put_run};
pub use status::{FAILURE, NO_CALL, SUCCESS};
pub use words::{PutWords, put_words};
