//! `flightd script FILE`, a function over any writers.
//!
//! `script_run` reads a script from a file's bytes, serves a cluster of its own, makes the script's calls of it over loopback, one
//! after the other, and writes a line for each; the last line says whether the cluster's journal confirms all that the nodes
//! answered. It gives the exit status, and reports a fault in a line; of a file that tells no script a second line says what is
//! wrong with it. The script is read by `read_script` of `run_files`, and each call is made by `ask` of `script_calls`.
#![tactic(auto)]

mod calling;
mod fault;
mod playing;
mod status;

pub use calling::{FIRST_PORT, MOST_TRIES};
pub use fault::{PlayFault, Unplayed};
pub use playing::{script_file, script_run};
pub use status::{FAILURE, SUCCESS};
