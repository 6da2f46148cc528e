//! `flightd records FILE` and `flightd records DIR`, functions over any writers.
//!
//! `records_run` reads a node's file of records from its bytes, as a store on a disk does, and writes a line for each record;
//! `folder_run` reads the files of all nodes of a cluster, and writes what a server that resumes over them would serve. They give
//! the exit status, and report a fault in a line; of a file that is damaged a second line says where. What they run, `show_records`
//! and `show_folder`, gives the fault itself.
#![tactic(auto)]

mod fault;
mod folder;
mod lines;
mod showing;
mod status;

pub use fault::{ShowFault, ShowFolderFault};
pub use folder::{folder_run, show_folder};
pub use showing::{records_run, show_records};
pub use status::{FAILURE, SUCCESS};
