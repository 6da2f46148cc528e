//! The folder of a cluster's records: whether a server may start over it, its files, and who they belong to.
//!
//! Node k keeps its records in the file `node-k.rec`, and the sums of its records in the file `node-k.sum`; the file
//! `cluster.json` says whose files they are. [`open_folder`] opens them for a server that starts anew, or goes on over what an
//! earlier one left; then it is seen first that none of the files of records is missing, cut or another's. A file of sums that
//! is missing is made, and what one says is left to whoever keeps it. [`put_down`] writes what the cluster is, once the nodes
//! have started.
//!
//! What files hold no contract can say, so what is decided of them stands in functions whose contracts can: over the lengths of
//! files ([`judge`]), and over a disk that tells its content, as one over a real file does not ([`mark_of_file`],
//! [`check_mark`]). The rest is thin. [`laws`] says what follows from the definition of what [`judge`] gives.
#![tactic(auto)]

mod advice;
mod fault;
mod files;
mod folder;
mod gates;
mod identity;
mod judging;
pub mod laws;
mod marking;
mod opening;
mod paths;
mod reading;

pub use advice::advise;
pub use fault::FolderFault;
pub use identity::put_down;
pub use judging::{FolderState, MOST_NODES, judge};
pub use marking::{check_mark, mark_of_file};
pub use opening::{OpenFolder, open_folder};
pub use reading::{node_files, read_folder};
