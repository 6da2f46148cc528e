//! `flightd serve`, a function over any writers.
//!
//! `serve_run` opens a port for each node of a cluster, starts their workers, says where each node is served, and serves
//! until it is ended from outside. It gives the exit status, and reports a fault in a line. The nodes keep their records in
//! the files of a folder, so that a process that ends at any moment loses none that a node answered for, and a later one can go
//! on over them: what was acknowledged is served again as soon as the ports are open. Beside its records each node has a file of
//! their sums, so that bytes which changed on the medium are found.
#![tactic(auto)]

mod addresses;
mod advice;
mod backoff;
mod fault;
mod new_nodes;
mod progress;
mod restarting;
mod serving;
mod status;
mod stores;
mod supervisor;

pub use addresses::tell_addresses;
pub use fault::ServeFault;
pub use serving::{ServeOptions, serve, serve_again, serve_run};
pub use status::{FAILURE, SUCCESS};
pub use stores::FileStore;
