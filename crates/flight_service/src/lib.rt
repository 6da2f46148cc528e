//! The nodes of a cluster, served over TCP: a port a node, a thread a connection, and one call a connection.
//!
//! ```text
//! let (nodes, notes) = nodes_in_memory::<R, J, 3>(&rt, alloc, hashing, log)?; // their records are in memory
//! let (service, workers) = open_service(rt, alloc, nodes, NoReceipts, notes, 42_000, 3, None)?;   // node k at port 42000 + k
//! service.nodes().stop(&rt);
//! join_all(&rt, workers);
//! ```
//!
//! [`open_service`] opens a port for each node, and starts a thread for the worker of each ([`start_workers`]) and one for
//! each port ([`start_listening`]), which starts one for each connection.
//!
//! [`serve_connection`] serves one call over any reader and writer; its contract says what goes out. What a peer may hold is
//! bounded: at most [`MOST_CONNECTIONS`] calls are under way at a node, further connections wait unaccepted, and a peer that
//! lets [`SILENCE_SECONDS`] pass without a byte, or does not take [`MOST_WRITE_BYTES`] in them, is cut off ([`TimelyWriter`]). A put
//! whose peer closes its end gives its place back within [`TURN_MILLISECONDS`], and so does one that was waited for as long as the
//! service says: it ends as `Unavailable`, and its upload may still be decided.
#![tactic(auto)]

mod cluster;
mod connection;
mod fault;
mod listening;
mod opening;
mod peer;
mod places;
mod service;
mod timely;
mod works;

pub use cluster::{
    Started, config_of, nodes_in_memory, open_counting_seat, open_seat, start_nodes,
};
pub use cluster_backend::{
    AllReceipts, Beginning, Caller, Cluster, ClusterBackend, Config, Gate, Journal, NoReceipts,
    Nodes, Note, OpenGate, OwnEntry, Patient, Recent, Retention, Running, Seat, SeatFault,
    SeatInput, TURN_MILLISECONDS, Whole, audit,
};
pub use connection::{SILENCE_SECONDS, serve_connection};
pub use fault::ServiceFault;
pub use listening::{bind_all, start_listening};
pub use opening::{OpenService, join_all, open_service};
pub use places::{MOST_CONNECTIONS, Places};
pub use service::Service;
pub use timely::{MOST_WRITE_BYTES, TimelyWriter};
pub use works::{Works, start_workers};
