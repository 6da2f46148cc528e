//! One call of Arrow Flight over any reader, writer and backend (Apache Arrow, "Arrow Flight RPC").
//!
//! What a text of frames asks for as a call, and what is wrong with it, is defined in `call_reading`; `specs/Replies` has
//! what goes out for each answer of a backend, and `Serving` what serving one call gives. [`Backend`] is what stands behind
//! the calls of one connection, and names the answers that each of them may give; [`serve_call`] serves one call.
#![tactic(auto)]

mod backend;
mod describing;
mod framing;
pub mod laws;
mod outgoing;
mod responding;
mod sending;
mod serving;
mod table_description;

pub use backend::Backend;
pub use call_protocol::CallFault;
pub use serving::serve_call;
pub use table_description::TableDescription;
