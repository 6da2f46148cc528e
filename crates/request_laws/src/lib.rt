//! What a client writes for a call is the call that it means, as a service reads it (Apache Arrow, "Arrow Flight RPC",
//! "RPC Methods and Request Patterns"); and bytes that are no call
//! are always refused at the same offset.
//!
//! What a client writes is defined in `client_calls`, and what a text asks for as a call in `call_reading`, apart from
//! each other; so are the versions that uploads make, in `table_types`, and those that are served, in `downloads`. Here
//! they are held together: there is no code, but the laws.
#![tactic(auto)]

pub mod laws;
