//! A `FlightData` read with its bytes lent: its header and its body stay where they were received (Apache Arrow,
//! "Flight.proto", `FlightData`).
//!
//! [`LentFlightData::read`] gives what `FlightData::decode` of `proto_wire` gives and has its clauses, and copies nothing but
//! the descriptor. So the body of a batch, of up to 4 MiB, is copied once on its way into a column, out of the frame that it
//! came in.
#![tactic(auto)]

mod lent;

pub use lent::LentFlightData;
