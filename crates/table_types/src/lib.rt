//! What uploads are, what tables a list of them makes, and the tickets that ask for a version: the definitions that uploads
//! and tables are proved against, and the tickets themselves.
//!
//! `Uploads` has an upload and its encoding, `Valid` which uploads are taken, `Texts` which of them a list of texts holds,
//! and `Served` the messages of Arrow Flight that a client is handed of one; `Tables` has the uploads of a list that count,
//! the versions of a table, and what becomes of an upload; `Answers` the bytes that answer a ticket.
//!
//! A ticket is the bytes by which a client asks for a version of a table (Apache Arrow, "Flight.proto", `Ticket`): a message of
//! two fields, the table's name and the version's number, in its one written encoding, which `specs/Ticket` defines. So the same
//! version has the same bytes, whoever made them: [`Ticket::decode`] takes these alone, and [`Ticket::encode`] gives them. A
//! [`Ticket`] that is held names a version that there can be: a name as tables have it ([`is_table_name`]), and a number from
//! 1 on.
//!
//! The functions of `laws` do nothing: their contracts are laws of the definitions.
#![tactic(auto)]

mod fault;
pub mod laws;
mod names;
mod reading;
mod ticket;

pub use fault::TicketFault;
pub use names::{MAX_TABLE_NAME_BYTES, is_table_name};
pub use ticket::Ticket;
