//! The words of Flight calls: which method a path asks for, what a descriptor names, and with which status and text a call
//! ends.
#![tactic(auto)]

mod back_fault;
mod call_fault;
pub mod laws;
mod method;
mod names;
mod refusal;
mod results;
mod status;

pub use back_fault::BackFault;
pub use call_fault::CallFault;
pub use method::{Method, SERVICE};
pub use names::{id_digits, id_in, table_descriptor, table_in, upload_descriptor, upload_in};
pub use refusal::CallRefusal;
pub use results::result_message;
pub use status::Status;
