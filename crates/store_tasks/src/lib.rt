//! Records that are kept in a file and recalled from it over and over, to be timed and measured from outside.
//!
//! A task is handed a file of records, as `disk_records` defines one. It gives a sum modulo 2^64 to which every
//! repetition adds its part, so that it can be compared with that of another program. What is kept and recalled is
//! promised by `disk_records`; that a real file is a disk as it describes one is not proved.
#![tactic(auto)]

mod opening;
mod storing;

pub use storing::{keep_often, recall_often};
