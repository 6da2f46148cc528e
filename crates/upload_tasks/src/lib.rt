//! Uploads that are read, tables that take them, and whole nodes that decide them, over and over, to be timed and measured
//! from outside.
//!
//! A task is handed the bytes of uploads, each behind its length in four bytes, the lowest first. A run of nodes has before
//! them how many members there are and how many slots, each in four bytes too; its events are those of a leader that loses
//! no message. A task gives a sum modulo 2^64 to which every repetition adds its part, so that it can be compared with
//! that of another program.
#![tactic(auto)]

mod events;
mod plan;
mod running;
mod runs;
mod tables;
mod values;
mod weights;

pub use running::{compare_often, seat_often};
pub use runs::run_often;
pub use tables::{answer_often, decode_uploads, hold_all, take_often};
