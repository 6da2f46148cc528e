//! Answers requests about uploads, tickets, and the tables that agreed values make. `story_requests` says what a request
//! and an answer are; a table's name is given and told as bytes.
//!
//! `upload BYTES` tells the upload that the bytes are: its table, its id, the length of its schema's header, the
//! number of its batches, and the names of its columns; or `NotAnUpload`. `ticket VERSION TABLE` gives the bytes of a
//! ticket, `none` where there is none such, and `read-ticket BYTES` the version and the table of one, or `BadTicket`.
//!
//! `new` begins with tables of no values. `take BYTES ..` hands in values, no bytes being the one for nothing, and tells how
//! many were taken in all. `outcome BYTES` tells what has become of an upload, and `tables` the names of the tables. `latest
//! TABLE` tells a table's latest version, its rows, the bytes of its answer and its schema, and `answer VERSION TABLE` the
//! frames that answer a ticket, each by itself; each `none` where there is no such version.
//!
//! Nothing is claimed here but that answering is safe and ends: what is told is promised by the crates that do it.
#![tactic(auto)]

mod asked;
mod story;
mod told;

use std::process::ExitCode;
use story::Story;
use story_requests::run;

fn main(rt: HostRuntime) -> ExitCode {
    run::<Story>(&rt)
}
