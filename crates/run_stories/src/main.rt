//! Answers requests about runs: what happens to some nodes, event by event, and what each event gives. `story_requests`
//! says what a request and an answer are.
//!
//! `nodes COUNT SLOTS` begins with so many nodes, which agree on values for so many slots. `upload BYTES` numbers an
//! upload, from 0 on. The events that follow have the words of schedules: `put NODE UPLOAD`, `tick NODE LEFT`,
//! `deliver NODE NUMBER`, `tickcut NODE LEFT`, `delivercut NODE NUMBER`, `restart NODE`, `get NODE TABLE VERSION`,
//! `info NODE TABLE`, `outcome NODE UPLOAD`. They give nothing yet. `play` lets them happen from the first on, and tells
//! what each gave, of an answer its bytes. `messages` lets them happen too, and tells whether the messages that were sent are
//! lawful, and the bytes of each.
//!
//! Nothing is claimed here but that answering is safe and ends: what is told is promised by the crates that do it.
#![tactic(auto)]

mod asked;
mod story;
mod told;

use std::process::ExitCode;
use story::Story;
use story_requests::run;

fn main(rt: HostRuntime) -> ExitCode {
    run::<Story>(&rt)
}
