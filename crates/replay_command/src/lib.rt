//! `flightd replay FILE`, a function over any writers.
//!
//! `replay_run` reads a schedule from a file's bytes, applies its events to nodes of its own, one after the other, and
//! writes a line for each. It gives the exit status, and reports a fault in a line; of a file that tells no schedule a second
//! line says what is wrong with it. What it runs, `replay_file`, gives the fault itself; the schedule is read by
//! `read_schedule` of `run_files`. A caller reads the file, hands over the real streams, and exits with the status.
#![tactic(auto)]

mod fault;
mod lines;
mod replaying;
mod status;

pub use fault::ReplayFault;
pub use replaying::{replay_file, replay_run};
pub use run_files::{
    Schedule, ScheduleFault, ScheduleFlaw, TextFlaw, read_schedule, schedule_flaw,
};
pub use status::{FAILURE, SUCCESS};
