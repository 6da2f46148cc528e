//! The files of whole runs: a schedule, which says what happens to the nodes of a cluster, event by event, and a script, which
//! says what clients ask of them, call by call.
//!
//! `read_schedule` and `read_script` read them from a file's bytes. What a file means is defined in `specs/ScheduleFile` and
//! `ScriptFile`, apart from how it is read; such a file is read as what it means, and no other is. `schedule_flaw` and
//! `script_flaw` tell the first thing that is wrong with another one, by `specs/Flaws`.
#![tactic(auto)]

mod event_words;
mod fault;
mod flaw;
mod json_values;
pub mod laws;
mod schedule_file;
mod script;
mod script_file;
mod script_words;
mod upload_values;

pub use fault::{ScheduleFault, ScriptFault};
pub use flaw::{ScheduleFlaw, ScriptFlaw, TextFlaw};
pub use schedule_file::{Schedule, read_schedule, schedule_flaw};
pub use script::{CallRequest, ClusterSize, Script, ScriptCall};
pub use script_file::{read_script, script_flaw};
