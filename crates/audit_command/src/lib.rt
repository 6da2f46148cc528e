//! `flightd audit FILE`, and an audit that is explained, each a function over any writers.
//!
//! `audit_run` says whether a recorded run of Paxos messages, told by a file's bytes, is one that correct nodes may
//! have sent. It gives the exit status, and tells of a fault in a line. What it runs, `audit_file`, gives the
//! judgement or the fault itself, and `read_trace` the recorded run. A caller reads the file, hands over the real
//! streams, and exits with the status. `explain_run` and `explain_file` do the same, and behind `unlawful` they write why:
//! the first message that breaks the rules, which rules, and what each goes against.
#![tactic(auto)]

mod explaining;
mod judging;
pub mod laws;
mod status;
mod trace_file;

pub use explaining::{ExplainFault, explain_file, explain_run};
pub use judging::{AuditFault, LAWFUL_LINE, UNLAWFUL_LINE, audit_file, audit_run};
pub use status::{FAILURE, SUCCESS};
pub use trace_file::{MessageFlaw, TraceFault, TraceFlaw, read_trace};
