//! What the story programs share: reading requests, and printing answers.
//!
//! A request is a line of words with one space between: what is asked, and then its arguments. A number is written in
//! decimal digits, bytes as hexadecimal digits, with `-` for none. The answer is a line of such words too: numbers,
//! bytes, and names, as those of faults. A program reads requests to the end of its standard input, and answers each.
//! `tools/stories.py` makes them of the commands of story files, and compares what is answered with what stands there.
//!
//! Nothing is claimed here but that answering is safe and ends: what is answered is promised by the crates that do it.
#![tactic(auto)]

mod answering;
mod fault;
mod response;
mod words;

pub use answering::{Answers, run};
pub use fault::RequestFault;
pub use response::Response;
pub use words::Words;
