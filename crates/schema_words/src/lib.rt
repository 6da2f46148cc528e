//! The words of a schema, as a person reads and writes them.
//!
//! A field is its name, a colon and the words of its type, as in `sold: int64`; where it may hold no null, `not null` stands
//! behind them. [`field_words`] writes the words of a field of any type, and [`schema_of_words`] reads those of a schema whose
//! fields have nothing inside them. `specs/Spelling` has the words of each type; `clients/python/felzoren.py` reads and writes them
//! too.
#![tactic(auto)]

mod fault;
pub mod laws;
mod plain;
mod reading;
mod writing;

pub use fault::SchemaWordsFault;
pub use plain::{plain_type, plain_words};
pub use reading::schema_of_words;
pub use writing::field_words;
