//! The tables of a node: which versions the agreed values have made, and what is told of an upload.
//!
//! The nodes agree on one list of values, and the tables are what its first so many values make. `table_types` defines
//! which uploads count, which version each makes and what answers a ticket, all of it of the whole list; here is what a
//! node keeps to tell it fast. A caller hands the values in as the list grows, in two steps, of which the second cannot
//! fail:
//!
//! ```text
//! let ready = tables.ready(values)?;   // makes all room, and changes nothing that is told
//! keep(record)?;                       // whatever has to be kept before
//! tables.apply(ready);                 // takes the values, and no memory
//! tables.outcome(&upload);             // what is told of an upload from now on
//! tables.answer(&ticket)?;             // the frames of a version
//! ```
//!
//! `HasTaken tables values` in `specs/State` says that the tables hold what this list makes. [`Tables::apply`] takes it
//! from one list to that list and the values behind it, and every answer is told over the uploads of such a list
//! (`AreUploadsIn` in `specs/Values`): values for nothing and bytes that are no upload's encoding add none.
//!
//! `outcome` and `latest` take the time of a look-up, `ready` and `apply` time in proportion to the new values, and
//! `answer` in proportion to the number of frames, which answers share. The keys of the maps are ids and names that clients choose,
//! so they are hashed with random keys, which [`Tables::new`] is given.
#![tactic(auto)]

mod answer;
mod answering;
mod first;
mod frame_key;
mod framing;
mod info;
pub mod laws;
mod ledger;
mod listing;
mod outcome;
mod placing;
mod prepared;
mod preparing;
mod ready;
mod shape;
mod steps;
mod table;
mod tables;
mod upload_frames;

pub use answer::Answer;
pub use info::TableInfo;
pub use outcome::Outcome;
pub use ready::Ready;
pub use table_types::Ticket;
pub use tables::{MAX_VALUES, Tables};
