//! The uploads that wait at a node until something is known of them.
//!
//! A node that is handed an upload has to have it agreed on, and attempts that as time passes: the upload that has waited
//! longest comes first. An upload waits until the tables of the node tell something of it, be it that it counts or that
//! it never will.
//!
//! An upload is taken in two steps, of which the second cannot fail:
//!
//! ```text
//! waiting.contains(&upload);       // whether it waits already
//! waiting.make_room()?;            // makes the room for one more; what waits stays
//! keep(..)?;                       // whatever has to be kept before
//! waiting.push(upload);            // takes no memory
//! waiting.first();                 // the one that has waited longest
//! waiting.keep_unknown(&tables);   // once the tables tell more; takes no memory either
//! ```
//!
//! However many wait, `contains`, `push` and `first` take the time of a look-up, and so does `make_room` but where a table
//! has to grow. An upload is looked up by its id. Clients choose ids, and may give one id to several uploads: from
//! the first on whose id another has that waits, uploads are looked up by a hash of their encodings, so that `contains`
//! and `push` take time in proportion to the encoding. Names and encodings are hashed with random keys, which
//! [`PendingUploads::new`] is given. `keep_unknown` asks the tables of each that waits.
#![tactic(auto)]

mod keyed;
mod keys;
mod pending;
mod unknown;

pub use pending::PendingUploads;
