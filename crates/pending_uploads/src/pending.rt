//! Uploads that wait.

ghost use Rattle.std.specs.Prelude.{◌≡◌, ℕ, ◌+◌, ◌<◌, ◌≤◌, ◌↔◌, IsTrue, List, [], ◌∷◌, ◌++◌, length};
ghost use Rattle.std.specs.Prelude.{MatchOption, OnOk};
ghost use Rattle.std.specs.List.{Contains, AllByRecursion};
ghost use Rattle.ballots.specs.declared.value.Value.{Value as Agreed};
ghost use Rattle.table_types.specs.Uploads.{Upload as Uploaded};
ghost use Rattle.table_types.specs.Texts.{IsUploadText};
ghost use Rattle.table_versions.specs.State.{HasTaken};
ghost use Rattle.table_versions.specs.Values.{AreUploadsIn};
ghost use Rattle.histories.specs.Due.{AreStillWaiting};

use crate::keyed;
use crate::keys::{Hashed, Named, find_named, is_keyed, put_keyed};
use crate::unknown::is_unknown;
use indexmap::IndexMap;
use std::alloc::{AllocError, Global};
use std::hash::RandomState;
use std::marker::Model;
use table_versions::Tables;
use uploads::{HeldUploads, Upload};

/// Uploads that wait, in the order in which they came.
#[derive(Debug)]
pub struct PendingUploads {
    hashing: RandomState,
    // The first to come, each under its id.
    named: Named,
    // All behind them, from the first on whose id stood there already: each under a hash of its encoding.
    hashed: Hashed,
    // All behind these, from the first on whose hash stood there already, as that of an upload which waits twice.
    others: Vec<Upload>,
    // How many more can be pushed without memory.
    room: usize,
}

impl Model for PendingUploads {
    ghost use Rattle.std.specs.Prelude.{◌-◌, ◌++◌, length, vec_capacity};
    ghost use Rattle.indexmap.specs.IndexMap.{values, spare};
    ghost use Rattle.pending_uploads.specs.Keys.{AreKept, HaveRoom};
    ghost use Rattle.pending_uploads.specs.Waiting.{Waiting};

    ghost Value = { Waiting };

    ghost view = { λ w. record {
      texts = values w.named ++ values w.hashed ++ w.others.items;
      room = w.room;
    } };

    ghost invariant = { λ w. AreKept w.hashing w.named.entries w.hashed.entries w.others.items
        × HaveRoom w.room (spare w.named) (spare w.hashed) (vec_capacity w.others - length w.others.items) };
}

// Written out, so that a crate above lets go of what waits by one call, and does not prove again what is inside it.
impl Drop for PendingUploads {
    fn drop(self) {
        let PendingUploads {
            hashing: _,
            named,
            hashed,
            others,
            room: _,
        } = self;
        drop(named);
        drop(hashed);
        drop(others);
    }
}

impl PendingUploads {
    /// No uploads. Clients choose their ids and their bytes: `hashing` has the random keys that keep look-ups fast
    /// whatever they choose. Memory is taken from this allocator as more of them wait.
    pub fn new(alloc: Global, hashing: RandomState) -> PendingUploads
        ensures { result.texts ≡ [] }
    {
        PendingUploads {
            hashing,
            named: IndexMap::with_hasher(alloc, hashing),
            hashed: IndexMap::with_hasher(alloc, hashing),
            others: Vec::new(alloc),
            room: 0,
        }
    }

    /// The upload that has waited longest, `None` exactly where none waits. Each that waits is an upload's encoding.
    pub fn first(&self) -> Option<&Upload>
        ensures first { MatchOption result (self.now.texts ≡ [])
            (λ first. (others : List (List ℕ)) × (self.now.texts ≡ first.now ∷ others)) }
        ensures uploads { AllByRecursion IsUploadText self.now.texts }
    {
        keyed::first(&self.named)
            .or(keyed::first(&self.hashed))
            .or(self.others.first())
    }

    /// How many uploads wait.
    pub fn len(&self) -> usize
        ensures { result ≡ length self.now.texts }
    {
        keyed::count(&self.named) + keyed::count(&self.hashed) + self.others.as_slice().len()
    }

    /// Whether none waits.
    pub fn is_empty(&self) -> bool
        ensures { IsTrue result ↔ (self.now.texts ≡ []) }
    {
        self.len() == 0
    }

    /// Whether an upload waits that has this one's encoding. It takes no memory, and its time does not grow with what
    /// waits.
    pub fn contains(&self, upload: &Upload) -> bool
        ensures { IsTrue result ↔ Contains self.now.texts upload.now }
    {
        is_keyed(&self.hashing, &self.named, &self.hashed, upload) || self.others.contains(upload)
    }

    /// Makes the room for one more upload. What waits stays, whatever the answer.
    pub fn make_room(&mut self) -> Result<(), AllocError>
        ensures made { OnOk result (0 < self.new.room) }
        ensures same { self.new.texts ≡ self.old.texts }
        ensures room { self.old.room ≤ self.new.room }
    {
        self.named.reserve(1)?;
        self.hashed.reserve(1)?;
        self.others.reserve(1)?;
        self.room = self.room.max(1);
        Ok(())
    }

    /// Lets the upload wait behind the others. It takes no memory: [`PendingUploads::make_room`] made the room.
    pub fn push(&mut self, upload: Upload)
        requires { 0 < self.old.room }
        ensures texts { self.new.texts ≡ self.old.texts ++ upload ∷ [] }
        ensures room { self.new.room + 1 ≡ self.old.room }
    {
        self.room -= 1;
        if !self.others.is_empty() {
            self.others.push_reserved(upload);
            return;
        }
        if let Err(back) = put_keyed(&self.hashing, &mut self.named, &mut self.hashed, upload) {
            self.others.push_reserved(back);
        }
    }

    /// Keeps those uploads waiting, in their order, of which these tables know nothing. It takes no memory.
    pub fn keep_unknown(&mut self, tables: &Tables)
        ensures texts { (values : List Agreed) (uploads : List Uploaded) → HasTaken tables.now values
            → AreUploadsIn values uploads → AreStillWaiting uploads self.old.texts self.new.texts }
        ensures room { self.old.room ≤ self.new.room }
    {
        keyed::keep_unknown(&mut self.named, tables);
        keyed::keep_unknown(&mut self.hashed, tables);
        self.others.retain(|upload| is_unknown(tables, upload));
    }
}

/// Each upload that waits and is found by its id: an agreed value that has its bytes is an upload, and need not be looked
/// at again.
impl HeldUploads for PendingUploads {
    fn find(&self, text: &[u8]) -> Option<&Upload> {
        find_named(&self.named, text)
    }
}
