//! What a seat did itself.

ghost use Rattle.std.specs.Prelude.{◌≡◌, ◌↔◌, ◌<◌, IsTrue, IsSome, [], ◌∷◌, ◌++◌, length, true, false, OnOk, vec_len, vec_capacity};
ghost use Rattle.std.specs.Option.{IfSome};
ghost use Rattle.seats.specs.Compact.{IsDone};
ghost use Rattle.seats.specs.OwnLists.{LastsAsBefore};

use crate::compact_entry::CompactEntry;
use ballots::NodeId;
use http_server::Log;
use journal::OwnEntry;
use std::alloc::{AllocError, Global};
use std::marker::Model;

// So many entries there are at most.
const MOST: u64 = 1 << 62;

/// How many entries there are, which contracts alone see.
#[derive(Drop)]
pub(crate) struct CountedEntries {
    count: u64,
    log: Log<OwnEntry, bool>,
}

impl Model for CountedEntries {
    ghost use Rattle.std.specs.Prelude.{◌≡◌, ◌-◌, ◌^◌, length};
    ghost use Rattle.seats.specs.OwnLists.{Counting, entries_of};

    ghost Value = { Counting };

    ghost view = { λ c. record { entries = entries_of c.log.items; room = 2 ^ 62 - c.count } };

    ghost invariant = { λ c. c.count ≡ length c.log.items };
}

impl CountedEntries {
    // None.
    fn new() -> CountedEntries
        ensures { result.entries ≡ [] }
    {
        CountedEntries {
            count: 0,
            log: Log::new(),
        }
    }

    // How many there are.
    fn len(&self) -> u64
        ensures { result ≡ length self.now.entries }
    {
        self.count
    }

    // Whether there is room for one more.
    fn has_room(&self) -> bool
        ensures { IsTrue result ↔ (0 < self.now.room) }
    {
        self.count < MOST
    }

    // One more.
    fn push(&mut self, entry: &OwnEntry)
        requires { 0 < self.old.room }
        ensures { self.new.entries ≡ self.old.entries ++ entry.now ∷ [] }
    {
        self.log = self.log.and(entry, &true);
        self.count += 1;
    }
}

#[derive(Drop)]
enum Either {
    Held(Vec<CompactEntry>),
    Counted(CountedEntries),
}

/// The list of what a node did itself: held, or counted alone. Contracts see the entries of either.
#[derive(Drop)]
pub(crate) struct OwnEntries {
    list: Either,
}

impl Model for OwnEntries {
    ghost use Rattle.seats.specs.OwnLists.{OwnList};
    ghost use Rattle.seats.specs.OwnListsSeen.{own_list};

    ghost Value = { OwnList };

    ghost view = { λ o. own_list o.list };
}

impl OwnEntries {
    /// None, of a list that is held.
    pub(crate) fn held(alloc: Global) -> OwnEntries
        ensures entries { result.entries ≡ [] }
        ensures keeps { result.keeps ≡ true }
    {
        OwnEntries {
            list: Either::Held(Vec::new(alloc)),
        }
    }

    /// None, of a list that is counted.
    pub(crate) fn counted() -> OwnEntries
        ensures entries { result.entries ≡ [] }
        ensures keeps { result.keeps ≡ false }
    {
        OwnEntries {
            list: Either::Counted(CountedEntries::new()),
        }
    }

    /// How many entries there are.
    pub(crate) fn len(&self) -> u64
        ensures { result ≡ length self.now.entries }
    {
        match &self.list {
            Either::Held(entries) => entries.len() as u64,
            Either::Counted(entries) => entries.len(),
        }
    }

    /// The entries, where they are held.
    pub(crate) fn entries(&self) -> Option<&[CompactEntry]>
        ensures entries { IfSome result (λ entries. entries.now ≡ self.now.entries) }
        ensures some { IsSome result ↔ IsTrue self.now.keeps }
    {
        match &self.list {
            Either::Held(entries) => Some(entries.as_slice()),
            Either::Counted(_) => None,
        }
    }

    /// Makes room for one entry more. [`AllocError`] says that there is none.
    pub(crate) fn reserve(&mut self) -> Result<(), AllocError>
        ensures room { OnOk result (0 < self.new.room) }
        ensures same { LastsAsBefore self.old self.new }
    {
        match &mut self.list {
            Either::Held(entries) => entries.reserve(1),
            Either::Counted(entries) if entries.has_room() => Ok(()),
            Either::Counted(_) => Err(AllocError),
        }
    }

    /// Puts an entry of this node behind the others, where there is room for it.
    pub(crate) fn push(&mut self, me: NodeId, entry: OwnEntry)
        requires room { 0 < self.old.room }
        requires done { IsDone me entry }
        ensures entries { self.new.entries ≡ self.old.entries ++ entry ∷ [] }
        ensures keeps { self.new.keeps ≡ self.old.keeps }
    {
        match &mut self.list {
            Either::Held(entries) => push_held(entries, CompactEntry::of(me, entry)),
            Either::Counted(entries) => {
                entries.push(&entry);
                drop(entry);
            }
        }
    }
}

// Puts an entry behind the others, where there is room for it.
fn push_held(entries: &mut Vec<CompactEntry>, entry: CompactEntry)
    requires { vec_len entries.old < vec_capacity entries.old }
    ensures { entries.new.items ≡ entries.old.items ++ entry ∷ [] }
{
    match entries.push(entry) {
        Ok(()) => {}
        Err(_) => unreachable!(),
    }
}
