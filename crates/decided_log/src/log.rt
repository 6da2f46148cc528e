ghost use Rattle.std.specs.Prelude.{◌≡◌, ℕ, ◌+◌, ◌-◌, ◌<◌, ◌≤◌, ◌⊎◌, List, [], ◌∷◌, ◌++◌, Option, length, min};
ghost use Rattle.std.specs.Prelude.{◌↔◌, IsTrue, IfOk, OnOk, OnErr};
ghost use Rattle.ballots.specs.declared.value.Value.{Value as Decision};
ghost use Rattle.decided_log.specs.Decided.{Inserts, Holds, IsSame, IsPrefix, IsKnownBehind};
ghost use Rattle.decided_log.specs.Asked.{asked_of};
ghost use Rattle.decided_log.specs.LogState.{decided_at};

use crate::copies::{decided_from, prefix_growth};
use crate::steps::put;
use ballots::{Message, NodeId, OutOfMemory, Slot, Value};
use indexmap::IndexMap;
use std::alloc::Global;
use std::marker::Model;

/// The most messages that [`DecidedLog::asked`] answers with.
pub const MAX_ASKED: usize = 16;

/// The values that a node knows to be decided, one for each slot at most.
#[derive(Debug, Drop)]
pub struct DecidedLog {
    node: NodeId,
    alloc: Global,
    prefix: Vec<Value>,
    later: IndexMap<Slot, Value>,
}

impl Model for DecidedLog {
    ghost use Rattle.decided_log.specs.LogState.{LogState};

    ghost Value = { LogState };

    ghost use Rattle.std.specs.Prelude.{vec_capacity};
    ghost use Rattle.indexmap.specs.IndexMap.{spare};
    ghost use Rattle.decided_log.specs.LogState.{room_of};
    ghost use Rattle.decided_log.specs.Keeping.{IsKept};

    ghost view = { λ l. record {
      node = l.node;
      prefix = l.prefix.items;
      later = l.later.entries;
      room = room_of l.prefix.items l.later.entries (vec_capacity l.prefix) (spare l.later);
    } };

    ghost invariant = { λ l. IsKept l.prefix.items l.later.entries (vec_capacity l.prefix) };
}

impl DecidedLog {
    /// The log of this node, which knows no decided value. It takes memory from this allocator as it grows.
    pub fn new(alloc: Global, node: NodeId) -> DecidedLog
        ensures node { result.node ≡ node }
        ensures empty { Holds [] (decided_at result) }
    {
        DecidedLog {
            node,
            alloc,
            prefix: Vec::new(alloc),
            later: IndexMap::new(alloc),
        }
    }

    /// The values of the slots 0, 1, .. up to the first slot that has none (section 3).
    pub fn prefix(&self) -> &[Value]
        ensures { IsPrefix (decided_at self.now) result.now }
    {
        self.prefix.as_slice()
    }

    /// Whether a value is known for a slot behind the first that has none, as those of slots 138 and 139 where 135 has
    /// none (section 3). Nothing is searched.
    pub fn has_gap(&self) -> bool
        ensures { (prefix : List Decision) → IsPrefix (decided_at self.now) prefix
            → IsTrue result ↔ IsKnownBehind (decided_at self.now) (length prefix) }
    {
        !self.later.is_empty()
    }

    /// Keeps the value for the slot, or drops it where the slot has one. It takes no memory: `gain` makes the room. The
    /// values that the prefix grows by are moved once, whatever the log holds.
    pub fn insert(&mut self, slot: Slot, value: Value)
        requires { 0 < self.old.room }
        ensures inserts { Inserts (decided_at self.old) (decided_at self.new) slot value }
        ensures after_all { (inserts : List (ℕ × Decision)) → Holds inserts (decided_at self.old)
            → Holds (inserts ++ (slot, value) ∷ []) (decided_at self.new) }
        ensures room { self.old.room ≤ self.new.room + 1 }
        ensures node { self.new.node ≡ self.old.node }
    {
        put(&mut self.prefix, &mut self.later, slot, value);
    }

    /// The values by which the prefix would grow by `insert` with this slot and this value, copied, in the order of
    /// their slots: none where the slot is not the prefix's end. Nothing changes, but there is room for that insert
    /// then. Memory can be refused only where there was no room yet, or where there are such values.
    pub fn gain(&mut self, slot: Slot, value: &Value) -> Result<Vec<Value>, OutOfMemory>
        ensures gain { IfOk result (λ values. (prefix : List Decision) → IsPrefix (decided_at self.old) prefix
            → (after : ℕ → Option Decision) → Inserts (decided_at self.old) after slot value.now
            → IsPrefix after (prefix ++ values.items)) }
        ensures ready { OnOk result (0 < self.new.room) }

        // Whatever it answers, what is decided stays, and no room is lost.
        ensures same { IsSame (decided_at self.old) (decided_at self.new) }
        ensures node { self.new.node ≡ self.old.node }
        ensures room { self.old.room ≤ self.new.room }
        ensures memory { OnErr result ((prefix : List Decision) → IsPrefix (decided_at self.old) prefix
            → (self.old.room ≡ 0) ⊎ (slot ≡ length prefix)) }
    {
        self.prefix.reserve(self.later.len() + 1)?;
        self.later.reserve(1)?;
        if slot.number() as usize != self.prefix.len() {
            return Ok(Vec::new(self.alloc));
        }
        prefix_growth(self.alloc, &self.later, slot, value)
    }

    /// What this node answers to one that asks for what is decided from the slot on: a `Decided` for each slot of the
    /// prefix from there on, the first [`MAX_ASKED`] of them (section 2.3). Memory can be refused only where the prefix
    /// has such a slot.
    pub fn asked(&self, from: Slot) -> Result<Vec<Message>, OutOfMemory>
        ensures messages { IfOk result (λ messages. (prefix : List Decision) → IsPrefix (decided_at self.now) prefix
            → messages.items ≡ asked_of self.now.node prefix from) }
        ensures count { IfOk result (λ messages. (prefix : List Decision) → IsPrefix (decided_at self.now) prefix
            → length messages.items ≡ min 16 (length prefix - from)) }
        ensures memory { OnErr result ((prefix : List Decision) → IsPrefix (decided_at self.now) prefix
            → from < length prefix) }
    {
        let len = self.prefix.len();
        let start = len.min(from.number() as usize);
        let end = len.min(start + MAX_ASKED);
        decided_from(self.alloc, self.node, from, &self.prefix[start..end])
    }
}
