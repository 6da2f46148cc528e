//! What a learner holds, and the steps of its calls. A step may leave what no list of calls does, as between the
//! tallies that it drops and the value that it puts; the calls of the learner never do.

ghost use Rattle.std.specs.Prelude.{false, IsSome, ◌≡◌, ℕ, ◌<◌, ◌↔◌, [], ◌∷◌, ◌++◌, List, Option, None, Some};
ghost use Rattle.std.specs.Prelude.{IsTrue, IfOk, OnOk, OnErr, nat_eq};
ghost use Rattle.std.specs.Option.{option_map, option_or};
ghost use Rattle.indexmap.specs.IndexMap.{get, spare, IsUnchanged};
ghost use Rattle.ballots.specs.Ballot.{Ballot as Pair, is_same_ballot};
ghost use Rattle.ballots.specs.Majority.{contains};
ghost use Rattle.ballots.specs.Slots.{OthersStay};
ghost use Rattle.ballots.specs.declared.value.Value.{Value as Held};
ghost use Rattle.learner.specs.Calls.{LearnerCall, Accepted, Decided, Learns};
ghost use Rattle.learner.specs.State.{decided_at, first_at, tally_in, tally_at, voted_at};
ghost use Rattle.learner.specs.State.{HasRoomToLearn, HasRoomToCount, HasRoomForTally, HasRoomForVote};
ghost use Rattle.learner.specs.Learned.{StateAfter, IsSame};
ghost use Rattle.learner.specs.Changes.{Counts, CountsIn, Drops, Puts, IsChosenWith, LearnsNow, DecidedNow};

use crate::tally::Tally;
use ballots::{Ballot, Members, NodeId, NodeSet, OutOfMemory, Slot, Value};
use indexmap::IndexMap;
use std::alloc::Global;
use std::marker::Model;

/// The tallies of one slot, by ballot.
type Tallies = IndexMap<Ballot, Tally>;

/// The value of each slot that was learned, and of the others what was counted.
#[derive(Drop)]
pub(crate) struct State {
    members: Members,
    learned: IndexMap<Slot, Value>,
    tallies: IndexMap<Slot, Tallies>,
}

impl Model for State {
    ghost use Rattle.learner.specs.State.{LearnerState, state_code};

    ghost Value = { LearnerState };

    ghost use Rattle.std.specs.Coded.{codes};

    ghost coded = { state_code (Prim.hlevel codes) (Prim.hlevel codes) (Prim.hlevel codes) (Prim.hlevel codes) };

    ghost view = { λ l. record { members = l.members; learned = l.learned; tallies = l.tallies } };
}

impl State {
    /// Nothing was told, of these members.
    pub(crate) fn new(alloc: Global, members: Members) -> State
        ensures { StateAfter members [] result }
    {
        State {
            members,
            learned: IndexMap::new(alloc),
            tallies: IndexMap::new(alloc),
        }
    }

    /// The value that the slot has learned.
    pub(crate) fn decided(&self, slot: Slot) -> Option<&Value>
        ensures { option_map (λ value. value.now) result ≡ decided_at self.now slot }
    {
        self.learned.get(&slot)
    }

    /// What [`State::on_decided`] makes learned, with the room for it.
    pub(crate) fn see_on_decided(
        &mut self,
        slot: Slot,
        value: &Value,
    ) -> Result<Option<Value>, OutOfMemory>
        ensures room { OnOk result (HasRoomToLearn self.new slot) }
        ensures told { IfOk result (λ told. (n : ℕ) (calls : List LearnerCall) → StateAfter n calls self.old
            → Learns n calls (Decided slot value.now) slot told) }
        ensures now { IfOk result (DecidedNow (decided_at self.old slot) value.now) }
        ensures same { IsSame self.old self.new }
        ensures memory { OnErr result (decided_at self.old slot ≡ None) }
    {
        if !self.is_open(slot) {
            return Ok(None);
        }
        self.learned.reserve(1)?;
        Ok(Some(copy_of(value)?))
    }

    /// Learns the value, where the slot has learned none.
    pub(crate) fn on_decided(&mut self, slot: Slot, value: Value)
        requires { HasRoomToLearn self.old slot }
        ensures learned { (n : ℕ) (calls : List LearnerCall) → StateAfter n calls self.old
            → StateAfter n (calls ++ Decided slot value ∷ []) self.new }
        ensures here { decided_at self.new slot ≡ option_or (decided_at self.old slot) (Some value) }
        ensures others { OthersStay (decided_at self.old) (decided_at self.new) slot }
    {
        if self.is_open(slot) {
            self.learn(slot, value);
        }
    }

    /// What [`State::on_accepted`] makes learned, with the room for it.
    pub(crate) fn see_on_accepted(
        &mut self,
        acceptor: NodeId,
        slot: Slot,
        ballot: Ballot,
        value: &Value,
    ) -> Result<Option<Value>, OutOfMemory>
        ensures room { OnOk result (HasRoomForVote self.new acceptor slot ballot) }
        ensures told { IfOk result (λ told. (n : ℕ) (calls : List LearnerCall) → StateAfter n calls self.old
            → Learns n calls (Accepted acceptor slot ballot value.now) slot told) }
        ensures now { IfOk result (λ told. LearnsNow self.old acceptor slot ballot value.now told) }
        ensures same { IsSame self.old self.new }
        ensures memory { OnErr result ((acceptor < self.old.members) × (decided_at self.old slot ≡ None)) }
    {
        if !self.is_open_to(acceptor, slot) {
            return Ok(None);
        }
        self.make_room(slot, ballot)?;
        if !self.is_chosen_with(acceptor, slot, ballot) {
            return Ok(None);
        }
        let first = self.first(slot, ballot).unwrap_or(value);
        Ok(Some(copy_of(first)?))
    }

    /// Counts the acceptor, and learns where those counted are a majority.
    pub(crate) fn on_accepted(&mut self, acceptor: NodeId, slot: Slot, ballot: Ballot, value: Value)
        requires { HasRoomForVote self.old acceptor slot ballot }
        ensures learned { (n : ℕ) (calls : List LearnerCall) → StateAfter n calls self.old
            → StateAfter n (calls ++ Accepted acceptor slot ballot value ∷ []) self.new }
        ensures here { (told : Option Held) → LearnsNow self.old acceptor slot ballot value told
            → decided_at self.new slot ≡ option_or (decided_at self.old slot) told }
        ensures stays { (v : Held) → decided_at self.old slot ≡ Some v → decided_at self.new slot ≡ Some v }
        ensures others { OthersStay (decided_at self.old) (decided_at self.new) slot }
    {
        if !self.is_open_to(acceptor, slot) {
            return;
        }
        if self.is_chosen_with(acceptor, slot, ballot) {
            let first = self.take_first(slot, ballot).unwrap_or(value);
            self.learn(slot, first);
        } else {
            self.count(acceptor, slot, ballot, value);
        }
    }

    // Whether what the acceptor tells of the slot counts: it is a member, and the slot has learned no value.
    fn is_open_to(&self, acceptor: NodeId, slot: Slot) -> bool
        ensures { IsTrue result ↔ ((acceptor < self.now.members) × (decided_at self.now slot ≡ None)) }
    {
        self.members.have(acceptor) && self.is_open(slot)
    }

    // Whether the slot has learned no value.
    fn is_open(&self, slot: Slot) -> bool
        ensures { IsTrue result ↔ (decided_at self.now slot ≡ None) }
    {
        !self.learned.contains_key(&slot)
    }

    fn tally(&self, slot: Slot, ballot: Ballot) -> Option<&Tally>
        ensures { option_map (λ tally. tally.now) result ≡ tally_at self.now slot ballot }
    {
        self.tallies.get(&slot)?.get(&ballot)
    }

    // The value of the first that was counted at the slot and ballot.
    fn first(&self, slot: Slot, ballot: Ballot) -> Option<&Value>
        ensures { option_map (λ value. value.now) result ≡ first_at self.now slot ballot }
    {
        Some(&self.tally(slot, ballot)?.value)
    }

    // Who was counted at the slot and ballot.
    fn votes(&self, slot: Slot, ballot: Ballot) -> NodeSet
        ensures { (member : ℕ) → contains result member ≡ voted_at self.now slot ballot member }
    {
        match self.tally(slot, ballot) {
            Some(tally) => tally.voted,
            None => NodeSet::new(),
        }
    }

    // Whether with this acceptor's vote a majority is counted at the slot and ballot.
    fn is_chosen_with(&self, acceptor: NodeId, slot: Slot, ballot: Ballot) -> bool
        ensures { IsTrue result ↔ IsChosenWith self.now acceptor slot ballot }
    {
        let votes = self.votes(slot, ballot).with(acceptor);
        self.members.are_majority(votes)
    }

    // Makes room for a value at the slot, and for a tally at the slot and ballot.
    fn make_room(&mut self, slot: Slot, ballot: Ballot) -> Result<(), OutOfMemory>
        ensures learned { OnOk result (0 < spare self.new.learned) }
        ensures tallies { OnOk result (HasRoomToCount self.new slot ballot) }
        ensures same { IsSame self.old self.new }
    {
        self.learned.reserve(1)?;
        self.make_tallies(slot)?;
        self.reserve_tally(slot, ballot)
    }

    // Makes room for a tally at the slot and ballot, where the slot has its tallies.
    fn reserve_tally(&mut self, slot: Slot, ballot: Ballot) -> Result<(), OutOfMemory>
        requires { IsSome (get nat_eq self.old.tallies slot) }
        ensures room { OnOk result (HasRoomToCount self.new slot ballot) }
        ensures learned { self.new.learned ≡ self.old.learned }
        ensures same { IsSame self.old self.new }
    {
        match self.tallies.get_mut(&slot) {
            Some(tallies) => make_tally_room(tallies, ballot),
            None => unreachable!(),
        }
    }

    // Puts empty tallies, with room for one, where the slot has none.
    fn make_tallies(&mut self, slot: Slot) -> Result<(), OutOfMemory>
        ensures here { OnOk result (IsSome (get nat_eq self.new.tallies slot)) }
        ensures learned { self.new.learned ≡ self.old.learned }
        ensures same { IsSame self.old self.new }
    {
        if self.tallies.contains_key(&slot) {
            return Ok(());
        }
        let tallies = IndexMap::with_capacity(*self.tallies.allocator(), 1)?;
        let None = self.tallies.insert(slot, tallies)? else {
            unreachable!()
        };
        Ok(())
    }

    // Puts the value at the slot, which has none, and drops its tallies.
    fn learn(&mut self, slot: Slot, value: Value)
        requires none { decided_at self.old slot ≡ None }
        requires room { 0 < spare self.old.learned }
        ensures { Puts self.old self.new slot value }
    {
        self.tallies.swap_remove(&slot);
        let Ok(_) = self.learned.insert(slot, value) else {
            unreachable!()
        };
    }

    // Takes the value of the first that was counted at the slot and ballot, and drops the slot's tallies.
    fn take_first(&mut self, slot: Slot, ballot: Ballot) -> Option<Value>
        ensures value { result ≡ first_at self.old slot ballot }
        ensures drops { Drops self.old self.new slot }
    {
        let mut tallies = self.tallies.swap_remove(&slot)?;
        let tally = tallies.swap_remove(&ballot)?;
        Some(tally.value)
    }

    // Counts the acceptor at the slot and ballot.
    fn count(&mut self, acceptor: NodeId, slot: Slot, ballot: Ballot, value: Value)
        requires { HasRoomToCount self.old slot ballot }
        ensures { Counts self.old self.new acceptor slot ballot value }
    {
        match self.tallies.get_mut(&slot) {
            Some(tallies) => count_in(tallies, acceptor, ballot, value),
            None => unreachable!(),
        }
    }
}

fn copy_of(value: &Value) -> Result<Value, OutOfMemory>
    ensures { IfOk result (λ copy. copy ≡ value.now) }
{
    value.clone()
}

// Makes room for a tally at the ballot, where there is none.
fn make_tally_room(tallies: &mut Tallies, ballot: Ballot) -> Result<(), OutOfMemory>
    ensures room { OnOk result (HasRoomForTally tallies.new ballot) }
    ensures same { IsUnchanged tallies.old tallies.new }
{
    if !tallies.contains_key(&ballot) {
        tallies.reserve(1)?;
    }
    Ok(())
}

// Counts the acceptor at the ballot.
fn count_in(tallies: &mut Tallies, acceptor: NodeId, ballot: Ballot, value: Value)
    requires { HasRoomForTally tallies.old ballot }
    ensures here { CountsIn (tally_in tallies.old ballot) (tally_in tallies.new ballot) acceptor value }
    ensures others { (b : Pair) → is_same_ballot ballot b ≡ false → tally_in tallies.new b ≡ tally_in tallies.old b }
{
    if let Some(tally) = tallies.get_mut(&ballot) {
        tally.voted = tally.voted.with(acceptor);
        return;
    }
    let voted = NodeSet::new().with(acceptor);
    let Ok(_) = tallies.insert(ballot, Tally { voted, value }) else {
        unreachable!()
    };
}
