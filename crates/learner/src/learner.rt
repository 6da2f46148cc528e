ghost use Rattle.std.specs.Prelude.{◌≡◌, ℕ, ◌<◌, [], ◌∷◌, ◌++◌, List, Option, None, Some, IfOk, OnOk, OnErr};
ghost use Rattle.std.specs.Option.{option_map, option_or};
ghost use Rattle.ballots.specs.Slots.{OthersStay};
ghost use Rattle.ballots.specs.declared.value.Value.{Value as Held};
ghost use Rattle.learner.specs.Calls.{LearnerCall, Accepted, Decided, Learns};
ghost use Rattle.learner.specs.State.{decided_at, HasRoomToLearn, HasRoomForVote};
ghost use Rattle.learner.specs.Learned.{StateAfter, HasHistory, IsSame};
ghost use Rattle.learner.specs.Changes.{LearnsNow, DecidedNow};

use crate::state::State;
use ballots::{Ballot, Members, NodeId, OutOfMemory, Slot, Value};
use std::alloc::Global;
use std::marker::Model;

/// A learner for all slots. It holds the value of each slot that it has learned, and of the others what it has counted.
#[derive(Drop)]
pub struct Learner {
    state: State,
}

impl Model for Learner {
    ghost use Rattle.learner.specs.State.{LearnerState, state_code};
    ghost use Rattle.learner.specs.Learned.{HasHistory};

    ghost Value = { LearnerState };

    ghost use Rattle.std.specs.Coded.{codes};

    ghost coded = { state_code (Prim.hlevel codes) (Prim.hlevel codes) (Prim.hlevel codes) (Prim.hlevel codes) };

    ghost view = { λ l. l.state };

    ghost invariant = { λ l. HasHistory l.state };
}

impl Learner {
    /// A learner that was told nothing. It takes memory from this allocator as it grows, and counts these members.
    pub fn new(alloc: Global, members: Members) -> Learner
        ensures { StateAfter members [] result }
    {
        Learner {
            state: State::new(alloc, members),
        }
    }

    /// The value that the slot has learned, `None` where it has learned none. Each learner has a history: it was made,
    /// and some calls left it as it is.
    pub fn decided(&self, slot: Slot) -> Option<&Value>
        ensures value { option_map (λ value. value.now) result ≡ decided_at self.now slot }
        ensures history { HasHistory self.now }
    {
        self.state.decided(slot)
    }

    /// Makes the room for `on_decided`, and tells a copy of the value with which that call would make the slot learned,
    /// `None` where the slot has learned one. What the learner holds stays.
    pub fn see_on_decided(
        &mut self,
        slot: Slot,
        value: &Value,
    ) -> Result<Option<Value>, OutOfMemory>
        ensures room { OnOk result (HasRoomToLearn self.new slot) }
        ensures told { IfOk result (λ told. (n : ℕ) (calls : List LearnerCall) → StateAfter n calls self.old
            → Learns n calls (Decided slot value.now) slot told) }
        ensures now { IfOk result (DecidedNow (decided_at self.old slot) value.now) }
        ensures same { IsSame self.old self.new }
        ensures memory { OnErr result (decided_at self.old slot ≡ None) }
    {
        self.state.see_on_decided(slot, value)
    }

    /// Learns that this value was decided for the slot. Where the slot has learned one, it stays.
    pub fn on_decided(&mut self, slot: Slot, value: Value)
        requires { HasRoomToLearn self.old slot }
        ensures learned { (n : ℕ) (calls : List LearnerCall) → StateAfter n calls self.old
            → StateAfter n (calls ++ Decided slot value ∷ []) self.new }
        ensures here { decided_at self.new slot ≡ option_or (decided_at self.old slot) (Some value) }
        ensures others { OthersStay (decided_at self.old) (decided_at self.new) slot }
    {
        self.state.on_decided(slot, value);
    }

    /// Makes the room for `on_accepted`, and tells a copy of the value with which that call would make the slot
    /// learned, `None` where it would not. What the learner holds stays.
    pub fn see_on_accepted(
        &mut self,
        acceptor: NodeId,
        slot: Slot,
        ballot: Ballot,
        value: &Value,
    ) -> Result<Option<Value>, OutOfMemory>
        ensures room { OnOk result (HasRoomForVote self.new acceptor slot ballot) }
        ensures told { IfOk result (λ told. (n : ℕ) (calls : List LearnerCall) → StateAfter n calls self.old
            → Learns n calls (Accepted acceptor slot ballot value.now) slot told) }
        ensures now { IfOk result (λ told. LearnsNow self.old acceptor slot ballot value.now told) }
        ensures same { IsSame self.old self.new }
        ensures memory { OnErr result ((acceptor < self.old.members) × (decided_at self.old slot ≡ None)) }
    {
        self.state.see_on_accepted(acceptor, slot, ballot, value)
    }

    /// Counts that the acceptor accepted the value for the slot at the ballot, once for each slot and ballot. What was
    /// told by a node that is no member, or of a slot that has learned a value, counts for nothing.
    pub fn on_accepted(&mut self, acceptor: NodeId, slot: Slot, ballot: Ballot, value: Value)
        requires { HasRoomForVote self.old acceptor slot ballot }
        ensures learned { (n : ℕ) (calls : List LearnerCall) → StateAfter n calls self.old
            → StateAfter n (calls ++ Accepted acceptor slot ballot value ∷ []) self.new }
        ensures here { (told : Option Held) → LearnsNow self.old acceptor slot ballot value told
            → decided_at self.new slot ≡ option_or (decided_at self.old slot) told }
        ensures stays { (v : Held) → decided_at self.old slot ≡ Some v → decided_at self.new slot ≡ Some v }
        ensures others { OthersStay (decided_at self.old) (decided_at self.new) slot }
    {
        self.state.on_accepted(acceptor, slot, ballot, value);
    }
}
