//! When a node's time has passed.

ghost use Rattle.std.specs.Prelude.{◌≡◌, ℕ, suc, List, [], ◌∷◌};
ghost use Rattle.std.specs.Option.{option_copied};
ghost use Rattle.node_worker.specs.Paces.{Happening, Passed, Came, Acted, Ticked, IsPaceOf, is_due, left_after, wait_behind};

use crate::attempt::Attempt;
use ballots::{Body, Members, Message, NodeId};
use std::marker::Model;

/// How long a worker waits for a message before it looks again, in milliseconds.
pub const LOOK_MILLISECONDS: u64 = 50;

/// How long a node that asks or tries and hears nothing waits at most until it does so again, in milliseconds.
pub const LONGEST_WAIT_MILLISECONDS: u64 = 51_200;

/// When the next tick of a node is due, by what came to pass at its worker. It decides nothing but time: whatever it
/// answers, a node does what is due by its rules.
///
/// Each call is one happening more: contracts say what it leaves of any list of happenings that the pace may stand for.
#[derive(Clone, Copy, Debug)]
pub struct Pace {
    me: NodeId,
    members: Members,
    attempt: Option<Attempt>,
    /// Whether the latest attempt was lost to another node's.
    was_lost: bool,
    /// For how long no message came, in milliseconds, up to the longest wait.
    quiet: u64,
    /// How long it waits behind its Asks, in milliseconds.
    ask_wait: u64,
    /// How long it waits behind its attempts, in milliseconds. A tick is due after the longer of the two without a message.
    attempt_wait: u64,
}

impl Model for Pace {
    ghost use Rattle.node_worker.specs.Paces.{PaceState};

    ghost Value = { PaceState };

    ghost view = { λ p. record {
      me = p.me;
      members = p.members;
      attempt = p.attempt;
      was_lost = p.was_lost;
      quiet = p.quiet;
      ask_wait = p.ask_wait;
      attempt_wait = p.attempt_wait;
    } };

    ghost inverse = { λ p. record {
      me = p.me;
      members = p.members;
      attempt = p.attempt;
      was_lost = p.was_lost;
      quiet = p.quiet;
      ask_wait = p.ask_wait;
      attempt_wait = p.attempt_wait;
    } };
}

impl Pace {
    /// The pace of this node of so many members, at which nothing has come to pass.
    pub fn new(me: NodeId, members: Members) -> Pace
        ensures { IsPaceOf me members [] result }
    {
        Pace {
            me,
            members,
            attempt: None,
            was_lost: false,
            quiet: 0,
            ask_wait: LOOK_MILLISECONDS,
            attempt_wait: LOOK_MILLISECONDS,
        }
    }

    /// How many free slots a tick leaves to other nodes: none, but behind an attempt that was lost to another node's a
    /// number that each node has for itself, so that two of them do not go on for one slot.
    pub fn left(&self) -> u8
        ensures { (me members : ℕ) (happened : List Happening) → IsPaceOf me members happened self.now
            → result ≡ left_after me members happened }
    {
        if self.was_lost { self.me.number() } else { 0 }
    }

    /// Whether a tick is due, where an upload waits or where none does: at once where one waits and nothing was tried for it that was
    /// refused or is still open, and after a while without a message, at first [`LOOK_MILLISECONDS`].
    #[tactic(auto, using(crate::proofs::Waiting::fresh))]
    pub fn is_due(&self, waits: bool) -> bool
        ensures { (me members : ℕ) (happened : List Happening) → IsPaceOf me members happened self.now
            → result ≡ is_due members happened waits }
    {
        (waits && self.attempt.is_none() && self.attempt_wait == LOOK_MILLISECONDS)
            || self.quiet >= self.ask_wait.max(self.attempt_wait)
    }

    /// No message came for so many milliseconds.
    pub fn pass(&mut self, milliseconds: u64)
        ensures { (me members : ℕ) (happened : List Happening) → IsPaceOf me members happened self.old
            → IsPaceOf me members (Passed milliseconds ∷ happened) self.new }
    {
        self.quiet = self
            .quiet
            .saturating_add(milliseconds)
            .min(LONGEST_WAIT_MILLISECONDS);
    }

    /// A tick was given that sent this message, if it sent one. An Ask and an attempt double the wait for the next,
    /// up to [`LONGEST_WAIT_MILLISECONDS`].
    pub fn tick(&mut self, sent: Option<&Message>)
        ensures { (me members : ℕ) (happened : List Happening) → IsPaceOf me members happened self.old
            → IsPaceOf me members (Ticked (option_copied sent.entry) ∷ happened) self.new }
    {
        self.quiet = 0;
        let Some(message) = sent else {
            return;
        };
        match &message.body {
            Body::Prepare { ballot } => {
                self.was_lost = false;
                self.attempt = Some(Attempt::new(message.slot, *ballot));
                self.attempt_wait = longer_wait(self.attempt_wait);
            }
            Body::Ask => self.ask_wait = longer_wait(self.ask_wait),
            _ => {}
        }
    }

    /// An event of the node was entered that is no tick, no delivery and no answer.
    pub fn hear_event(&mut self)
        ensures { (me members : ℕ) (happened : List Happening) → IsPaceOf me members happened self.old
            → IsPaceOf me members (Acted ∷ happened) self.new }
    {
        self.ask_wait = LOOK_MILLISECONDS;
        self.attempt_wait = LOOK_MILLISECONDS;
    }

    /// This message came to the node. An Accepted and a Decided set both waits back, and an Ask, which tells that its sender is there,
    /// that behind attempts.
    #[tactic(auto, using(crate::proofs::Closing::closed_stays, crate::proofs::Closing::lost_stays))]
    pub fn hear(&mut self, message: &Message)
        ensures { (me members : ℕ) (happened : List Happening) → IsPaceOf me members happened self.old
            → IsPaceOf me members (Came message.now ∷ happened) self.new }
    {
        self.quiet = 0;
        match &message.body {
            Body::Accepted(_) | Body::Decided { .. } => {
                self.ask_wait = LOOK_MILLISECONDS;
                self.attempt_wait = LOOK_MILLISECONDS;
            }
            Body::Ask => self.attempt_wait = LOOK_MILLISECONDS,
            _ => {}
        }
        if let Some(attempt) = self.attempt {
            self.was_lost = self.was_lost || attempt.is_refused_by(message);
            self.attempt = attempt.after(self.members, message);
        }
    }
}

// Twice the wait, up to the longest.
#[tactic(auto, using(crate::proofs::Waiting::longest, crate::proofs::Waiting::doubled))]
fn longer_wait(wait: u64) -> u64
    ensures { (tries : ℕ) → wait ≡ wait_behind tries → result ≡ wait_behind (suc tries) }
{
    if wait >= LONGEST_WAIT_MILLISECONDS / 2 {
        LONGEST_WAIT_MILLISECONDS
    } else {
        wait * 2
    }
}
