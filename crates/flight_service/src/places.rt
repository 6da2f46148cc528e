//! How many connections of a node are open at once.

ghost use Rattle.std.specs.Prelude.{◌≡◌, ◌↔◌, ◌<◌, ◌≤◌, ◌+◌, ◌-◌, IsTrue};
ghost use Rattle.flight_service.specs.declared.places.TheConstants.{MOST_CONNECTIONS};

use std::sync::{Condvar, Mutex, Wait};

/// The most connections of one node that are served at once. Others wait in the system's queue until one of these ends.
pub const MOST_CONNECTIONS: u32 = 128;

/// How many places are taken.
#[derive(Drop)]
struct Taken {
    count: u32,
    ghost bounded: { count ≤ MOST_CONNECTIONS },
}

impl Taken {
    fn is_full(&self) -> bool
        ensures { IsTrue result ↔ (MOST_CONNECTIONS ≤ self.now.count) }
    {
        self.count >= MOST_CONNECTIONS
    }

    fn add(&mut self)
        ensures { self.old.count < MOST_CONNECTIONS → self.new.count ≡ self.old.count + 1 }
    {
        if self.count < MOST_CONNECTIONS {
            self.count += 1;
        }
    }

    fn remove(&mut self)
        ensures { 0 < self.old.count → self.new.count ≡ self.old.count - 1 }
    {
        self.count = self.count.saturating_sub(1);
    }
}

/// The places for connections of a node, [`MOST_CONNECTIONS`] in all.
#[derive(Drop)]
pub struct Places {
    taken: Mutex<Taken>,
    freed: Condvar,
}

impl Places {
    /// All places, and none is taken.
    pub fn new() -> Places {
        Places {
            taken: Mutex::new(Taken { count: 0 }),
            freed: Condvar::new(),
        }
    }

    /// Takes a place, as soon as one is free.
    pub fn take<R: Wait>(&self, rt: &R) {
        let mut taken = self
            .freed
            .wait_while(rt, self.taken.lock(rt), |taken| taken.is_full());
        taken.add();
    }

    /// Gives a place back.
    pub fn free<R: Wait>(&self, rt: &R) {
        let mut taken = self.taken.lock(rt);
        taken.remove();
        drop(taken);
        self.freed.notify_one();
    }
}
