//! What one thread waits for and another does.

use std::sync::{Mutex, Wait};
use std::thread;
use std::thread::Threads;
use std::time::{Clock, Duration};

/// A flag that one thread raises and another looks for.
#[derive(Drop)]
pub(crate) struct Flag {
    is_up: Mutex<bool>,
}

impl Flag {
    /// One that is down.
    pub(crate) fn new() -> Flag {
        Flag {
            is_up: Mutex::new(false),
        }
    }

    pub(crate) fn raise<R: Wait>(&self, rt: &R) {
        *self.is_up.lock(rt) = true;
    }

    pub(crate) fn lower<R: Wait>(&self, rt: &R) {
        *self.is_up.lock(rt) = false;
    }

    pub(crate) fn is_up<R: Wait>(&self, rt: &R) -> bool {
        *self.is_up.lock(rt)
    }

    /// Whether it is up at one of so many looks, 1 ms apart.
    pub(crate) fn is_up_within<R: Threads + Wait + Clock>(&self, rt: &R, turns: u32) -> bool {
        for _ in 0..turns {
            if self.is_up(rt) {
                return true;
            }
            let _ = thread::sleep(rt, Duration::from_millis(1));
        }
        false
    }
}
