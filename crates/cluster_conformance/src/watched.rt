//! Stories that have to end in time.

use crate::flag::Flag;
use crate::support::owned;
use std::alloc::Global;
use std::sync::Wait;
use std::thread::{JoinHandle, Threads};
use std::time::Clock;

/// How often it is looked whether a story has ended, 1 ms apart.
const TURNS: u32 = 60_000;

/// What comes of a story that a thread plays, which raises the flag behind it. A story that has not ended after [`TURNS`] looks fails.
pub(crate) fn outcome_of<R: Threads + Wait + Clock>(
    rt: &R,
    alloc: Global,
    playing: JoinHandle<Result<(), String>>,
    ended: &Flag,
) -> Result<(), String> {
    if ended.is_up_within(rt, TURNS) {
        playing.join(rt)
    } else {
        drop(playing);
        owned(alloc, Err("a story does not end"))
    }
}
