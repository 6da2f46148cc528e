//! The lines that say where nodes are served, into writers that fail.

use crate::streams::Narrow;
use serve_command::{ServeFault, tell_addresses};
use std::alloc::Global;

/// The lines of five nodes from port 9,998 on.
const LINES: &str =
    "node 0 at 127.0.0.1:9998\nnode 1 at 127.0.0.1:9999\nnode 2 at 127.0.0.1:10000\nnode 3 at 127.0.0.1:10001\nnode 4 at 127.0.0.1:10002\n";

/// Whether the lines are lost in a writer of this room, with their first bytes gone out. Where all of them are taken, the flush
/// fails.
fn is_lost(alloc: Global, room: usize) -> bool {
    let mut writer = Narrow::new(alloc, room, 0);
    let told = tell_addresses(alloc, 9_998, 5, &mut writer);
    let is_cut = LINES.as_bytes().get(..room) == Some(writer.written.as_slice());
    told == Err(ServeFault::Io) && is_cut
}

#[test]
fn tells_addresses_that_are_lost(rt: HostRuntime) {
    for room in 0..=LINES.len() {
        assert!(rt; is_lost(rt.alloc(), room), "in {room} bytes");
    }
}

/// With room for all of them, and a flush, they are told.
#[test]
fn tells_each_address(rt: HostRuntime) {
    let mut writer = Narrow::new(rt.alloc(), LINES.len(), 1);
    let told = tell_addresses(rt.alloc(), 9_998, 5, &mut writer);
    assert!(rt; told == Ok(()));
    assert!(rt; writer.written.as_slice() == LINES.as_bytes());
}
