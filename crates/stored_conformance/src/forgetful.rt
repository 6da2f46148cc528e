//! A store that keeps every record and gives none back: a node never restarts from it.

ghost use Rattle.std.specs.Prelude.{true, false};
ghost use Rattle.stored_conformance.specs.Forgetful.{untold};

use crate::support::{Gave, apply, is_down, last_round, seat, upload};
use ballots::Record;
use node_events::Event;
use stable_records::{Stable, StoreFault};
use std::alloc::Global;
use std::hash::RandomState;
use std::test::Fail;
use stored_nodes::StoredNodeFault;

/// It tells nothing of what it has.
#[derive(Drop)]
struct Forgetful {
    kept: u64,
}

impl Stable for Forgetful {
    ghost tells = { false };

    ghost faults = { λ _. 0 };

    ghost is_ready = { λ _. true };

    ghost finds = { λ _ _. Unit {0} };

    ghost moment = { λ _. 0 };

    ghost finds_since = { λ _ _ _. Unit {0} };

    fn keep(&mut self, _told: &Record) -> Result<(), StoreFault> {
        self.kept = self.kept.saturating_add(1);
        Ok(())
    }

    fn recall(&mut self, alloc: Global) -> Result<Vec<Record>, StoreFault> {
        Ok(Vec::new(alloc))
    }

    ghost ready_finds_one = { λ store told ready. untold told };

    ghost counts_now = { λ store t found le here. tt };

    ghost only_now = { λ store found since. tt };
}

#[test]
fn a_node_does_not_restart_without_its_records(rt: HostRuntime) -> Result<(), Fail> {
    let alloc = rt.alloc();
    let Ok(mut seat) = seat(alloc, RandomState::new(&rt)?, Forgetful { kept: 0 })? else {
        return Err(Fail::from("no seat is opened"));
    };
    let mut sent = Vec::new(alloc);
    // Nothing was kept yet, so nothing is lost.
    assert!(rt; apply(&mut seat, &mut sent, Event::Restart(0)) == Gave::Done);
    assert!(rt; apply(&mut seat, &mut sent, Event::Put(0, upload(alloc, 1)?)) == Gave::Done);
    assert!(rt; apply(&mut seat, &mut sent, Event::Tick(0, 0)) == Gave::Sent(0, 1));
    let lost = Gave::Failed(StoredNodeFault::Lost);
    assert!(rt; apply(&mut seat, &mut sent, Event::Restart(0)) == lost);
    // The node that there is goes on.
    assert!(rt; apply(&mut seat, &mut sent, Event::Tick(0, 0)) == Gave::Sent(1, 1));
    assert!(rt; last_round(sent.as_slice()) == 2);
    assert!(rt; apply(&mut seat, &mut sent, Event::TickCut(0, 0)) == Gave::Done);
    assert!(rt;
        apply(&mut seat, &mut sent, Event::Restart(0)) == lost && is_down(alloc, &mut seat)?
    );
    Ok(())
}
