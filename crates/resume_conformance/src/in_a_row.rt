//! Processes in a row, for many runs of draws.

use crate::rows::Row;
use std::alloc::Global;
use std::hash::RandomState;
use std::test::Fail;
use std::thread::Threads;

/// How many runs are tried.
const RUNS: u64 = 24;

/// What happened in all runs.
#[derive(Clone, Copy)]
struct Sums {
    sent: usize,
    unlawful: u64,
    acknowledged: usize,
    untold: u64,
    chosen_before: u64,
    undecided: u64,
    decided_later: u64,
}

impl Sums {
    fn add(&mut self, row: &Row) -> Result<(), Fail> {
        if !row.is_lawful()? {
            self.unlawful = self.unlawful.saturating_add(1);
        }
        self.sent = self.sent.saturating_add(row.sent.len());
        self.acknowledged = self.acknowledged.saturating_add(row.acknowledged.len());
        self.untold = self.untold.saturating_add(row.untold);
        self.chosen_before = self.chosen_before.saturating_add(row.chosen_before);
        self.undecided = self.undecided.saturating_add(row.undecided);
        self.decided_later = self.decided_later.saturating_add(row.decided_later);
        Ok(())
    }
}

// So many processes in a row. At the start of each but the first each node has lost so many records.
fn in_a_row<R: Threads + Sync>(
    rt: &R,
    alloc: Global,
    hashing: RandomState,
    run: u64,
    processes: u64,
    lost: usize,
) -> Result<Box<Row>, Fail> {
    let mut row = Row::new(alloc, hashing, run)?;
    row.run()?;
    for _ in 1..processes {
        row.go_on(rt, lost)?;
        row.run()?;
    }
    Ok(row)
}

// What happened in the rows of so many processes, where each node has lost so many records at each start.
fn summed<R: Threads + Sync>(
    rt: &R,
    alloc: Global,
    hashing: RandomState,
    processes: u64,
    lost: usize,
) -> Result<Sums, Fail> {
    let mut sums = Sums {
        sent: 0,
        unlawful: 0,
        acknowledged: 0,
        untold: 0,
        chosen_before: 0,
        undecided: 0,
        decided_later: 0,
    };
    for run in 0..RUNS {
        let row = in_a_row(rt, alloc, hashing, run, processes, lost)?;
        sums.add(&row)?;
    }
    Ok(sums)
}

#[test]
fn a_first_process_acknowledges_uploads(rt: HostRuntime) -> Result<(), Fail> {
    let one = summed(&rt, rt.alloc(), RandomState::new(&rt)?, 1, 0)?;
    assert!(rt; one.unlawful == 0 && one.acknowledged > 30);
    Ok(())
}

#[test]
fn three_processes_in_a_row_keep_the_rules_as_one_history(rt: HostRuntime) -> Result<(), Fail> {
    let three = summed(&rt, rt.alloc(), RandomState::new(&rt)?, 3, 0)?;
    assert!(rt; three.unlawful == 0 && three.sent > 3_000);
    // What was acknowledged is told by each node as soon as it has started.
    assert!(rt; three.untold == 0 && three.acknowledged > 100);
    // What was chosen and told to nobody is told then too; what was left undecided is decided by a later process.
    assert!(rt; three.chosen_before > 4 && three.undecided > 8 && three.decided_later > 16);
    Ok(())
}

#[test]
fn nodes_that_lost_their_last_records_break_the_rules(rt: HostRuntime) -> Result<(), Fail> {
    let two = summed(&rt, rt.alloc(), RandomState::new(&rt)?, 2, 1)?;
    assert!(rt; two.unlawful > 4);
    Ok(())
}
