//! Processes in a row, each over the records of the one before it.

use crate::clients::{Acknowledged, told_of};
use crate::draws::Draws;
use crate::process::Process;
use crate::starting::{started_anew, started_over};
use ballots::{Members, Message};
use lawful_histories::are_lawful;
use std::alloc::Global;
use std::hash::RandomState;
use std::test::Fail;
use std::thread::Threads;

/// Processes in a row, of which the last one runs or has ended.
#[derive(Drop)]
pub(crate) struct Row {
    alloc: Global,
    hashing: RandomState,
    draws: Draws,
    process: Box<Process>,
    /// How many uploads were put.
    uploads: u64,
    /// What all processes sent that have ended, one behind the other.
    pub(crate) sent: Vec<Message>,
    /// What was acknowledged by processes that have ended.
    pub(crate) acknowledged: Vec<Acknowledged>,
    /// Of how many acknowledged uploads a node of a later process did not tell the same as soon as it had started.
    pub(crate) untold: u64,
    /// How many uploads a later process acknowledged as soon as it had started, and no earlier one.
    pub(crate) chosen_before: u64,
    /// How many processes started with a slot that was left undecided.
    pub(crate) undecided: u64,
    /// How many uploads of earlier processes a later process acknowledged only once it had run.
    pub(crate) decided_later: u64,
}

impl Row {
    /// A first process, with what this run draws.
    pub(crate) fn new(alloc: Global, hashing: RandomState, run: u64) -> Result<Box<Row>, Fail> {
        let started = started_anew(alloc, hashing)?;
        let process = Box::new(alloc, Process::new(alloc, started))?;
        let row = Row {
            alloc,
            hashing,
            draws: Draws::new(run),
            process,
            uploads: 0,
            sent: Vec::new(alloc),
            acknowledged: Vec::new(alloc),
            untold: 0,
            chosen_before: 0,
            undecided: 0,
            decided_later: 0,
        };
        Ok(Box::new(alloc, row)?)
    }

    /// The process runs up to a drawn moment, and ends.
    pub(crate) fn run(&mut self) -> Result<(), Fail> {
        let first = self.uploads;
        for _ in 0..self.draws.below(300).saturating_add(50) {
            self.process
                .step(self.alloc, &mut self.draws, &mut self.uploads)?;
        }
        let late = self.hear(first)?;
        self.decided_later = self.decided_later.saturating_add(late);
        self.sent.append(&mut self.process.sent)?;
        Ok(())
    }

    // Clients ask after all uploads. It is told how many are newly acknowledged of those below this number.
    fn hear(&mut self, end: u64) -> Result<u64, Fail> {
        let mut count: u64 = 0;
        for number in 0..self.uploads {
            if self.hears(number)? && number < end {
                count = count.saturating_add(1);
            }
        }
        Ok(count)
    }

    // Whether the upload of this number is acknowledged by a node, and was not before.
    fn hears(&mut self, number: u64) -> Result<bool, Fail> {
        if self.acknowledged.iter().any(|told| told.number == number) {
            return Ok(false);
        }
        for node in self.process.nodes() {
            if let Some(told) = told_of(self.alloc, node, number)? {
                self.acknowledged.push(told)?;
                return Ok(true);
            }
        }
        Ok(false)
    }

    /// The next process starts over what each node of the last one kept, without so many records.
    pub(crate) fn go_on<R: Threads + Sync>(&mut self, rt: &R, lost: usize) -> Result<(), Fail> {
        let started = started_over(rt, self.alloc, self.hashing, self.process.nodes(), lost)?;
        if started.is_undecided {
            self.undecided = self.undecided.saturating_add(1);
        }
        let process = Box::new(self.alloc, Process::new(self.alloc, started))?;
        self.set_process(process);
        let chosen = self.hear(self.uploads)?;
        self.chosen_before = self.chosen_before.saturating_add(chosen);
        self.count_untold()
    }

    // Counts of which acknowledged uploads a node does not tell the same.
    fn count_untold(&mut self) -> Result<(), Fail> {
        for before in self.acknowledged.iter() {
            if !self.process.all_tell(self.alloc, before)? {
                self.untold = self.untold.saturating_add(1);
            }
        }
        Ok(())
    }

    fn set_process(&mut self, process: Box<Process>) {
        self.process = process;
    }

    /// Whether all that was sent is lawful, as one history.
    pub(crate) fn is_lawful(&self) -> Result<bool, Fail> {
        let members = Members::new(3).ok_or("no members")?;
        Ok(are_lawful(members, self.sent.as_slice()))
    }
}
