//! A restart.

ghost use Rattle.std.specs.Prelude.{◌≡◌, ◌<◌, ◌∷◌, ◌++◌, [], length, IsTrue, IfOk};
ghost use Rattle.journal.specs.parts.node_events.specs.declared.event.Event.TheVariants.{Restart};
ghost use Rattle.journal.specs.parts.node_events.specs.declared.event_result.EventResult.TheVariants.{Done};
ghost use Rattle.journal.specs.Journaled.{HasRoom, MayEnter, HasEntry, EntersOwn};
ghost use Rattle.journal.specs.Logged.{KeepsLog};
ghost use Rattle.seats.specs.Entries.{restart_step, restart_entry};
ghost use Rattle.stored_nodes.specs.Kept.{AreRecalled};
ghost use Rattle.seats.specs.Steps.{TellsEntry, Counts, RestartGives, ReadyAfterRestart, OthersAgree, IsFaultOf};

use crate::fault::SeatFault;
use crate::own_entries::OwnEntries;
use crate::seat::Seat;
use crate::taking::make_room;
use agreement::Refusal;
use ballots::NodeId;
use journal::{Beginning, Journal, OwnEntry, Receipt, Retention, Step};
use node_events::{Event, EventResult};
use stable_records::Stable;
use std::alloc::Global;
use stored_nodes::StoredNodeFault;

impl<S: Stable + Drop, J: Beginning, M: Retention> Seat<S, J, M> {
    /// Starts the node again, up or down, with the records that it kept and nothing else, and enters that. Its store gave these
    /// back.
    ///
    /// The first of these faults is told that stands, memory apart: [`SeatFault::Strange`] exactly where the seat is not
    /// seen to agree with the journal; [`SeatFault::JournalFull`]; [`SeatFault::Store`], the store's fault in recalling its
    /// records, or its want of memory; [`SeatFault::Lost`] where other records were recalled than were kept so far;
    /// [`SeatFault::Refused`] where memory was refused. None of them changes the node or the journal.
    ///
    /// The journal knows its log still, if it did, unless it has seen it go on without it.
    ///
    /// Where the seat and the journal know the log of their name, it takes the same time however many entries there are; else the
    /// entries are compared, one by one.
    pub fn restart(&mut self, journal: &mut Journal<J, M>) -> Result<Receipt, SeatFault>
        ensures gives { RestartGives self.old self.new journal.old journal.new result }
        ensures counted { Counts S.tells result (S.faults self.old.node.store) (S.faults self.new.node.store) }
        ensures ready { ReadyAfterRestart result (S.is_ready self.old.node.store) (S.is_ready self.new.node.store) }
        ensures recalled { IfOk result (λ _. IsTrue S.tells
            → AreRecalled (S.finds self.old.node.store) (S.finds self.new.node.store) self.new.node.records) }
        ensures others { OthersAgree self.old.node.me journal.old journal.new }
        ensures log { KeepsLog journal.old journal.new }
    {
        self.is_open(journal)?;
        let (alloc, me) = (self.alloc, self.me);
        if make_room(&mut self.own, journal, 0).is_err() {
            return Err(SeatFault::Refused(Refusal::OutOfMemory));
        }
        let recovered = match self.node.recover() {
            Ok(recovered) => recovered,
            Err(fault) => return Err(fault_for(fault)),
        };
        let receipt = enter_restart(alloc, me, &mut self.own, journal, recovered);
        self.known = journal.log();
        Ok(receipt)
    }
}

// Why the node was not started again.
fn fault_for(fault: StoredNodeFault) -> SeatFault
    ensures { IsFaultOf fault result }
{
    match fault {
        StoredNodeFault::OutOfMemory => SeatFault::Refused(Refusal::OutOfMemory),
        StoredNodeFault::Store(fault) => SeatFault::Store(fault),
        StoredNodeFault::Lost => SeatFault::Lost,
    }
}

// Enters a restart: one entry of the journal, and one of the node's own. There is room for both.
fn enter_restart<J: Beginning, M: Retention>(
    alloc: Global,
    me: NodeId,
    own: &mut OwnEntries,
    journal: &mut Journal<J, M>,
    recovered: bool,
) -> Receipt
    requires own_room { 0 < own.old.room }
    requires room { HasRoom journal.old 0 }
    requires follows { MayEnter journal.old (restart_step me) [] recovered }
    ensures own { own.new.entries ≡ own.old.entries ++ restart_entry me recovered ∷ [] }
    ensures keeps { own.new.keeps ≡ own.old.keeps }
    ensures entry { HasEntry journal.old (restart_step me) [] recovered journal.new }
    ensures told { TellsEntry journal.old (Restart me) Done result }
    ensures others { EntersOwn journal.old (restart_step me) [] recovered journal.new }
    ensures log { KeepsLog journal.old journal.new }
{
    let node = u64::from(me.number());
    let number = journal.step_count();
    let entry = OwnEntry {
        step: done(node),
        recovered,
        handed: None,
        sends: Vec::new(alloc),
    };
    journal.enter(done(node), Vec::new(alloc), recovered, Some(&entry));
    own.push(me, entry);
    Receipt {
        number,
        event: Event::Restart(node),
        answer: EventResult::Done,
    }
}

// The step of a node that started again.
fn done(node: u64) -> Step
    ensures { result ≡ restart_step node }
{
    Step {
        event: Event::Restart(node),
        result: EventResult::Done,
    }
}
