//! An input that is taken.

ghost use Rattle.std.specs.Prelude.{◌≡◌, ◌↔◌, ◌<◌, IfOk, OnOk, IsTrue, length};
ghost use Rattle.journal.specs.Journaled.{HasRoom, TellsSame};
ghost use Rattle.journal.specs.Logged.{KeepsLog};
ghost use Rattle.seats.specs.Entries.{AreCopies};
ghost use Rattle.seats.specs.Inputs.{IsHeldIn};
ghost use Rattle.seats.specs.OwnLists.{LastsAsBefore};
ghost use Rattle.seats.specs.Steps.{Admits, OpensFor, IsPreparedFor, Counts, TakeGives, OthersAgree};

use crate::entering::{Copies, enter_cut, enter_done};
use crate::fault::SeatFault;
use crate::input::{Prepared, SeatInput};
use crate::messages::same_message;
use crate::own_entries::OwnEntries;
use crate::seat::Seat;
use agreement::Refusal;
use ballots::{Message, NodeId};
use journal::{Beginning, Journal, Receipt, Retention};
use stable_records::Stable;
use std::alloc::{AllocError, Global};

// Whether the message that is delivered, if one is, is the one of its number in the journal, which holds it.
fn is_held<J: Beginning, M: Retention>(journal: &Journal<J, M>, input: &SeatInput) -> bool
    ensures { IsTrue result ↔ IsHeldIn journal.now input.now }
{
    match input {
        SeatInput::Deliver(number, message) => match journal.message(*number) {
            Some(sent) => same_message(sent, message),
            None => false,
        },
        _ => true,
    }
}

impl<S: Stable + Drop, J: Beginning, M: Retention> Seat<S, J, M> {
    /// Why no entry of this node may stand next in the journal, if something speaks against it.
    pub(crate) fn is_open(&self, journal: &Journal<J, M>) -> Result<(), SeatFault>
        ensures { OpensFor self.now journal.now result }
    {
        if !self.agrees(journal) {
            return Err(SeatFault::Strange);
        }
        if journal.is_full() {
            return Err(SeatFault::JournalFull);
        }
        Ok(())
    }

    // Why the input may not be entered next, if something speaks against it.
    fn admits(&self, journal: &Journal<J, M>, input: &SeatInput) -> Result<(), SeatFault>
        ensures { Admits self.now journal.now input.now result }
    {
        self.is_open(journal)?;
        if !is_held(journal, input) {
            return Err(SeatFault::NotSent);
        }
        Ok(())
    }

    /// Does what was prepared: its record is kept, the node commits, and its event is entered with the messages that go
    /// out. The seat is as [`Seat::prepare`] left it when it made this.
    ///
    /// The first of these faults is told that stands, memory apart: [`SeatFault::Strange`] exactly where the seat is not seen to
    /// agree with the journal ([`Seat::agrees`]); [`SeatFault::JournalFull`]; [`SeatFault::NotSent`] exactly where the
    /// delivered message is not the one of its number that the journal holds, by what it holds. These, and [`SeatFault::Refused`] where
    /// memory was refused, change nothing. [`SeatFault::Store`] is the store's fault in keeping the record, or its want of
    /// memory: the node is down then, and one entry says that it went down in the midst.
    ///
    /// The journal knows its log still, if it did, unless it has seen it go on without it.
    ///
    /// Where the seat and the journal know the log of their name, it takes the same time however many entries there are; else the
    /// entries are compared, one by one.
    pub fn take(
        &mut self,
        journal: &mut Journal<J, M>,
        prepared: Prepared,
    ) -> Result<Receipt, SeatFault>
        requires { IsPreparedFor self.old prepared }
        ensures gives { TakeGives self.old self.new journal.old journal.new prepared result }
        ensures counted { Counts S.tells result (S.faults self.old.node.store) (S.faults self.new.node.store) }
        ensures others { OthersAgree self.old.node.me journal.old journal.new }
        ensures log { KeepsLog journal.old journal.new }
    {
        self.admits(journal, &prepared.input)?;
        let Prepared { input, plan } = prepared;
        let (alloc, me) = (self.alloc, self.me);
        let copies = match made_ready(alloc, me, &mut self.own, journal, &input, plan.sends()) {
            Ok(copies) => copies,
            Err(_) => {
                drop(input);
                drop(plan);
                return Err(SeatFault::Refused(Refusal::OutOfMemory));
            }
        };
        match self.node.take(plan) {
            Ok(()) => {
                let receipt = enter_done(me, &mut self.own, journal, input, copies);
                self.known = journal.log();
                Ok(receipt)
            }
            Err(fault) => {
                drop(copies);
                enter_cut(alloc, me, &mut self.own, journal, input);
                self.known = journal.log();
                Err(SeatFault::Store(fault))
            }
        }
    }
}

/// Room for an entry, in the journal and among the node's own, where so many messages go out.
pub(crate) fn make_room<J: Beginning, M: Retention>(
    own: &mut OwnEntries,
    journal: &mut Journal<J, M>,
    count: usize,
) -> Result<(), AllocError>
    ensures room { OnOk result (HasRoom journal.new count) }
    ensures own_room { OnOk result (0 < own.new.room) }
    ensures own { LastsAsBefore own.old own.new }
    ensures journal { TellsSame journal.old journal.new }
{
    own.reserve()?;
    journal.reserve(count)
}

// All that an input takes memory for, made before anything is done.
fn made_ready<J: Beginning, M: Retention>(
    alloc: Global,
    me: NodeId,
    own: &mut OwnEntries,
    journal: &mut Journal<J, M>,
    input: &SeatInput,
    sends: &[Message],
) -> Result<Copies, AllocError>
    ensures copies { IfOk result (AreCopies me input.now sends.now) }
    ensures room { OnOk result (HasRoom journal.new (length sends.now)) }
    ensures own_room { OnOk result (0 < own.new.room) }
    ensures own { LastsAsBefore own.old own.new }
    ensures journal { TellsSame journal.old journal.new }
{
    make_room(own, journal, sends.len())?;
    Copies::of(alloc, me, input, sends)
}
