//! Events that a seat applies.

ghost use Rattle.std.specs.Prelude.{◌≡◌, ℕ, List, None, Some, Err, IfErr};
ghost use Rattle.ballots.specs.declared.message.Message.{Message as Sent};
ghost use Rattle.histories.specs.Event.{node_of};
ghost use Rattle.histories.specs.Event as events;
ghost use Rattle.histories.specs.EventResult as results;
ghost use Rattle.histories.specs.Following.{UpOrDown as HistorySeat};
ghost use Rattle.node_core.specs.Inputs.{input_of};
ghost use Rattle.node_core.specs.State.{NodeState};
ghost use Rattle.node_events.specs.Told.{event_of, result_of};
ghost use Rattle.stored_nodes.specs.State.{IsPlaced, Stands, StoredNodeAnswers};
ghost use Rattle.stored_nodes.specs.Steps.{HandsMessage, StepAnswers, UpAnswers, UpApplies, CutApplies};
ghost use Rattle.stored_nodes.specs.Steps.{QuietApplies, DownAnswers, RestartAnswers, HasNode};
ghost use Rattle.stored_nodes.specs.Kept.{CountsNodeFault};

use crate::due::{records_are_due, what_is_taken_is_allowed};
use crate::fault::StoredNodeFault;
use crate::handing::{message_for, upload_for};
use crate::queries::{latest_asked, version_asked};
use crate::reasons::reason_for;
use crate::steps::{keep_alone, take};
use crate::stored_node::StoredNode;
use ballots::Message;
use node_core::Input;
use node_events::{Event, EventResult, Reason};
use stable_records::{Stable, StoreFault};
use std::mem;
use table_types::Ticket;
use uploads::Upload;

impl<S: Stable + Drop> StoredNode<S> {
    /// Applies an event of this node, and tells what it gives, by the rules of a node. The messages that it sends stand
    /// behind those that were sent before. Where memory that the node wants is refused, so is the event
    /// ([`Reason::OutOfMemory`]), and the node is as before; but a restart that is refused leaves it down.
    ///
    /// A fault says that the event is not applied; [`StoredNodeFault`] has what each of them leaves.
    pub fn apply(
        &mut self,
        sent: &mut Vec<Message>,
        event: &Event,
    ) -> Result<EventResult, StoredNodeFault>
        ensures counted { IfErr result (λ fault. CountsNodeFault S.tells fault
            (S.faults self.old.store) (S.faults self.new.store)) }
        ensures gives { IsPlaced self.old → node_of (event_of event.now) ≡ self.old.me → (seat : HistorySeat)
            → Stands self.old seat → StoredNodeAnswers self.old self.new seat
            sent.old.items sent.new.items (event_of event.now) result }
    {
        if self.node.is_some() {
            self.apply_up(sent, event)
        } else {
            self.apply_down(event)
        }
    }

    // Applies an event of the node, which is up.
    fn apply_up(
        &mut self,
        sent: &mut Vec<Message>,
        event: &Event,
    ) -> Result<EventResult, StoredNodeFault>
        ensures counted { IfErr result (λ fault. CountsNodeFault S.tells fault
            (S.faults self.old.store) (S.faults self.new.store)) }
        ensures gives { node_of (event_of event.now) ≡ self.old.me → UpAnswers self.old self.new
            sent.old.items sent.new.items (event_of event.now) result }
    {
        match event {
            Event::Put(_, upload) => self.put(sent, upload),
            Event::Tick(_, left) => self.step(sent, Input::Tick(*left)),
            Event::Deliver(_, number) => self.deliver(sent, *number),
            Event::TickCut(_, left) => Ok(self.cut_tick(*left)),
            Event::DeliverCut(_, number) => Ok(self.cut_delivery(sent.as_slice(), *number)),
            Event::Restart(_) => self.restart(),
            Event::Get(_, ticket) => Ok(self.get(ticket)),
            Event::Info(_, table) => Ok(self.info(table.as_str())),
            Event::Outcome(_, upload) => Ok(self.outcome(upload)),
        }
    }

    // A node that is down refuses all but a restart.
    fn apply_down(&mut self, event: &Event) -> Result<EventResult, StoredNodeFault>
        ensures counted { IfErr result (λ fault. CountsNodeFault S.tells fault
            (S.faults self.old.store) (S.faults self.new.store)) }
        ensures gives { DownAnswers self.old self.new (event_of event.now) result }
    {
        match event {
            Event::Restart(_) => self.restart(),
            _ => Ok(EventResult::Refused(Reason::Down)),
        }
    }

    // The node is opened with all records that it kept; where memory is refused, it is down.
    fn restart(&mut self) -> Result<EventResult, StoredNodeFault>
        ensures counted { IfErr result (λ fault. CountsNodeFault S.tells fault
            (S.faults self.old.store) (S.faults self.new.store)) }
        ensures gives { RestartAnswers self.old self.new result }
    {
        match self.recover() {
            Ok(_) => Ok(EventResult::Done),
            Err(StoredNodeFault::OutOfMemory) => Ok(self.refuse_restart()),
            Err(StoredNodeFault::Store(StoreFault::OutOfMemory)) => Ok(self.refuse_restart()),
            Err(StoredNodeFault::Store(fault)) => Err(StoredNodeFault::Store(fault)),
            Err(StoredNodeFault::Lost) => Err(StoredNodeFault::Lost),
        }
    }

    // Goes down, where memory for a restart is refused.
    fn refuse_restart(&mut self) -> EventResult
        ensures has { HasNode self.old self.new None }
        ensures told { result_of result ≡ results.Refused results.OutOfMemory }
    {
        self.go_down();
        EventResult::Refused(Reason::OutOfMemory)
    }

    // Lets the node go.
    fn go_down(&mut self)
        ensures { HasNode self.old self.new None }
    {
        drop(mem::replace(&mut self.node, None));
    }

    // A client hands in an upload.
    fn put(
        &mut self,
        sent: &mut Vec<Message>,
        upload: &Upload,
    ) -> Result<EventResult, StoredNodeFault>
        ensures counted { IfErr result (λ fault. CountsNodeFault S.tells fault
            (S.faults self.old.store) (S.faults self.new.store)) }
        ensures gives { UpAnswers self.old self.new sent.old.items sent.new.items
            (events.Put self.old.me upload.now) result }
    {
        what_is_taken_is_allowed();
        let Some(node) = &self.node else {
            return Ok(EventResult::Refused(Reason::Down));
        };
        match upload_for(node, upload) {
            Ok(copy) => self.put_copy(sent, copy),
            Err(refusal) => Ok(EventResult::Refused(reason_for(refusal))),
        }
    }

    // Does what is due to an upload, which sends nothing.
    fn put_copy(
        &mut self,
        sent: &mut Vec<Message>,
        upload: Upload,
    ) -> Result<EventResult, StoredNodeFault>
        ensures counted { IfErr result (λ fault. CountsNodeFault S.tells fault
            (S.faults self.old.store) (S.faults self.new.store)) }
        ensures gives { UpAnswers self.old self.new sent.old.items sent.new.items
            (events.Put self.old.me upload) result }
    {
        let answer = match self.step(sent, Input::Put(upload)) {
            Ok(answer) => answer,
            Err(fault) => return Err(fault),
        };
        match answer {
            EventResult::Sent { .. } => Ok(EventResult::Done),
            refused => Ok(refused),
        }
    }

    // Does what is due to the input.
    fn step(
        &mut self,
        sent: &mut Vec<Message>,
        input: Input,
    ) -> Result<EventResult, StoredNodeFault>
        ensures counted { IfErr result (λ fault. CountsNodeFault S.tells fault
            (S.faults self.old.store) (S.faults self.new.store)) }
        ensures gives { StepAnswers self.old self.new sent.old.items sent.new.items (input_of input) result }
    {
        what_is_taken_is_allowed();
        let first = sent.len() as u64;
        let Some(node) = &mut self.node else {
            drop(input);
            return Ok(EventResult::Refused(Reason::Down));
        };
        match take(self.alloc, node, &mut self.kept, sent, input) {
            Ok(Ok(count)) => Ok(EventResult::Sent {
                first,
                count: count as u64,
            }),
            Ok(Err(refusal)) => Ok(EventResult::Refused(reason_for(refusal))),
            Err(StoredNodeFault::OutOfMemory) => Err(StoredNodeFault::OutOfMemory),
            Err(StoredNodeFault::Store(fault)) => {
                drop(mem::replace(&mut self.node, None));
                Err(StoredNodeFault::Store(fault))
            }
            Err(StoredNodeFault::Lost) => unreachable!(),
        }
    }

    // Does what is due to a message that was sent.
    fn deliver(
        &mut self,
        sent: &mut Vec<Message>,
        number: u64,
    ) -> Result<EventResult, StoredNodeFault>
        ensures counted { IfErr result (λ fault. CountsNodeFault S.tells fault
            (S.faults self.old.store) (S.faults self.new.store)) }
        ensures gives { UpAnswers self.old self.new sent.old.items sent.new.items
            (events.Deliver self.old.me number) result }
    {
        let Some(node) = &self.node else {
            return Ok(EventResult::Refused(Reason::Down));
        };
        match message_for(node, sent.as_slice(), number) {
            Ok(message) => self.step(sent, Input::Deliver(message)),
            Err(reason) => Ok(EventResult::Refused(reason)),
        }
    }

    // Goes down behind the record that is due to the input, if one is; after a fault it is not kept, or in doubt.
    fn cut(&mut self, input: Input) -> Result<(), StoreFault>
        ensures { CutApplies self.old self.new (input_of input) result }
    {
        let Some(mut node) = self.node.take() else {
            drop(input);
            return Ok(());
        };
        let answer = keep_alone(&mut node, &mut self.kept, input);
        drop(node);
        answer
    }

    // Goes down behind the record that is due to a tick.
    fn cut_tick(&mut self, left: u8) -> EventResult
        ensures { QuietApplies self.old self.new (events.TickCut self.old.me left) (result_of result) }
    {
        // Whatever the store answers, a restart says what it kept.
        let _ = self.cut(Input::Tick(left));
        EventResult::Done
    }

    // Goes down behind the record that is due to a message that was sent.
    fn cut_delivery(&mut self, sent: &[Message], number: u64) -> EventResult
        ensures { UpApplies self.old self.new sent.now sent.now (events.DeliverCut self.old.me number)
            (result_of result) }
    {
        let Some(node) = &self.node else {
            return EventResult::Refused(Reason::Down);
        };
        match message_for(node, sent, number) {
            Ok(message) => {
                let _ = self.cut(Input::Deliver(message));
                EventResult::Done
            }
            Err(reason) => self.cut_unhanded(reason),
        }
    }

    // Goes down where the node is handed no message for this reason, but stays up where none was sent.
    fn cut_unhanded(&mut self, reason: Reason) -> EventResult
        ensures { (node : NodeState) (sent : List Sent) (number : ℕ) → self.old.node ≡ Some node
            → HandsMessage node.agreement.config sent number (Err reason)
            → UpApplies self.old self.new sent sent (events.DeliverCut self.old.me number) (result_of result) }
    {
        records_are_due();
        match reason {
            Reason::NotSent => EventResult::Refused(Reason::NotSent),
            _ => {
                self.go_down();
                EventResult::Done
            }
        }
    }

    // Answers a client that asks for a version of a table.
    fn get(&self, ticket: &Ticket) -> EventResult
        ensures { QuietApplies self.now self.now (events.Get self.now.me ticket.now.table ticket.now.version)
            (result_of result) }
    {
        match &self.node {
            Some(node) => version_asked(node, ticket),
            None => EventResult::Refused(Reason::Down),
        }
    }

    // Answers a client that asks for the latest version of a table.
    fn info(&self, table: &str) -> EventResult
        ensures { QuietApplies self.now self.now (events.Info self.now.me table.now) (result_of result) }
    {
        match &self.node {
            Some(node) => latest_asked(node, table),
            None => EventResult::Refused(Reason::Down),
        }
    }

    // Answers a client that asks what has become of an upload.
    fn outcome(&self, upload: &Upload) -> EventResult
        ensures { QuietApplies self.now self.now (events.Outcome self.now.me upload.now) (result_of result) }
    {
        // the type keeps that it is the encoding of one
        let _text = upload.as_slice();
        match &self.node {
            Some(node) => EventResult::Outcome(node.outcome(upload)),
            None => EventResult::Refused(Reason::Down),
        }
    }
}
