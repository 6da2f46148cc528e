//! The nodes of a run.

ghost use Rattle.std.specs.Prelude.{◌≡◌, ◌<◌, IfOk};
ghost use Rattle.histories.specs.Event.{node_of};
ghost use Rattle.histories.specs.Following.{UpOrDown as HistorySeat, at_first};
ghost use Rattle.node_events.specs.Told.{event_of};
ghost use Rattle.stored_nodes.specs.State.{IsPlaced, Stands};
ghost use Rattle.schedule_runner.specs.Seated.{IsSeatOf, AreSeated, MemorySeatAnswers};

use agreement::AgreementConfig;
use ballots::{Message, NodeId};
use histories::laws::a_member_steps_alone;
use node_events::{Event, EventResult, Reason};
use stable_records::{MemoryStable, StoreFault};
use std::alloc::{AllocError, Global};
use std::hash::RandomState;
use stored_nodes::{StoredNode, StoredNodeFault};
use traces::RunNodes;

/// All members, each with the store of its records.
#[derive(Drop)]
pub(crate) struct Seats {
    seats: Vec<StoredNode<MemoryStable>>,
}

impl Seats {
    /// The members of this configuration, each up and with nothing. [`AllocError`] says that memory was refused.
    pub(crate) fn open(
        alloc: Global,
        hashing: RandomState,
        config: AgreementConfig,
    ) -> Result<Seats, AllocError>
        ensures { IfOk result (λ seats. AreSeated seats.seats.items config at_first) }
    {
        let mut seats = Vec::new(alloc);
        for number in 0..config.members().count() {
            let Some(me) = NodeId::new(number) else {
                unreachable!();
            };
            let seat = first_seat(alloc, hashing, me, config)?;
            seats.push(seat)?;
        }
        Ok(Seats { seats })
    }
}

// A member, up and with nothing. A store in memory has no record at first, and its only fault is want of memory.
fn first_seat(
    alloc: Global,
    hashing: RandomState,
    me: NodeId,
    config: AgreementConfig,
) -> Result<StoredNode<MemoryStable>, AllocError>
    requires { me < config.members }
    ensures { IfOk result (λ seat. IsSeatOf config me seat (at_first me)) }
{
    match StoredNode::open(alloc, hashing, me, config, MemoryStable::new(alloc)) {
        Ok(Some(seat)) => Ok(seat),
        Ok(None) => unreachable!(),
        Err(StoreFault::OutOfMemory) => Err(AllocError),
        Err(_) => unreachable!(),
    }
}

// An event of one node. A store in memory has no fault but want of memory, and gives back what it kept.
fn apply_to(
    seat: &mut StoredNode<MemoryStable>,
    sent: &mut Vec<Message>,
    event: &Event,
) -> Result<EventResult, AllocError>
    ensures { IsPlaced seat.old → node_of (event_of event.now) ≡ seat.old.me → (stood : HistorySeat)
        → Stands seat.old stood → MemorySeatAnswers seat.old seat.new stood sent.old.items sent.new.items
        (event_of event.now) result }
{
    match seat.apply(sent, event) {
        Ok(result) => Ok(result),
        Err(StoredNodeFault::OutOfMemory) => Err(AllocError),
        Err(StoredNodeFault::Store(_)) => unreachable!(),
        Err(StoredNodeFault::Lost) => unreachable!(),
    }
}

impl RunNodes for Seats {
    ghost have = { λ s. AreSeated s.seats.items };

    fn apply(&mut self, sent: &mut Vec<Message>, event: &Event) -> Result<EventResult, AllocError> {
        a_member_steps_alone();
        match self.seats.get_mut(event.node() as usize) {
            Some(seat) => apply_to(seat, sent, event),
            None => Ok(EventResult::Refused(Reason::OutOfRange)),
        }
    }
}
