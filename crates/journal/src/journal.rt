//! A journal.

ghost use Rattle.std.specs.Prelude.{◌≡◌, ◌⊎◌, ◌↔◌, ◌+◌, ◌≤◌, IsTrue, [], ◌++◌, None, Some, IsSome, length, slice_get, IfOk, OnOk, vec_len};
ghost use Rattle.std.specs.Option.{IfSome, option_map};
ghost use Rattle.node_parts.specs.lawful_histories.specs.Lawful.{IsLawful};
ghost use Rattle.node_parts.specs.histories.specs.History.{History};
ghost use Rattle.node_parts.specs.safe_histories.specs.Safe.{IsSafe};
ghost use Rattle.node_parts.specs.joined_histories.specs.Joined.{joined, Precedes};
ghost use Rattle.node_parts.specs.traces.specs.Limits.{IsWithinLimits};
ghost use Rattle.node_parts.specs.traces.specs.Told.{config_of};
ghost use Rattle.node_parts.specs.traces.specs.Traced.{Tells, history_of};
ghost use Rattle.journal.specs.Recalled.{held_at};
ghost use Rattle.journal.specs.Journaled.{seats_in, own_in, IsFull, HasFollowed, HasRoom, TellsSame, HasEntry, MayEnter, EntersOwn};
ghost use Rattle.journal.specs.Logged.{HasLogged, GoesOn, own_entry};
ghost use Rattle.journal.specs.Receipts.{IsReceiptOf, AreWorth};

use crate::beginning::Beginning;
use crate::kept::Kept;
use crate::own::OwnEntry;
use crate::progress::Progress;
use crate::receipt::{Receipt, tells_step};
use crate::recent_steps::RecentSteps;
use crate::retention::{Recent, Retention, Whole};
use crate::whole_steps::WholeSteps;
use ballots::{Message, NodeId};
use ghost_log::{Naming, Opened, Reached};
use histories::laws::{
    a_member_steps_alone, nothing_reaches_the_start, own_entries_decide_the_node, own_entries_grow,
    own_entries_leave_the_node,
};
use joined_histories::laws::{joined_replicas_agree, tails_are_safe};
use node_parts::{Config, Step, Trace};
use std::alloc::{AllocError, Global};
use std::marker::{Brand, Model, PhantomData};

/// All steps that the nodes of one configuration took, each behind those before, with the messages that they sent.
/// Contracts see where its nodes started, its trace, and of each step whether it restarted a node that had back the record
/// that was due where it went down. The type keeps that each step followed by the rules of the nodes.
///
/// Its name says where the nodes started ([`Beginning`]): with nothing, or as a history left them that went before. What is
/// promised holds of both together, whatever that history was.
///
/// A journal that was made with a log ([`Journal::with_log`]) knows how far it has come, under the log's name: a node that
/// knows it too can tell by a count alone that the journal has just its own entries.
///
/// It holds all of its steps ([`Whole`]), or their number and its last messages alone ([`Recent`], made by
/// [`Journal::recent`]). Of the second kind the steps exist in proofs alone, with the same promises; it takes no more memory
/// as it grows, and has no receipts to confirm.
pub struct Journal<J: Beginning = Brand, M: Retention = Whole> {
    kept: Kept,
    progress: Option<Progress<J>>,
    /// How far the log has been seen to go on without this journal, once it has.
    outrun: Option<Reached<OwnEntry, J>>,
    of: PhantomData<M>,
}

impl<J: Beginning, M: Retention> Model for Journal<J, M> {
    ghost use Rattle.std.specs.Prelude.{◌≡◌};
    ghost use Rattle.std.specs.Option.{IfSome};
    ghost use Rattle.journal.specs.Journaled.{Journaled, HasFollowed, journaled};
    ghost use Rattle.journal.specs.Logged.{HasLogged};

    ghost Value = { Journaled };

    ghost view = { λ j. journaled J.start j.kept j.progress j.outrun };

    ghost invariant = { λ j. HasFollowed (journaled J.start j.kept j.progress j.outrun)
        × IfSome j.progress (λ log. HasLogged log (journaled J.start j.kept j.progress j.outrun))
        × (j.kept.whole ≡ M.whole) };
}

// Written out, so that a crate above drops a journal by one call, and does not prove again what is inside it.
impl<J: Beginning, M: Retention> Drop for Journal<J, M> {
    fn drop(self) {
        let Journal {
            kept,
            progress,
            outrun,
            of: _,
        } = self;
        drop(kept);
        drop(progress);
        drop(outrun);
    }
}

impl<J: Beginning> Journal<J, Whole> {
    /// A journal without a step, of nodes of this configuration, which is within its limits. It takes memory from this
    /// allocator as it grows.
    pub fn new(alloc: Global, config: Config) -> Journal<J, Whole>
        requires { IsWithinLimits config }
        ensures start { result.start ≡ J.start }
        ensures trace { Tells result.trace config [] [] }
        ensures recovered { result.recovered ≡ [] }
    {
        nothing_reaches_the_start();
        Journal {
            kept: Kept::whole(WholeSteps::new(alloc, config)),
            progress: None,
            outrun: None,
            of: PhantomData,
        }
    }

    /// A journal without a step, with a log of all nodes' own entries, which has none so far, under the log's name.
    pub fn with_log(alloc: Global, config: Config, log: Opened<OwnEntry>) -> Journal<J, Whole>
        requires within { IsWithinLimits config }
        requires named { log ≡ J.book }
        ensures start { result.start ≡ J.start }
        ensures trace { Tells result.trace config [] [] }
        ensures recovered { result.recovered ≡ [] }
        ensures log { result.log ≡ Some [] }
    {
        nothing_reaches_the_start();
        let (head, reached) = log.named::<J>();
        Journal {
            kept: Kept::whole(WholeSteps::new(alloc, config)),
            progress: Some(Progress::new(head, reached)),
            outrun: None,
            of: PhantomData,
        }
    }

    /// Its steps with what each gave, and all messages that were sent, with what is promised of them
    /// ([`Journal::keeps_promises`]).
    pub fn trace(&self) -> &Trace
        ensures trace { result.now ≡ self.now.trace }
        ensures followed { HasFollowed self.now }
        ensures lawful { (before : History) → Precedes (config_of self.now.trace.config) (seats_in self.now.start) before
            → IsLawful self.now.trace.config.members (before.sent ++ self.now.trace.sent) }
        ensures safe { (before : History) → Precedes (config_of self.now.trace.config) (seats_in self.now.start) before
            → IsSafe (joined before (history_of self.now.trace)) }
    {
        self.keeps_promises();
        self.starts_as_named();
        match self.steps() {
            Some((trace, _)) => trace,
            None => unreachable!(),
        }
    }

    /// Of each step, whether it restarted a node that had back the record that was due where it went down.
    pub fn recovered(&self) -> &[bool]
        ensures { result.now ≡ self.now.recovered }
    {
        self.starts_as_named();
        match self.steps() {
            Some((_, recovered)) => recovered,
            None => unreachable!(),
        }
    }

    /// Whether the step of this number has this event and this answer. Two are compared by what they hold.
    pub fn confirm(&self, receipt: &Receipt) -> bool
        ensures { IsTrue result ↔ IsReceiptOf self.now.trace receipt.now }
    {
        is_told(self.trace(), receipt)
    }

    /// Whether both receipts are of steps of this journal. Then, whoever got them, and if a history left the nodes as they
    /// started here: two answers to one ticket have equal bytes; and an upload that one tells to be applied as a version
    /// stands once, at that version's place, in the other's answer to a ticket of its table for that version or a later one.
    pub fn meet(&self, one: &Receipt, other: &Receipt) -> bool
        ensures confirmed { IsTrue result
            ↔ (IsReceiptOf self.now.trace one.now × IsReceiptOf self.now.trace other.now) }
        ensures worth { IsTrue result → (before : History)
            → Precedes (config_of self.now.trace.config) (seats_in self.now.start) before → AreWorth one.now other.now }
    {
        tails_are_safe();
        let trace = self.trace();
        is_told(trace, one) && is_told(trace, other)
    }
}

impl<J: Beginning> Journal<J, Recent> {
    /// A journal without a step that forgets: it holds how many steps there were, and the last [`RECENT_MESSAGES`] messages at
    /// least. It has a log of all nodes' own entries, which has none so far, under the log's name. Its room is made at once;
    /// [`AllocError`] says that memory was refused.
    pub fn recent(
        alloc: Global,
        config: Config,
        log: Opened<OwnEntry>,
    ) -> Result<Journal<J, Recent>, AllocError>
        requires within { IsWithinLimits config }
        requires named { log ≡ J.book }
        ensures start { IfOk result (λ journal. journal.start ≡ J.start) }
        ensures trace { IfOk result (λ journal. Tells journal.trace config [] []) }
        ensures recovered { IfOk result (λ journal. journal.recovered ≡ []) }
        ensures log { IfOk result (λ journal. journal.log ≡ Some []) }
    {
        nothing_reaches_the_start();
        let steps = RecentSteps::new(alloc, config)?;
        let (head, reached) = log.named::<J>();
        Ok(Journal {
            kept: Kept::recent(steps),
            progress: Some(Progress::new(head, reached)),
            outrun: None,
            of: PhantomData,
        })
    }
}

impl<J: Beginning, M: Retention> Journal<J, M> {
    /// How far the log of the nodes' own entries has come, where the journal has one that stands where it does.
    pub fn log(&self) -> Option<Reached<OwnEntry, J>>
        ensures log { result ≡ self.now.log }
        ensures logged { IfSome result (λ entries. HasLogged entries self.now) }
    {
        match &self.progress {
            Some(progress) => Some(progress.reached()),
            None => None,
        }
    }

    /// How many entries of its own this node has here; `None` exactly where the journal has no log, or the node is none of its
    /// nodes.
    pub fn own_count(&self, node: NodeId) -> Option<u64>
        ensures count { IfSome result (λ count. count ≡ length (own_in node self.now)) }
        ensures none { result ≡ None → (self.now.log ≡ None) ⊎ (self.now.trace.config.members ≤ node) }
    {
        match &self.progress {
            Some(progress) if self.kept.config().members.have(node) => Some(progress.count(node)),
            _ => None,
        }
    }

    /// That its nodes started as its name has it, and that it holds what its kind says. It does nothing.
    pub fn starts_as_named(&self)
        ensures start { self.now.start ≡ J.start }
        ensures whole { self.now.whole ≡ M.whole }
    {
        let _ = &self.kept;
    }

    /// That its steps followed the rules of the nodes. So, behind any history that left the nodes as they started here, what was
    /// sent in both is lawful, and clients may rely on what was answered in both, whether the journal holds its steps or not.
    /// It does nothing.
    pub fn keeps_promises(&self)
        ensures followed { HasFollowed self.now }
        ensures lawful { (before : History) → Precedes (config_of self.now.trace.config) (seats_in self.now.start) before
            → IsLawful self.now.trace.config.members (before.sent ++ self.now.trace.sent) }
        ensures safe { (before : History) → Precedes (config_of self.now.trace.config) (seats_in self.now.start) before
            → IsSafe (joined before (history_of self.now.trace)) }
    {
        joined_replicas_agree();
        let _ = &self.kept;
    }

    /// What the nodes have in common.
    pub fn config(&self) -> Config
        ensures { result ≡ self.now.trace.config }
    {
        self.kept.config()
    }

    /// Its steps, and of each whether it restarted a node that had back the record that was due where it went down; `None`
    /// exactly where it does not hold them.
    pub fn steps(&self) -> Option<(&Trace, &[bool])>
        ensures trace { IfSome result (λ steps. steps.0.now ≡ self.now.trace) }
        ensures recovered { IfSome result (λ steps. steps.1.now ≡ self.now.recovered) }
        ensures some { IsSome result ↔ IsTrue self.now.whole }
    {
        self.kept.all()
    }

    /// How many steps it has.
    pub fn step_count(&self) -> u64
        ensures { result ≡ length self.now.trace.steps }
    {
        self.kept.step_count()
    }

    /// How many messages were sent.
    pub fn sent_count(&self) -> u64
        ensures { result ≡ length self.now.trace.sent }
    {
        self.kept.sent_count()
    }

    /// Whether it holds its steps and has as many as its configuration allows. One that forgets is never full.
    pub fn is_full(&self) -> bool
        ensures { IsTrue result ↔ IsFull self.now }
    {
        match self.steps() {
            Some((trace, _)) => trace.steps().len() >= trace.config().journal_limit as usize,
            None => false,
        }
    }

    /// Whether it holds the step of this number, and this has this event and this answer. Two are compared by what they hold. One
    /// that forgets holds none.
    pub fn holds(&self, receipt: &Receipt) -> bool
        ensures { IsTrue result ↔ (IsTrue self.now.whole × IsReceiptOf self.now.trace receipt.now) }
    {
        match self.steps() {
            Some((trace, _)) => is_told(trace, receipt),
            None => false,
        }
    }

    /// The message of this number, in the order of sending from 0 on; `None` where none of this number was sent, and where the
    /// journal holds it no more. One that holds all of its steps has each message; else the last ones are held
    /// ([`RECENT_MESSAGES`]).
    pub fn message(&self, number: u64) -> Option<&Message>
        ensures held { option_map (λ message. message.now) result
            ≡ held_at self.now.forgotten self.now.trace.sent number }
        ensures whole { IsTrue self.now.whole
            → option_map (λ message. message.now) result ≡ slice_get self.now.trace.sent number }
        ensures recent { length self.now.trace.sent ≤ number + 65536
            → option_map (λ message. message.now) result ≡ slice_get self.now.trace.sent number }
    {
        self.kept.message(number)
    }

    /// Makes room for a step more that sends so many messages. What the journal tells stays, whatever the answer;
    /// [`AllocError`] says that memory was refused, or that there are 2^62 steps or messages.
    pub fn reserve(&mut self, count: usize) -> Result<(), AllocError>
        ensures room { OnOk result (HasRoom self.new count) }
        ensures same { TellsSame self.old self.new }
    {
        self.kept.reserve(count)
    }

    /// Enters a step behind the others, where there is room for it ([`Journal::reserve`]): an event that was applied, what
    /// it gave, and the messages that it sent, which are numbered on from those that were sent before. By what its own
    /// entries leave it, the node of the event gives that by its rules; with this entry they leave it as it is then. Of a
    /// restart `recovered` says whether the node had back the record that was due where it went down. `own` is what the
    /// node has as its own entry of it; a query has none. It takes no memory.
    ///
    /// The log, where the journal knows it, has the node's own entry more. Only where it was seen to go on without the journal,
    /// or has 2^62 entries, does the journal know it no longer.
    pub fn enter(&mut self, step: Step, more: Vec<Message>, recovered: bool, own: Option<&OwnEntry>)
        requires room { HasRoom self.old (vec_len more) }
        requires follows { MayEnter self.old step more.items recovered }
        requires own { option_map (λ entry. entry.now) own ≡ own_entry self.old step more.items recovered }
        ensures entry { HasEntry self.old step more.items recovered self.new }
        ensures own { EntersOwn self.old step more.items recovered self.new }
        ensures log { GoesOn self.old.log self.old.outrun (own_entry self.old step more.items recovered)
            self.new.log self.new.outrun }
    {
        a_member_steps_alone();
        own_entries_decide_the_node();
        own_entries_leave_the_node();
        own_entries_grow();
        self.kept.push(step, more, recovered);
        let (progress, outrun) = with_own(self.progress.take(), self.outrun.take(), own);
        self.progress = progress;
        self.outrun = outrun;
    }
}

// Whether the receipt is of a step of this trace.
fn is_told(trace: &Trace, receipt: &Receipt) -> bool
    ensures { IsTrue result ↔ IsReceiptOf trace.now receipt.now }
{
    match trace.steps().get(receipt.number as usize) {
        Some(step) => tells_step(receipt, step),
        None => false,
    }
}

// The log with an entry more, if there is one to add, and how far it was seen to go on, where it has.
fn with_own<J: Naming>(
    progress: Option<Progress<J>>,
    outrun: Option<Reached<OwnEntry, J>>,
    own: Option<&OwnEntry>,
) -> (Option<Progress<J>>, Option<Reached<OwnEntry, J>>)
    ensures { GoesOn progress outrun (option_map (λ entry. entry.now) own.entry) result.0 result.1 }
{
    let Some(entry) = own else {
        return (progress, outrun);
    };
    let Some(known) = progress else {
        return (None, outrun);
    };
    match known.with(entry) {
        Ok(more) => (Some(more), outrun),
        Err(seen) => (None, Some(seen)),
    }
}
