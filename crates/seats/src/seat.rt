//! A seat.

ghost use Rattle.std.specs.Prelude.{◌≡◌, ◌≢◌, ◌⊎◌, ◌↔◌, ℕ, ◌<◌, List, [], None, Some, Ok, Err, IsTrue, IfOk, IfErr, OnOk};
ghost use Rattle.std.specs.Option.{IfSome};
ghost use Rattle.journal.specs.parts.ballots.specs.declared.record.Record.{Record as Held};
ghost use Rattle.journal.specs.parts.ballots.specs.declared.value.Value.{Value as Decided};
ghost use Rattle.journal.specs.parts.table_types.specs.Uploads.{Upload as Uploaded};
ghost use Rattle.journal.specs.parts.table_versions.specs.Values.{AreUploadsIn};
ghost use Rattle.journal.specs.parts.table_versions.specs.State.{HasTaken};
ghost use Rattle.journal.specs.parts.agreement_rules.specs.Views.{started_with, Views, HasPrefix};
ghost use Rattle.journal.specs.parts.histories.specs.Following.{UpOrDown as HistorySeat, IsUp, at_first};
ghost use Rattle.journal.specs.parts.safe_histories.specs.Learning.{Runs, HasLearnedPrefix};
ghost use Rattle.stable_records.specs.declared.fault.StoreFault.TheVariants.{OutOfMemory};
ghost use Rattle.stable_records.specs.Calls.{RaisesCount};
ghost use Rattle.stored_nodes.specs.State.{IsPlaced, StandsUp};
ghost use Rattle.journal.specs.parts.traces.specs.Limits.{IsWithinLimits};
ghost use Rattle.journal.specs.parts.histories.specs.History.{History};
ghost use Rattle.journal.specs.parts.joined_histories.specs.Joined.{joined, Precedes};
ghost use Rattle.journal.specs.parts.traces.specs.Told.{config_of};
ghost use Rattle.journal.specs.parts.traces.specs.Traced.{history_of};
ghost use Rattle.journal.specs.Journaled.{seats_in, own_in};
ghost use Rattle.seats.specs.declared.fault.SeatFault.TheVariants.{Down};
ghost use Rattle.seats.specs.State.{StandsSo, CanTell, IsSeenToAgree, IsLedTo, IsLedNode};
ghost use Rattle.seats.specs.Steps.{IsDown, StandsSame, PrepareGives, IsFaultFor};

use crate::agreeing::are_own;
use crate::fault::SeatFault;
use crate::handing::handed_over;
use crate::input::{Prepared, SeatInput};
use crate::own_entries::OwnEntries;
use agreement::{AgreementConfig, Refusal};
use ballots::NodeId;
use ghost_log::Reached;
use histories::laws::own_entries_decide_the_node;
use joined_histories::laws::joined_histories_show;
use journal::{Beginning, Config, Journal, OwnEntry, Recent, Retention, Whole};
use node_core::Node;
use node_events::Reason;
use stable_records::{Stable, StoreFault};
use std::alloc::Global;
use std::hash::RandomState;
use std::marker::{Brand, Model, PhantomData};
use stored_nodes::StoredNode;

/// A node with the store of its records, up or down, and what it did itself. The type keeps that its own entries leave the
/// node as it is: up or down, with what it has, and its records those that it kept by them.
///
/// Seats and journals that know one log have its name ([`Journal::with_log`]). A seat of nodes whose journal forgets
/// ([`Recent`]) counts its own entries, and holds none of them.
pub struct Seat<S: Stable, J: Beginning = Brand, M: Retention = Whole> {
    pub(crate) alloc: Global,
    pub(crate) me: NodeId,
    pub(crate) config: Config,
    pub(crate) node: StoredNode<S>,
    pub(crate) own: OwnEntries,
    /// What is known of the log of all nodes' own entries.
    pub(crate) known: Option<Reached<OwnEntry, J>>,
    pub(crate) of: PhantomData<M>,
}

impl<S: Stable, J: Beginning, M: Retention> Model for Seat<S, J, M> {
    ghost use Rattle.std.specs.Prelude.{◌≡◌};
    ghost use Rattle.std.specs.Option.{IfSome};
    ghost use Rattle.journal.specs.Logged.{own_of};
    ghost use Rattle.journal.specs.Journaled.{seats_in};
    ghost use Rattle.seats.specs.State.{RunningSeat, IsLed};

    ghost Value = { RunningSeat S };

    ghost use Rattle.node_core.specs.contracts.node.Node as node_part;
    ghost use Rattle.std.specs.Coded.{codes};

    ghost coded = { Prim.hlevel (codes, node_part.the_row.coded, S.code) };

    ghost view = { λ s. record {
      config = s.config;
      start = seats_in J.start s.me;
      node = s.node;
      own = s.own.entries;
      keeps = s.own.keeps;
      known = s.known;
    } };

    ghost invariant = { λ s. (s.me ≡ s.node.me)
        × IsLed (record {
          config = s.config;
          start = seats_in J.start s.me;
          node = s.node;
          own = s.own.entries;
          keeps = s.own.keeps;
          known = s.known;
        })
        × IfSome s.known (λ log. s.own.entries ≡ own_of s.me log)
        × (s.own.keeps ≡ M.whole) };
}

// Written out, so that a crate above lets go of a seat by one call, and does not prove again what is inside it.
impl<S: Stable + Drop, J: Beginning, M: Retention> Drop for Seat<S, J, M> {
    fn drop(self) {
        let Seat {
            alloc: _,
            me: _,
            config: _,
            node,
            own,
            known,
            of: _,
        } = self;
        drop(node);
        drop(own);
        drop(known);
    }
}

impl<S: Stable + Drop, J: Beginning> Seat<S, J, Whole> {
    /// The node `me` of this configuration with this store, up and with nothing; `None` where the store has a record
    /// already. Memory is taken from this allocator; `hashing` has the random keys that keep look-ups fast whatever
    /// names clients choose.
    ///
    /// The fault is the store's, in recalling its records, or [`StoreFault::OutOfMemory`].
    pub fn open(
        alloc: Global,
        hashing: RandomState,
        me: NodeId,
        config: Config,
        store: S,
    ) -> Result<Option<Seat<S, J, Whole>>, StoreFault>
        requires within { IsWithinLimits config }
        requires member { me < config.members }
        requires start { J.start ≡ [] }
        ensures me { IfOk result (λ opened. IfSome opened (λ seat. seat.node.me ≡ me)) }
        ensures config { IfOk result (λ opened. IfSome opened (λ seat. seat.config ≡ config)) }
        ensures own { IfOk result (λ opened. IfSome opened (λ seat. seat.own ≡ [])) }
        ensures stands { IfOk result (λ opened. IfSome opened (λ seat. StandsUp seat.node (started_with []))) }
        ensures ready { IfOk result (λ opened. IfSome opened (λ seat. IsTrue (S.is_ready seat.node.store))) }
        ensures none { IfOk result (λ opened. IfSome opened (λ seat. IsTrue S.tells → S.finds store (Some []))) }
        ensures some { result ≡ Ok None → IsTrue S.tells
            → (records : List Held) × S.finds store (Some records) × (records ≢ []) }
        ensures fault { IfErr result (λ fault. (fault ≡ OutOfMemory)
            ⊎ ((left : S) × RaisesCount fault (S.faults store) (S.faults left))) }
    {
        let Some(agreed) = AgreementConfig::new(config.members, config.slot_limit) else {
            unreachable!();
        };
        let Some(node) = StoredNode::open(alloc, hashing, me, agreed, store)? else {
            return Ok(None);
        };
        Ok(Some(Seat {
            alloc,
            me,
            config,
            node,
            own: OwnEntries::held(alloc),
            known: None,
            of: PhantomData,
        }))
    }

    /// The seat of a node that is where a journal of this name begins: it has no entry of its own, and the node stands as the
    /// name has it at its start ([`Beginning`]), up or down.
    pub fn begin(alloc: Global, config: Config, node: StoredNode<S>) -> Seat<S, J, Whole>
        requires config { node.config ≡ config_of config }
        requires placed { IsPlaced node }
        requires stands { StandsSo node (seats_in J.start node.me) }
        ensures node { result.node ≡ node }
        ensures config { result.config ≡ config }
        ensures start { result.start ≡ seats_in J.start node.me }
        ensures own { result.own ≡ [] }
    {
        let me = node.me();
        Seat {
            alloc,
            me,
            config,
            node,
            own: OwnEntries::held(alloc),
            known: None,
            of: PhantomData,
        }
    }

    /// The seat with a journal that forgets, where it has no entry of its own yet: it counts its entries from here on. It knows
    /// the journal's log where that has no entry either.
    pub fn counting(self, journal: &Journal<J, Recent>) -> Seat<S, J, Recent>
        requires { self.own ≡ [] }
        ensures node { result.node ≡ self.node }
        ensures config { result.config ≡ self.config }
        ensures start { result.start ≡ self.start }
        ensures own { result.own ≡ [] }
        ensures known { journal.now.log ≡ Some [] → result.known ≡ Some [] }
    {
        let Seat {
            alloc,
            me,
            config,
            node,
            own,
            known,
            of: _,
        } = self;
        drop(own);
        drop(known);
        Seat {
            alloc,
            me,
            config,
            node,
            own: OwnEntries::counted(),
            known: without_entries(journal.log()),
            of: PhantomData,
        }
    }
}

impl<S: Stable + Drop, J: Beginning, M: Retention> Seat<S, J, M> {
    /// Which node it is.
    pub fn me(&self) -> NodeId
        ensures { result ≡ self.now.node.me }
    {
        self.node.me()
    }

    /// What the nodes have in common.
    pub fn config(&self) -> Config
        ensures { result ≡ self.now.config }
    {
        self.config
    }

    /// The node, or [`SeatFault::Down`] exactly where there is none. The seat's own entries leave it what it has, and its
    /// tables have taken the values of its prefix: so there is a list of uploads that all of its answers are by.
    pub fn node(&self) -> Result<&Node, SeatFault>
        ensures up { IfOk result (λ node. self.now.node.node ≡ Some node.now) }
        ensures led { IfOk result (λ node. IsLedNode self.now node.now) }
        ensures tables { IfOk result (λ node. (values : List Decided) × (uploads : List Uploaded)
            × HasTaken node.now.tables values × AreUploadsIn values uploads) }
        ensures down { IfErr result (λ why. (why ≡ Down) × IsDown self.now) }
    {
        match self.node.node() {
            Some(node) => Ok(node),
            None => Err(SeatFault::Down),
        }
    }

    /// That it holds its own entries exactly where its kind says so. It does nothing.
    pub fn keeps_as_named(&self)
        ensures { self.now.keeps ≡ M.whole }
    {
        let _ = &self.own;
    }

    /// Whether the journal is of the same configuration and has just the entries of this node that the seat has, each by
    /// what it holds, and this is seen: both hold their entries, or both know the log of their name. Then,
    /// behind any history that left the nodes as the journal has them at its start, the node is up exactly where both show
    /// that it runs, and its prefix is what both show that it has learned.
    ///
    /// Where both know the log of their name, it compares two counts. Else it compares all of the journal's entries with
    /// those of the seat.
    pub fn agrees(&self, journal: &Journal<J, M>) -> bool
        ensures agrees { IsTrue result ↔ IsSeenToAgree self.now journal.now }
        ensures runs { IsTrue result → (before : History)
            → Precedes (config_of journal.now.trace.config) (seats_in journal.now.start) before
            → (IsDown self.now → ⊥)
            ↔ Runs self.now.node.me (joined before (history_of journal.now.trace)).steps }
        ensures prefix { IsTrue result → (before : History) (views : Views) (values : List Decided)
            → Precedes (config_of journal.now.trace.config) (seats_in journal.now.start) before
            → IsLedTo self.now (IsUp views)
            → HasPrefix self.now.node.config.members views.learner_calls values
            ↔ HasLearnedPrefix self.now.node.config.members (joined before (history_of journal.now.trace)).sent
            (joined before (history_of journal.now.trace)).steps self.now.node.me values }
    {
        joined_histories_show();
        own_entries_decide_the_node();
        let _ = &self.own;
        journal.keeps_promises();
        self.has_own(journal)
    }

    // Whether the journal is of the same configuration and is seen to have just the entries of this node that the seat has. Both
    // start as their name has it.
    fn has_own(&self, journal: &Journal<J, M>) -> bool
        ensures { IsTrue result ↔ IsSeenToAgree self.now journal.now }
    {
        let _ = &self.me;
        journal.starts_as_named();
        self.has_entries(journal)
    }

    // Whether the journal is of the same configuration and is seen to have just the entries of this node that the seat has.
    fn has_entries(&self, journal: &Journal<J, M>) -> bool
        ensures { IsTrue result ↔ ((journal.now.trace.config ≡ self.now.config)
            × (own_in self.now.node.me journal.now ≡ self.now.own) × CanTell self.now journal.now) }
    {
        if self.config != journal.config() {
            return false;
        }
        match (&self.known, journal.log(), journal.own_count(self.me)) {
            (Some(known), Some(log), Some(count)) => {
                known.beside(&log);
                self.own.len() == count
            }
            _ => self.has_each(journal),
        }
    }

    // Whether the journal has just the entries of this node that the seat has, each compared, where both hold them.
    fn has_each(&self, journal: &Journal<J, M>) -> bool
        ensures { IsTrue result ↔ ((own_in self.now.node.me journal.now ≡ self.now.own)
            × IsTrue self.now.keeps × IsTrue journal.now.whole) }
    {
        match (self.own.entries(), journal.steps()) {
            (Some(own), Some((trace, recovered))) => {
                are_own(own, self.me, trace.sent(), trace.steps(), recovered)
            }
            _ => false,
        }
    }

    /// What is due to an input, which [`Seat::take`] does: exactly the plan that is due, or the refusal, memory apart
    /// ([`SeatFault::Refused`]); or [`SeatFault::Down`], exactly where the node is down. Nothing changes that decides what
    /// the node does, whatever the answer.
    pub fn prepare(&mut self, input: SeatInput) -> Result<Prepared, SeatFault>
        ensures gives { PrepareGives self.old self.new input result }
        ensures same { StandsSame self.old self.new }
        ensures store { self.new.node.store ≡ self.old.node.store }
    {
        let copy = match self.node.node() {
            Some(node) => match handed_over(node, &input) {
                Ok(copy) => copy,
                Err(refusal) => {
                    drop(input);
                    return Err(SeatFault::Refused(refusal));
                }
            },
            None => {
                drop(input);
                return Err(SeatFault::Down);
            }
        };
        let plan = match self.node.plan(copy) {
            Ok(plan) => plan,
            Err(reason) => {
                drop(input);
                return Err(fault_for(reason));
            }
        };
        Ok(Prepared { input, plan })
    }
}

// What is known of a log that has no entry yet.
fn without_entries<J: Beginning>(log: Option<Reached<OwnEntry, J>>) -> Option<Reached<OwnEntry, J>>
    ensures none { IfSome result (λ entries. entries ≡ []) }
    ensures known { log ≡ Some [] → result ≡ Some [] }
{
    match log {
        Some(log) if log.len() == 0 => Some(log),
        _ => None,
    }
}

// Why nothing is due.
fn fault_for(reason: Reason) -> SeatFault
    ensures { IsFaultFor reason result }
{
    match reason {
        Reason::OutOfRange => SeatFault::Refused(Refusal::OutOfRange),
        Reason::SlotsSpent => SeatFault::Refused(Refusal::SlotsSpent),
        Reason::RoundsSpent => SeatFault::Refused(Refusal::RoundsSpent),
        Reason::OutOfMemory => SeatFault::Refused(Refusal::OutOfMemory),
        Reason::Down => SeatFault::Down,
        Reason::NotSent => SeatFault::NotSent,
    }
}
