//! A seat.

ghost use Rattle.std.specs.Prelude.{◌≡◌, ◌≢◌, ◌⊎◌, ◌<◌, List, [], None, Some, Ok, Err, IsTrue, IfOk, IfErr};
ghost use Rattle.std.specs.Option.{IfSome, option_map};
ghost use Rattle.ballots.specs.declared.record.Record.{Record as Held};
ghost use Rattle.agreement_rules.specs.Views.{started_with, Views};
ghost use Rattle.histories.specs.Due.{Input as Owed};
ghost use Rattle.histories.specs.Following.{IsUp};
ghost use Rattle.node_core.specs.Inputs.{input_of};
ghost use Rattle.stored_nodes.specs.State.{IsPlaced, Stands};
ghost use Rattle.stored_nodes.specs.Parts.{IsPlannedFor, PlanAnswers, StandsStill, IsUpFor, PlanTaken, RecoverGives};
ghost use Rattle.stable_records.specs.declared.fault.StoreFault.TheVariants.{OutOfMemory};
ghost use Rattle.stable_records.specs.Calls.{CountsFault, RaisesCount};
ghost use Rattle.stored_nodes.specs.Kept.{CountsRecall, ReadyAfterRecover, AreRecalled};

use crate::due::records_are_due;
use crate::fault::StoredNodeFault;
use crate::kept::KeptRecords;
use crate::reasons::reason_for;
use crate::steps::keep_and_commit;
use ballots::{NodeId, Record};
use node_core::{AgreementConfig, Input, Node, Plan};
use node_events::Reason;
use stable_records::{Stable, StoreFault};
use std::alloc::Global;
use std::hash::RandomState;
use std::marker::Model;
use std::mem;

/// A node with the store of its records, up or down.
pub struct StoredNode<S: Stable> {
    pub(crate) alloc: Global,
    pub(crate) hashing: RandomState,
    pub(crate) me: NodeId,
    pub(crate) config: AgreementConfig,
    pub(crate) kept: KeptRecords<S>,
    pub(crate) node: Option<Node>,
}

impl<S: Stable> Model for StoredNode<S> {
    ghost use Rattle.stored_nodes.specs.State.{StoredNodeState};

    ghost Value = { StoredNodeState S };

    ghost use Rattle.node_core.specs.contracts.node.Node as node_part;
    ghost use Rattle.std.specs.Coded.{codes};

    ghost coded = { Prim.hlevel (codes, node_part.the_row.coded, S.code) };

    ghost use Rattle.std.specs.Prelude.{◌≡◌, ◌≢◌, None};

    ghost view = { λ s. record {
      me = s.me;
      config = s.config;
      store = s.kept.store;
      records = s.kept.records.items;
      doubted = s.kept.doubted;
      node = s.node;
    } };

    ghost invariant = { λ s. s.node ≢ None → s.kept.doubted ≡ None };
}

// Written out, so that a crate above lets go of a seat by one call, and does not prove again what is inside it.
impl<S: Stable + Drop> Drop for StoredNode<S> {
    fn drop(self) {
        let StoredNode {
            alloc: _,
            hashing: _,
            me: _,
            config: _,
            kept,
            node,
        } = self;
        drop(kept);
        drop(node);
    }
}

impl<S: Stable + Drop> StoredNode<S> {
    /// The node `me` of this configuration with this store, up and with nothing; `None` where the store has a record
    /// already. Memory is taken from this allocator; `hashing` has the random keys that keep look-ups fast whatever
    /// names clients choose.
    ///
    /// The fault is the store's, in recalling its records, or [`StoreFault::OutOfMemory`].
    pub fn open(
        alloc: Global,
        hashing: RandomState,
        me: NodeId,
        config: AgreementConfig,
        store: S,
    ) -> Result<Option<StoredNode<S>>, StoreFault>
        requires member { me < config.members }
        ensures placed { IfOk result (λ opened. IfSome opened IsPlaced) }
        ensures me { IfOk result (λ opened. IfSome opened (λ seat. seat.me ≡ me)) }
        ensures config { IfOk result (λ opened. IfSome opened (λ seat. seat.config ≡ config)) }
        ensures stands { IfOk result (λ opened. IfSome opened (λ seat. Stands seat (IsUp (started_with [])))) }
        ensures ready { IfOk result (λ opened. IfSome opened (λ seat. IsTrue (S.is_ready seat.store))) }
        ensures none { IfOk result (λ opened. IfSome opened (λ seat. IsTrue S.tells → S.finds store (Some []))) }
        ensures some { result ≡ Ok None → IsTrue S.tells
            → (records : List Held) × S.finds store (Some records) × (records ≢ []) }
        ensures fault { IfErr result (λ fault. (fault ≡ OutOfMemory)
            ⊎ ((left : S) × RaisesCount fault (S.faults store) (S.faults left))) }
    {
        let Some(kept) = KeptRecords::open(alloc, store)? else {
            return Ok(None);
        };
        match Node::open(alloc, hashing, me, config, &[]) {
            Ok(node) => Ok(Some(StoredNode {
                alloc,
                hashing,
                me,
                config,
                kept,
                node: Some(node),
            })),
            Err(_) => Err(StoreFault::OutOfMemory),
        }
    }

    /// Which node it is.
    pub fn me(&self) -> NodeId
        ensures { result ≡ self.now.me }
    {
        self.me
    }

    /// The node, where it is up.
    pub fn node(&self) -> Option<&Node>
        ensures { option_map (λ node. node.now) result ≡ self.now.node }
    {
        self.node.as_ref()
    }

    /// The records that its store kept, the first that was kept first.
    pub fn records(&self) -> &[Record]
        ensures { result.now ≡ self.now.records }
    {
        self.kept.records.as_slice()
    }

    /// What is due to an input: a plan, which [`StoredNode::take`] makes true, or why the node refuses it, as [`Node::plan`]
    /// tells it. It is [`Reason::Down`] exactly where the node is down, and never [`Reason::NotSent`]. Whatever the
    /// answer, all stands as it stood.
    pub fn plan(&mut self, input: Input) -> Result<Plan, Reason>
        ensures gives { PlanAnswers self.old self.new (input_of input) result }
        ensures can { IfOk result (IsUpFor self.new) }
        ensures same { StandsStill self.old self.new }
    {
        let Some(node) = &mut self.node else {
            drop(input);
            return Err(Reason::Down);
        };
        match node.plan(input) {
            Ok(plan) => Ok(plan),
            Err(refusal) => Err(reason_for(refusal)),
        }
    }

    /// Keeps the plan's record, if it has one, and then does what was planned. Memory is taken for the record alone. The
    /// node is as [`StoredNode::plan`] left it when it made this plan.
    ///
    /// After any fault the node is down, and the record is not kept, or in doubt. A plan that has no record meets none.
    pub fn take(&mut self, plan: Plan) -> Result<(), StoreFault>
        requires { IsUpFor self.old plan }
        ensures counted { CountsFault result (S.faults self.old.store) (S.faults self.new.store) }
        ensures gives { (views : Views) (input : Owed) → IsPlaced self.old
            → IsPlannedFor self.old views input plan → PlanTaken self.old self.new views input plan result }
    {
        records_are_due();
        let Some(node) = &mut self.node else {
            unreachable!();
        };
        match keep_and_commit(node, &mut self.kept, plan) {
            Ok(()) => Ok(()),
            Err(fault) => {
                drop(mem::replace(&mut self.node, None));
                Err(fault)
            }
        }
    }

    /// Opens the node with all records that its store has, and tells whether the one in doubt was among them. The node
    /// that there was is let go, up or down. After a fault nothing is changed but the store.
    ///
    /// [`StoredNodeFault::Store`] is the store's fault in recalling the records, its want of memory too;
    /// [`StoredNodeFault::OutOfMemory`] says that memory for the node was refused.
    pub fn recover(&mut self) -> Result<bool, StoredNodeFault>
        ensures counted { CountsRecall S.tells result (S.faults self.old.store) (S.faults self.new.store) }
        ensures gives { RecoverGives self.old self.new result }
        ensures ready { ReadyAfterRecover result (S.is_ready self.old.store) (S.is_ready self.new.store) }
        ensures recalled { IfOk result (λ _. IsTrue S.tells
            → AreRecalled (S.finds self.old.store) (S.finds self.new.store) self.new.records) }
    {
        let (records, recovered) = match self.kept.recalled(self.alloc) {
            Ok(found) => found,
            Err(fault) => return Err(fault),
        };
        let found = records.as_slice();
        match Node::open(self.alloc, self.hashing, self.me, self.config, found) {
            Ok(node) => {
                self.kept.recover(records);
                drop(mem::replace(&mut self.node, Some(node)));
                Ok(recovered)
            }
            Err(_) => {
                drop(records);
                Err(StoredNodeFault::OutOfMemory)
            }
        }
    }
}
