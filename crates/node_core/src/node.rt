//! A node, and how a plan is committed.

ghost use Rattle.std.specs.Prelude.{◌≡◌};
ghost use Rattle.agreement_rules.specs.Views.{Views};
ghost use Rattle.node_core.specs.State.{NodeHas};
ghost use Rattle.node_core.specs.Plans.{LeadsTo, CanCommit};
ghost use Rattle.node_core.specs.declared.plan.Planned.TheVariants.{Waits, Steps, Learns};

use crate::plan::{Plan, Planned};
use agreement::{Agreement, AgreementConfig, AgreementStep};
use ballots::NodeId;
use decided_log::laws::prefixes_are_one;
use learner::laws::learned_is_one;
use pending_uploads::PendingUploads;
use std::marker::Model;
use table_types::laws::{texts_hold_one_list_of_uploads, uploads_have_one_encoding};
use table_versions::{Ready, Tables};
use uploads::Upload;

/// One node.
pub struct Node {
    pub(crate) agreement: Agreement,
    pub(crate) tables: Tables,
    pub(crate) waiting: PendingUploads,
}

impl Model for Node {
    ghost use Rattle.node_core.specs.State.{NodeState};

    ghost Value = { NodeState };

    ghost use Rattle.agreement.specs.contracts.agreement.Agreement as agreement_part;
    ghost use Rattle.table_versions.specs.contracts.tables.Tables as tables_part;
    ghost use Rattle.pending_uploads.specs.contracts.pending.PendingUploads as waiting_part;
    ghost use Rattle.std.specs.Coded.{codes};

    ghost coded = { Prim.hlevel (codes, agreement_part.the_row.coded, tables_part.the_row.coded, waiting_part.the_row.coded) };

    ghost use Rattle.agreement_rules.specs.Views.{Views};
    ghost use Rattle.node_core.specs.State.{NodeHas};

    ghost view = { λ n. record { agreement = n.agreement; tables = n.tables; waiting = n.waiting } };

    ghost invariant = { λ n. (views : Views)
        × NodeHas (record { agreement = n.agreement; tables = n.tables; waiting = n.waiting }) views };
}

// Written out, so that a crate above lets go of a node by one call, and does not prove again what is inside it.
impl Drop for Node {
    fn drop(self) {
        let Node {
            agreement,
            tables,
            waiting,
        } = self;
        drop(agreement);
        drop(tables);
        drop(waiting);
    }
}

impl Node {
    /// Which node it is.
    pub fn me(&self) -> NodeId
        ensures { result ≡ self.now.agreement.me }
    {
        self.agreement.me()
    }

    /// How many members agree, and for how many slots.
    pub fn config(&self) -> AgreementConfig
        ensures { result ≡ self.now.agreement.config }
    {
        self.agreement.config()
    }

    /// Does what was decided, and takes no memory. The node is as [`Node::plan`] left it when it made this plan.
    pub fn commit(&mut self, plan: Plan)
        requires { CanCommit self.old plan }
        ensures stands { (views after : Views) → NodeHas self.old views
            → LeadsTo self.old.agreement.config views plan after → NodeHas self.new after }
        ensures me { self.new.agreement.me ≡ self.old.agreement.me }
        ensures config { self.new.agreement.config ≡ self.old.agreement.config }
    {
        match plan.planned {
            Planned::Stays => {}
            Planned::Waits(upload) => self.wait(upload),
            Planned::Steps(step) => self.step(step),
            Planned::Learns(step, ready) => self.learn(step, ready),
        }
    }

    // Lets an upload wait.
    fn wait(&mut self, upload: Upload)
        requires { CanCommit self.old (Waits upload) }
        ensures stands { (views after : Views) → NodeHas self.old views
            → LeadsTo self.old.agreement.config views (Waits upload) after → NodeHas self.new after }
        ensures me { self.new.agreement.me ≡ self.old.agreement.me }
        ensures config { self.new.agreement.config ≡ self.old.agreement.config }
    {
        learned_is_one();
        prefixes_are_one();
        uploads_have_one_encoding();
        texts_hold_one_list_of_uploads();
        self.waiting.push(upload);
    }

    // Takes a step by which the prefix stays.
    fn step(&mut self, step: AgreementStep)
        requires { CanCommit self.old (Steps step) }
        ensures stands { (views after : Views) → NodeHas self.old views
            → LeadsTo self.old.agreement.config views (Steps step) after → NodeHas self.new after }
        ensures me { self.new.agreement.me ≡ self.old.agreement.me }
        ensures config { self.new.agreement.config ≡ self.old.agreement.config }
    {
        self.agreement.commit(step);
    }

    // Takes a step, and the values by which the prefix grows.
    fn learn(&mut self, step: AgreementStep, ready: Ready)
        requires { CanCommit self.old (Learns step ready) }
        ensures stands { (views after : Views) → NodeHas self.old views
            → LeadsTo self.old.agreement.config views (Learns step ready) after → NodeHas self.new after }
        ensures me { self.new.agreement.me ≡ self.old.agreement.me }
        ensures config { self.new.agreement.config ≡ self.old.agreement.config }
    {
        learned_is_one();
        prefixes_are_one();
        uploads_have_one_encoding();
        texts_hold_one_list_of_uploads();
        self.agreement.commit(step);
        self.tables.apply(ready);
        self.waiting.keep_unknown(&self.tables);
    }
}
