//! What a node answers to clients, from the tables of its prefix.

ghost use Rattle.std.specs.Prelude.{◌≡◌, ◌≢◌, List, [], map, string_bytes, IfOk, OnErr, IsSome};
ghost use Rattle.std.specs.Option.{option_map};
ghost use Rattle.table_types.specs.Uploads.{Upload as Uploaded};
ghost use Rattle.table_types.specs.Texts.{IsTextOf};
ghost use Rattle.table_types.specs.Answers.{answer_of};
ghost use Rattle.table_types.specs.Tables.{effective, version_of, outcome_of, table_names};
ghost use Rattle.table_versions.specs.Outcomes.{told};
ghost use Rattle.table_versions.specs.Info.{IsLatest};
ghost use Rattle.agreement_rules.specs.Views.{Views};
ghost use Rattle.histories.specs.Texts.{HasUploads};
ghost use Rattle.node_core.specs.State.{NodeHas};

use crate::node::Node;
use ballots::OutOfMemory;
use decided_log::laws::prefixes_are_one;
use learner::laws::learned_is_one;
use table_types::Ticket;
use table_versions::{Answer, Outcome, TableInfo};
use uploads::Upload;

impl Node {
    /// What answers a ticket: the frames of this version of this table, in the tables that the node's prefix makes. They
    /// are shared. `None` exactly where it has none; and memory can be refused only where it has one. Nothing changes.
    pub fn get(&self, ticket: &Ticket) -> Result<Option<Answer>, OutOfMemory>
        ensures answer { (views : Views) (uploads : List Uploaded) → NodeHas self.now views
            → HasUploads self.now.agreement.config.members views.learner_calls uploads
            → IfOk result (λ answer. answer
            ≡ option_map answer_of (version_of ticket.now.table ticket.now.version uploads)) }
        ensures memory { OnErr result ((views : Views) (uploads : List Uploaded) → NodeHas self.now views
            → HasUploads self.now.agreement.config.members views.learner_calls uploads
            → IsSome (version_of ticket.now.table ticket.now.version uploads)) }
    {
        learned_is_one();
        prefixes_are_one();
        self.tables.answer(ticket)
    }

    /// The latest version of a table, `None` exactly where no upload to it counts. Memory can be refused only where one
    /// does. Nothing changes.
    pub fn info(&self, table: &str) -> Result<Option<TableInfo>, OutOfMemory>
        ensures latest { (views : Views) (uploads : List Uploaded) → NodeHas self.now views
            → HasUploads self.now.agreement.config.members views.learner_calls uploads
            → IfOk result (λ info. IsLatest info table.now (effective table.now uploads)) }
        ensures memory { OnErr result ((views : Views) (uploads : List Uploaded) → NodeHas self.now views
            → HasUploads self.now.agreement.config.members views.learner_calls uploads → effective table.now uploads ≢ []) }
    {
        learned_is_one();
        prefixes_are_one();
        self.tables.latest(table)
    }

    /// The names of the tables, in the order of their first effective uploads. Memory can be refused only where there is a
    /// table. Nothing changes.
    pub fn tables(&self) -> Result<Vec<String>, OutOfMemory>
        ensures names { (views : Views) (uploads : List Uploaded) → NodeHas self.now views
            → HasUploads self.now.agreement.config.members views.learner_calls uploads
            → IfOk result (λ names. map string_bytes names.items ≡ table_names uploads) }
        ensures memory { OnErr result ((views : Views) (uploads : List Uploaded) → NodeHas self.now views
            → HasUploads self.now.agreement.config.members views.learner_calls uploads → table_names uploads ≢ []) }
    {
        learned_is_one();
        prefixes_are_one();
        self.tables.tables()
    }

    /// What is told of an upload, by the node's prefix. It takes no memory, and nothing changes.
    pub fn outcome(&self, upload: &Upload) -> Outcome
        ensures { (views : Views) (uploads : List Uploaded) (uploaded : Uploaded) → NodeHas self.now views
            → HasUploads self.now.agreement.config.members views.learner_calls uploads → IsTextOf upload.now uploaded
            → told result ≡ outcome_of uploads uploaded }
    {
        learned_is_one();
        prefixes_are_one();
        self.tables.outcome(upload)
    }
}
