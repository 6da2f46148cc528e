//! What stands behind the calls of one connection.

ghost use Rattle.std.specs.Prelude.{◌≡◌, ◌⊎◌, ◌++◌, Err, ◌∷◌, [], ℕ, List, IfOk, IfErr, OnOk, OnErr};
ghost use Rattle.header_types.specs.Fields.{SchemaTree};
ghost use Rattle.table_types.specs.Uploads.{schema_text};
ghost use Rattle.table_types.specs.Valid.{FitsFrame};
ghost use Rattle.table_types.specs.Tables.{Version};
ghost use Rattle.table_types.specs.Answers.{answer_of};
ghost use Rattle.table_versions.specs.Outcomes.{told};
ghost use Rattle.call_reading.specs.Requests.{Request, describes, shows, lists, serves, puts};
ghost use Rattle.flight_calls.specs.Replies.{BackAnswer, Description, described, shown, listed, served, decided, failed};
ghost use Rattle.flight_calls.specs.Backing.{Describes, DescribeAll};
ghost use Rattle.call_protocol.specs.declared.back_fault.BackFault.TheVariants.{OutOfMemory};

use crate::table_description::TableDescription;
use call_protocol::BackFault;
use std::alloc::Global;
use table_types::Ticket;
use table_versions::{Answer, Outcome};
use uploads::Upload;

/// What stands behind the calls of one connection: it takes uploads, and tells of tables. It names which answers each
/// call may give, so that whoever serves a call over it can say what goes out.
pub trait Backend {
    /// What it may answer to a request, as it is when it is asked.
    ghost may_answer: { Self → Request → BackAnswer → Type 0 };

    /// The encodings of the uploads that it was handed, in order.
    ghost handed: { Self → List (List ℕ) };

    /// What it may be after an upload was put that it took.
    ghost leaves: { Self → List ℕ → Self → Type 0 };

    /// What it may be after a call by which it takes nothing: after it was asked something, and after a put that failed.
    ghost stays: { Self → Self → Type 0 };

    /// Hands over an upload. After a fault it was handed over too, but where memory was refused it may not have been.
    fn put(&mut self, upload: &Upload) -> Result<(), BackFault>
        ensures hands { (handed self.new ≡ handed self.old ++ upload.now ∷ [])
            ⊎ ((result ≡ Err OutOfMemory) × (handed self.new ≡ handed self.old)) }
        ensures leaves { OnOk result (leaves self.old upload.now self.new) }
        ensures stays { OnErr result (stays self.old self.new) }
        ensures fault { IfErr result (λ fault. may_answer self.old (puts upload.now) (failed fault)) };

    /// What has become of an upload that was put; it may wait until that is known.
    fn outcome(&mut self, upload: &Upload) -> Result<Outcome, BackFault>
        ensures decided { IfOk result
            (λ outcome. may_answer self.old (puts upload.now) (decided (told outcome))) }
        ensures fault { IfErr result (λ fault. may_answer self.old (puts upload.now) (failed fault)) }
        ensures same { handed self.new ≡ handed self.old }
        ensures stays { stays self.old self.new };

    /// What answers a ticket: the frames of the version that it asks for.
    fn get(&mut self, alloc: Global, ticket: &Ticket) -> Result<Answer, BackFault>
        ensures served { IfOk result (λ answer. (version : Version)
            × may_answer self.old (serves ticket.now) (served version) × (answer ≡ answer_of version)) }
        ensures fault { IfErr result (λ fault. may_answer self.old (serves ticket.now) (failed fault)) }
        ensures same { handed self.new ≡ handed self.old }
        ensures stays { stays self.old self.new };

    /// What is told of the latest version of a table, and where it is served.
    fn info(&mut self, alloc: Global, table: &str) -> Result<TableDescription, BackFault>
        ensures described { IfOk result (λ found. (description : Description)
            × may_answer self.old (describes table.now) (described description) × Describes found description) }
        ensures fault { IfErr result (λ fault. may_answer self.old (describes table.now) (failed fault)) }
        ensures same { handed self.new ≡ handed self.old }
        ensures stays { stays self.old self.new };

    /// The message with the schema of a table (Apache Arrow, "Schema.fbs"), as it is written, no longer than a frame's
    /// payload.
    fn schema(&mut self, alloc: Global, table: &str) -> Result<Vec<u8>, BackFault>
        ensures shown { IfOk result (λ bytes. (schema : SchemaTree)
            × may_answer self.old (shows table.now) (shown schema) × (bytes.items ≡ schema_text schema)
            × FitsFrame bytes.items) }
        ensures fault { IfErr result (λ fault. may_answer self.old (shows table.now) (failed fault)) }
        ensures same { handed self.new ≡ handed self.old }
        ensures stays { stays self.old self.new };

    /// What is told of the latest version of each table.
    fn list(&mut self, alloc: Global) -> Result<Vec<TableDescription>, BackFault>
        ensures listed { IfOk result (λ all. (descriptions : List Description)
            × may_answer self.old lists (listed descriptions) × DescribeAll all.items descriptions) }
        ensures fault { IfErr result (λ fault. may_answer self.old lists (failed fault)) }
        ensures same { handed self.new ≡ handed self.old }
        ensures stays { stays self.old self.new };
}
