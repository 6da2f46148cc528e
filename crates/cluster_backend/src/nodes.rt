//! The nodes of a cluster, as calls see them.

ghost use Rattle.std.specs.Prelude.{ℕ, List, map, string_bytes, IfOk, IfErr};
ghost use Rattle.std.specs.List.{AllZip};
ghost use Rattle.std.specs.Option.{IfSome, IfNone};
ghost use Rattle.node_threads.specs.parts.table_types.specs.Uploads.{Upload as Uploaded};
ghost use Rattle.node_threads.specs.parts.table_types.specs.Tables.{effective, table_names};
ghost use Rattle.node_threads.specs.parts.table_versions.specs.Info.{IsLatest};
ghost use Rattle.node_threads.specs.parts.node_events.specs.declared.event_result.EventResult.{EventResult as Given};
ghost use Rattle.node_threads.specs.seats.specs.declared.query.Query.{Query as Asked};
ghost use Rattle.node_threads.specs.seats.specs.declared.query.Query.TheVariants.{Outcome};
ghost use Rattle.node_threads.specs.seats.specs.declared.fault.SeatFault.{SeatFault as Fault};
ghost use Rattle.table_backend.specs.Backing.{TellsLatest};
ghost use Rattle.cluster_backend.specs.Backing.{IsAnswerTo, AreAgreed};

use crate::caller::Caller;
use flight_calls::TableDescription;
use node_threads::{Pending, Query, Receipt, SeatFault};
use std::alloc::Global;
use std::sync::Wait;
use std::time::Clock;
use table_versions::TableInfo;
use uploads::Upload;

/// The nodes of a cluster, by their numbers, as those see them who serve calls.
pub trait Nodes {
    /// That the node was asked this, and that this answer of it is entered.
    ghost entered: { ℕ → Asked → Given → Type 0 };

    /// That the node's tables may hold what these uploads make.
    ghost holds: { ℕ → List Uploaded → Type 0 };

    /// Why the node may give no answer.
    ghost fails: { ℕ → Fault → Type 0 };

    /// Hands the node an upload, whose outcome is waited for.
    fn put<R: Wait>(&self, rt: &R, node: usize, upload: &Upload) -> Result<Pending, SeatFault>
        ensures { IfErr result (fails node) };

    /// Waits until the outcome of the upload that was put is known at the node and entered; the receipt has it. `None` where the
    /// caller leaves before: then the upload waits no more, and may be decided even so.
    fn outcome<R: Wait + Clock, P: Caller>(
        &self,
        rt: &R,
        node: usize,
        upload: &Upload,
        pending: Pending,
        caller: &P,
    ) -> Result<Option<Receipt>, SeatFault>
        ensures entered { IfOk result (λ found. IfSome found (λ receipt. entered node (Outcome upload.now) receipt.answer
            × IsAnswerTo (Outcome upload.now) receipt.answer)) }
        ensures left { IfOk result (λ found. IfNone found P.may_leave) }
        ensures fault { IfErr result (fails node) };

    /// Asks the node; the receipt has the answer, which is entered.
    fn ask<R: Wait>(&self, rt: &R, node: usize, query: Query) -> Result<Receipt, SeatFault>
        ensures entered { IfOk result (λ receipt. entered node query receipt.answer × IsAnswerTo query receipt.answer) }
        ensures fault { IfErr result (fails node) };

    /// The latest version of a table in the node's tables, `None` where no upload to it counts.
    fn latest<R: Wait>(
        &self,
        rt: &R,
        node: usize,
        table: &str,
    ) -> Result<Option<TableInfo>, SeatFault>
        ensures latest { IfOk result (λ info. (uploads : List Uploaded) × holds node uploads × AreAgreed uploads
            × IsLatest info table.now (effective table.now uploads)) }
        ensures fault { IfErr result (fails node) };

    /// The latest version of each of the node's tables, in the order of their first uploads, with these locations.
    fn tables<R: Wait>(
        &self,
        rt: &R,
        alloc: Global,
        node: usize,
        locations: &[String],
    ) -> Result<Vec<TableDescription>, SeatFault>
        ensures all { IfOk result (λ all. (uploads : List Uploaded) × holds node uploads × AreAgreed uploads
            × AllZip (λ name found. TellsLatest (map string_bytes locations.now) name (effective name uploads) found)
            (table_names uploads) all.items) }
        ensures fault { IfErr result (fails node) };
}
