//! Running nodes, as calls see them.

ghost use Rattle.std.specs.Prelude.{◌≡◌, ◌≢◌, List, [], map, string_bytes, IfOk};
ghost use Rattle.std.specs.List.{AllZip};
ghost use Rattle.std.specs.Option.{IfNone};
ghost use Rattle.node_threads.specs.parts.table_types.specs.Uploads.{Upload as Uploaded};
ghost use Rattle.node_threads.specs.parts.table_types.specs.Tables.{effective, table_names};
ghost use Rattle.node_threads.specs.parts.table_versions.specs.Info.{IsLatest};
ghost use Rattle.table_backend.specs.Backing.{TellsLatest};
ghost use Rattle.cluster_backend.specs.Backing.{AreAgreed, HasTables, IsEntered};

use crate::caller::{Caller, TURN_MILLISECONDS};
use crate::nodes::Nodes;
use agreement::Refusal;
use flight_calls::TableDescription;
use node_core::Node;
use node_threads::{
    Beginning, Ending, Gate, Pending, Query, Receipt, Retention, Running, Seat, SeatFault,
};
use stable_records::Stable;
use std::alloc::{AllocError, Global};
use std::sync::Wait;
use std::time::{Clock, Duration};
use table_versions::TableInfo;
use table_versions::laws::tables_have_effective_uploads;
use uploads::Upload;

impl<const N: usize, S: Stable + Drop, J: Beginning, G: Gate + Drop, M: Retention> Nodes
    for Running<N, S, J, G, M> {
    ghost entered = { IsEntered };

    ghost holds = { λ node uploads. AreAgreed uploads };

    ghost fails = { λ node fault. Unit {0} };

    fn put<R: Wait>(&self, rt: &R, node: usize, upload: &Upload) -> Result<Pending, SeatFault> {
        Running::put(self, rt, node, upload)
    }

    fn outcome<R: Wait + Clock, P: Caller>(
        &self,
        rt: &R,
        node: usize,
        upload: &Upload,
        pending: Pending,
        caller: &P,
    ) -> Result<Option<Receipt>, SeatFault> {
        let Some(ended) = ending_of(self, rt, node, pending, caller) else {
            return Ok(None);
        };
        let settled = ended?;
        if !settled.is_of(node, upload) {
            drop(settled);
            return Err(SeatFault::Strange);
        }
        Ok(Some(settled.into_receipt()))
    }

    fn ask<R: Wait>(&self, rt: &R, node: usize, query: Query) -> Result<Receipt, SeatFault> {
        self.cluster().ask(rt, self.gate(), node, query)
    }

    fn latest<R: Wait>(
        &self,
        rt: &R,
        node: usize,
        table: &str,
    ) -> Result<Option<TableInfo>, SeatFault> {
        let Some(seat) = self.cluster().seat(node) else {
            return Err(SeatFault::Down);
        };
        let seat = seat.lock(rt);
        latest_at(&seat, table)
    }

    fn tables<R: Wait>(
        &self,
        rt: &R,
        alloc: Global,
        node: usize,
        locations: &[String],
    ) -> Result<Vec<TableDescription>, SeatFault> {
        let Some(seat) = self.cluster().seat(node) else {
            return Err(SeatFault::Down);
        };
        let seat = seat.lock(rt);
        tables_at(alloc, &seat, locations)
    }
}

// How a put at the node ended, `None` where its caller left before.
fn ending_of<
    const N: usize,
    R: Wait + Clock,
    S: Stable + Drop,
    J: Beginning,
    G: Gate + Drop,
    M: Retention,
    P: Caller,
>(
    nodes: &Running<N, S, J, G, M>,
    rt: &R,
    node: usize,
    pending: Pending,
    caller: &P,
) -> Option<Ending>
    ensures { IfNone result P.may_leave }
{
    let mut waited = 0u64;
    for _ in rt.forever() {
        if let Some(ending) = pending.wait_for(rt, Duration::from_millis(TURN_MILLISECONDS)) {
            return Some(ending);
        }
        waited = waited.saturating_add(TURN_MILLISECONDS);
        if caller.leaves(waited) {
            return nodes.leave(rt, node, pending);
        }
    }
    Some(pending.wait(rt))
}

// The latest version of a table at this seat.
fn latest_at<S: Stable + Drop, J: Beginning, M: Retention>(
    seat: &Seat<S, J, M>,
    table: &str,
) -> Result<Option<TableInfo>, SeatFault>
    ensures { IfOk result (λ info. (uploads : List Uploaded) × AreAgreed uploads
        × IsLatest info table.now (effective table.now uploads)) }
{
    match seat.node()?.info(table) {
        Ok(info) => Ok(info),
        Err(_) => Err(SeatFault::Refused(Refusal::OutOfMemory)),
    }
}

// The latest version of each table at this seat.
fn tables_at<S: Stable + Drop, J: Beginning, M: Retention>(
    alloc: Global,
    seat: &Seat<S, J, M>,
    locations: &[String],
) -> Result<Vec<TableDescription>, SeatFault>
    ensures { IfOk result (λ all. (uploads : List Uploaded) × AreAgreed uploads
        × AllZip (λ name found. TellsLatest (map string_bytes locations.now) name (effective name uploads) found)
        (table_names uploads) all.items) }
{
    let node = seat.node()?;
    let Ok(names) = node.tables() else {
        return Err(SeatFault::Refused(Refusal::OutOfMemory));
    };
    match all_told(alloc, node, &names, locations) {
        Ok(all) => Ok(all),
        Err(_) => Err(SeatFault::Refused(Refusal::OutOfMemory)),
    }
}

// What is told of a table that there is, with these locations.
fn told(
    alloc: Global,
    node: &Node,
    table: &str,
    locations: &[String],
) -> Result<TableDescription, AllocError>
    requires { (uploads : List Uploaded) × HasTables node.now uploads × (effective table.now uploads ≢ []) }
    ensures { IfOk result (λ found. (uploads : List Uploaded) → HasTables node.now uploads
        → TellsLatest (map string_bytes locations.now) table.now (effective table.now uploads) found) }
{
    match node.info(table) {
        Ok(Some(info)) => TableDescription::of(alloc, info, locations),
        Ok(None) => unreachable!(),
        Err(_) => Err(AllocError),
    }
}

// What is told of each of these tables, which are all that there are, with these locations.
fn all_told(
    alloc: Global,
    node: &Node,
    names: &[String],
    locations: &[String],
) -> Result<Vec<TableDescription>, AllocError>
    requires { (uploads : List Uploaded) × HasTables node.now uploads
        × (map string_bytes names.now ≡ table_names uploads) }
    ensures { IfOk result (λ all. (uploads : List Uploaded) → HasTables node.now uploads
        → AllZip (λ name found. TellsLatest (map string_bytes locations.now) name (effective name uploads) found)
        (map string_bytes names.now) all.items) }
{
    tables_have_effective_uploads();
    let mut all = Vec::new(alloc);
    for name in names {
        let found = told(alloc, node, name, locations)?;
        all.push(found)?;
    }
    Ok(all)
}
