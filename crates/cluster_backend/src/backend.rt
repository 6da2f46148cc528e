//! The backend of one connection.

ghost use Rattle.std.specs.Prelude.{◌≡◌, true, false, [], map, string_bytes, IfOk, IfErr};
ghost use Rattle.call_protocol.specs.declared.back_fault.BackFault.TheVariants.{OutOfMemory};
ghost use Rattle.cluster_backend.specs.Backing.{MayAnswer, StaysAt};

use crate::caller::Caller;
use crate::fault::back_fault;
use crate::nodes::Nodes;
use crate::receipts::Receipts;
use call_protocol::BackFault;
use flight_calls::{Backend, TableDescription};
use node_events::EventResult;
use node_threads::{Pending, Query};
use std::alloc::{AllocError, Global};
use std::marker::Model;
use std::sync::Wait;
use std::time::Clock;
use table_types::Ticket;
use table_types::laws::tables_have_one_shape;
use table_versions::laws::values_hold_one_list_of_uploads;
use table_versions::{Answer, Outcome};
use uploads::Upload;

/// What one connection asks of one node of a cluster, and where the nodes are served.
#[derive(Drop)]
pub struct ClusterBackend<'a, R: Wait + Clock, C: Nodes, K: Receipts, P: Caller> {
    rt: &'a R,
    nodes: &'a C,
    receipts: &'a K,
    caller: &'a P,
    node: usize,
    locations: &'a [String],
    pending: Option<Pending>,
    handed: Vec<Upload>,
}

impl<'a, R: Wait + Clock, C: Nodes, K: Receipts, P: Caller> Model
    for ClusterBackend<'a, R, C, K, P> {
    ghost use Rattle.cluster_backend.specs.Backing.{Connected, is_there};
    ghost use Rattle.std.specs.Prelude.{map, string_bytes};

    ghost Value = { Connected };

    ghost view = { λ b. record {
      node = b.node;
      locations = map string_bytes b.locations.now;
      handed = b.handed.items;
      waits = is_there b.pending;
    } };
}

impl<'a, R: Wait + Clock, C: Nodes, K: Receipts, P: Caller> ClusterBackend<'a, R, C, K, P> {
    /// A backend that has handed over nothing, for a call of this caller to the node of this number. It keeps the receipts there, and
    /// clients are told these locations in this order.
    pub fn new(
        alloc: Global,
        rt: &'a R,
        nodes: &'a C,
        receipts: &'a K,
        caller: &'a P,
        node: usize,
        locations: &'a [String],
    ) -> ClusterBackend<'a, R, C, K, P>
        ensures { result ≡ record { node = node; locations = map string_bytes locations.now; handed = []; waits = false } }
    {
        ClusterBackend {
            rt,
            nodes,
            receipts,
            caller,
            node,
            locations,
            pending: None,
            handed: Vec::new(alloc),
        }
    }
}

impl<'a, R: Wait + Clock, C: Nodes, K: Receipts, P: Caller> Backend
    for ClusterBackend<'a, R, C, K, P> {
    ghost may_answer = { MayAnswer C.entered C.holds C.fails P.may_leave };

    ghost handed = { λ b. b.handed };

    ghost leaves = { λ old text new. StaysAt old new × (new.waits ≡ true) };

    ghost stays = { StaysAt };

    fn put(&mut self, upload: &Upload) -> Result<(), BackFault> {
        let copy: Result<Upload, AllocError> = upload.clone();
        let Ok(copy) = copy else {
            return Err(BackFault::OutOfMemory);
        };
        if self.handed.push(copy).is_err() {
            return Err(BackFault::OutOfMemory);
        }
        match self.nodes.put(self.rt, self.node, upload) {
            Ok(pending) => {
                self.pending = Some(pending);
                Ok(())
            }
            Err(fault) => Err(back_fault(fault)),
        }
    }

    fn outcome(&mut self, upload: &Upload) -> Result<Outcome, BackFault> {
        let Some(pending) = self.pending.take() else {
            return Err(BackFault::Unavailable);
        };
        let receipt = match self
            .nodes
            .outcome(self.rt, self.node, upload, pending, self.caller)
        {
            Ok(Some(receipt)) => receipt,
            Ok(None) => return Err(BackFault::Unavailable),
            Err(fault) => return Err(back_fault(fault)),
        };
        let EventResult::Outcome(outcome) = receipt.answer else {
            unreachable!();
        };
        self.receipts.keep(self.rt, receipt);
        Ok(outcome)
    }

    fn get(&mut self, alloc: Global, ticket: &Ticket) -> Result<Answer, BackFault> {
        let Ok(ticket) = same_ticket(alloc, ticket) else {
            return Err(BackFault::OutOfMemory);
        };
        let receipt = match self.nodes.ask(self.rt, self.node, Query::Get(ticket)) {
            Ok(receipt) => receipt,
            Err(fault) => return Err(back_fault(fault)),
        };
        let answer = match &receipt.answer {
            EventResult::Answer(answer) => answer_of(answer),
            _ => Err(BackFault::Unavailable),
        };
        self.receipts.keep(self.rt, receipt);
        answer
    }

    fn info(&mut self, alloc: Global, table: &str) -> Result<TableDescription, BackFault> {
        tables_have_one_shape();
        values_hold_one_list_of_uploads();
        let info = match self.nodes.latest(self.rt, self.node, table) {
            Ok(Some(info)) => info,
            Ok(None) => return Err(BackFault::NoTable),
            Err(fault) => return Err(back_fault(fault)),
        };
        Ok(TableDescription::of(alloc, info, self.locations)?)
    }

    fn schema(&mut self, _alloc: Global, table: &str) -> Result<Vec<u8>, BackFault> {
        values_hold_one_list_of_uploads();
        let info = match self.nodes.latest(self.rt, self.node, table) {
            Ok(Some(info)) => info,
            Ok(None) => return Err(BackFault::NoTable),
            Err(fault) => return Err(back_fault(fault)),
        };
        Ok(info.into_schema())
    }

    fn list(&mut self, alloc: Global) -> Result<Vec<TableDescription>, BackFault> {
        tables_have_one_shape();
        values_hold_one_list_of_uploads();
        let all = match self.nodes.tables(self.rt, alloc, self.node, self.locations) {
            Ok(all) => all,
            Err(fault) => return Err(back_fault(fault)),
        };
        Ok(all)
    }
}

// The same ticket.
fn same_ticket(alloc: Global, ticket: &Ticket) -> Result<Ticket, AllocError>
    ensures { IfOk result (λ same. same ≡ ticket.now) }
{
    let table = String::from_str(alloc, ticket.table())?;
    match Ticket::new(table, ticket.version()) {
        Some(same) => Ok(same),
        None => unreachable!(),
    }
}

// The same answer, whose frames are shared.
fn answer_of(answer: &Answer) -> Result<Answer, BackFault>
    ensures same { IfOk result (λ same. same ≡ answer.now) }
    ensures fault { IfErr result (λ fault. fault ≡ OutOfMemory) }
{
    let copy: Result<Answer, AllocError> = answer.clone();
    match copy {
        Ok(copy) => Ok(copy),
        Err(_) => Err(BackFault::OutOfMemory),
    }
}
