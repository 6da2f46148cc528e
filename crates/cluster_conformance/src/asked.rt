//! Nodes that tell when one of them is asked.

use crate::flag::Flag;
use crossbeam_channel::Receiver;
use flight_calls::TableDescription;
use flight_service::{AllReceipts, Caller, Nodes, Note, SeatFault, Works};
use node_threads::{Pending, Query, Receipt};
use std::alloc::Global;
use std::sync::Wait;
use std::time::Clock;
use table_versions::TableInfo;
use uploads::Upload;

/// Nodes that raise a flag when node 0 is asked, which a connection does once it has read the end of its call.
#[derive(Drop)]
pub(crate) struct Asked<C> {
    pub(crate) nodes: C,
    pub(crate) is_asked: Flag,
}

impl<C: Nodes> Nodes for Asked<C> {
    ghost entered = { C.entered };

    ghost holds = { C.holds };

    ghost fails = { C.fails };

    fn put<R: Wait>(&self, rt: &R, node: usize, upload: &Upload) -> Result<Pending, SeatFault> {
        self.nodes.put(rt, node, upload)
    }

    fn outcome<R: Wait + Clock, P: Caller>(
        &self,
        rt: &R,
        node: usize,
        upload: &Upload,
        pending: Pending,
        caller: &P,
    ) -> Result<Option<Receipt>, SeatFault> {
        self.nodes.outcome(rt, node, upload, pending, caller)
    }

    fn ask<R: Wait>(&self, rt: &R, node: usize, query: Query) -> Result<Receipt, SeatFault> {
        if node == 0 {
            self.is_asked.raise(rt);
        }
        self.nodes.ask(rt, node, query)
    }

    fn latest<R: Wait>(
        &self,
        rt: &R,
        node: usize,
        table: &str,
    ) -> Result<Option<TableInfo>, SeatFault> {
        self.nodes.latest(rt, node, table)
    }

    fn tables<R: Wait>(
        &self,
        rt: &R,
        alloc: Global,
        node: usize,
        locations: &[String],
    ) -> Result<Vec<TableDescription>, SeatFault> {
        self.nodes.tables(rt, alloc, node, locations)
    }
}

impl<C: Works> Works for Asked<C> {
    fn work<R: Wait + Clock>(&self, rt: &R, node: usize, notes: &Receiver<Note>) {
        self.nodes.work(rt, node, notes);
    }

    fn stop<R: Wait>(&self, rt: &R) {
        self.nodes.stop(rt);
    }

    fn confirm_all<R: Wait>(&self, rt: &R, receipts: &AllReceipts) -> bool {
        self.nodes.confirm_all(rt, receipts)
    }
}
