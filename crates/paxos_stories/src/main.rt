//! Answers requests about the parts of a Paxos node: its acceptor, its proposer, its learner, and its log of decided
//! values; about what nodes send and keep, as lines and as bytes; and about which histories of messages are lawful, and
//! why others are not.
//!
//! A request of a part has its name, and then the call. What is asked mostly comes as the encoding of a message: an
//! acceptor is handed Prepares and Accepts, a proposer Promises and Nacks, a learner Accepteds and Decideds, and a log
//! Decideds. A look at a slot is an Ask. A line comes as its bytes. In an answer a ballot stands as its line, and a value
//! as its bytes, with `-` for a no-op. `tools/tellers/paxos.py` makes the requests.
//!
//! Nothing is claimed here but that answering is safe and ends: what the parts answer is promised by their own crates.
#![tactic(auto)]

mod acceptors;
mod encodings;
mod explaining;
mod histories;
mod leaders;
mod learners;
mod logs;
mod proposers;
mod shown;
mod words;

use crate::histories::History;
use acceptor::Acceptor;
use ballots::{Members, NodeId};
use decided_log::DecidedLog;
use learner::Learner;
use proposer::Proposer;
use std::alloc::Global;
use std::process::ExitCode;
use story_requests::{Answers, RequestFault, Response, Words};

fn main(rt: HostRuntime) -> ExitCode {
    story_requests::run::<Parts>(&rt)
}

/// The parts that are asked: those of node 0 of one, and a history of one member, until others are made.
#[derive(Drop)]
struct Parts {
    acceptor: Acceptor,
    proposer: Proposer,
    learner: Learner,
    log: DecidedLog,
    history: History,
}

impl Answers for Parts {
    fn new(alloc: Global) -> Result<Parts, RequestFault> {
        let node = NodeId::new(0).unwrap();
        let members = Members::new(1).unwrap();
        Ok(Parts {
            acceptor: Acceptor::new(alloc),
            proposer: Proposer::new(node, members, 0),
            learner: Learner::new(alloc, members),
            log: DecidedLog::new(alloc, node),
            history: History::new(alloc, members),
        })
    }

    fn answer(
        &mut self,
        alloc: Global,
        asked: &str,
        words: &mut Words<'_>,
        answer: &mut Response,
    ) -> Result<(), RequestFault> {
        match asked {
            "acceptor" => acceptors::answer(alloc, &mut self.acceptor, words, answer),
            "proposer" => proposers::answer(alloc, &mut self.proposer, words, answer),
            "learner" => learners::answer(alloc, &mut self.learner, words, answer),
            "log" => logs::answer(alloc, &mut self.log, words, answer),
            "history" => histories::answer(alloc, &mut self.history, words, answer),
            "explain" | "audit" | "line" => explaining::answer(alloc, asked, words, answer),
            _ => encodings::answer(alloc, asked, words, answer),
        }
    }
}
