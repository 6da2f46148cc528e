//! Which messages are of a configuration, and the greatest round that they name.

ghost use Rattle.std.specs.Prelude.{◌≡◌, ◌↔◌, IsTrue};
ghost use Rattle.agreement_rules.specs.Due.{IsReportOf, IsBodyOf, IsMessageOf, round_in, round_of_report};

use crate::agreement::Agreement;
use ballots::{Acceptance, Body, Members, Message};

// Whether the ballot of a report is a member's.
fn is_report_of(members: Members, report: &Option<Acceptance>) -> bool
    ensures { IsTrue result ↔ IsReportOf members report.now }
{
    match report {
        Some(report) => members.have(report.ballot.node()),
        None => true,
    }
}

// Whether each ballot in it is a member's.
fn is_body_of(members: Members, body: &Body) -> bool
    ensures { IsTrue result ↔ IsBodyOf members body.now }
{
    match body {
        Body::Prepare { ballot } => members.have(ballot.node()),
        Body::Promise { ballot, report } => {
            members.have(ballot.node()) && is_report_of(members, report)
        }
        Body::Nack { ballot, promised } => {
            members.have(ballot.node()) && members.have(promised.node())
        }
        Body::Accept(proposal) => members.have(proposal.ballot.node()),
        Body::Accepted(acceptance) => members.have(acceptance.ballot.node()),
        Body::Ask => true,
        Body::Decided { .. } => true,
    }
}

// The round of a report, 0 where there is none.
fn reported_round(report: &Option<Acceptance>) -> u32
    ensures { result ≡ round_of_report report.now }
{
    match report {
        Some(report) => report.ballot.round(),
        None => 0,
    }
}

// The greatest round of the ballots in it, 0 where there is none.
pub(crate) fn greatest_round(body: &Body) -> u32
    ensures { result ≡ round_in body.now }
{
    match body {
        Body::Prepare { ballot } => ballot.round(),
        Body::Promise { ballot, report } => ballot.round().max(reported_round(report)),
        Body::Nack { ballot, promised } => ballot.round().max(promised.round()),
        Body::Accept(proposal) => proposal.ballot.round(),
        Body::Accepted(acceptance) => acceptance.ballot.round(),
        Body::Ask => 0,
        Body::Decided { .. } => 0,
    }
}

impl Agreement {
    /// Whether the message's sender and its ballots' nodes are members, and its slot is below the limit. It takes no
    /// memory.
    pub fn takes(&self, message: &Message) -> bool
        ensures { IsTrue result ↔ IsMessageOf self.now.config message.now }
    {
        self.config.members().have(message.sender)
            && message.slot.number() < self.config.slot_limit()
            && is_body_of(self.config.members(), &message.body)
    }
}
