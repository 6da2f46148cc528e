//! What a node answers to clients.

ghost use Rattle.std.specs.Prelude.{List};
ghost use Rattle.table_types.specs.Uploads.{Upload as Uploaded};
ghost use Rattle.agreement_rules.specs.Views.{Views};
ghost use Rattle.histories.specs.Texts.{HasUploads};
ghost use Rattle.histories.specs.Following.{GetGivesIfAble, InfoGivesIfAble};
ghost use Rattle.node_core.specs.State.{NodeHas};
ghost use Rattle.node_events.specs.Told.{result_of};

use node_core::Node;
use node_events::{EventResult, Reason};
use table_types::Ticket;

/// What a client gets that asks for a version of a table.
pub(crate) fn version_asked(node: &Node, ticket: &Ticket) -> EventResult
    ensures { (views : Views) (uploads : List Uploaded) → NodeHas node.now views
        → HasUploads node.now.agreement.config.members views.learner_calls uploads
        → GetGivesIfAble uploads ticket.now.table ticket.now.version (result_of result) }
{
    match node.get(ticket) {
        Ok(Some(answer)) => EventResult::Answer(answer),
        Ok(None) => EventResult::Unavailable,
        Err(_) => EventResult::Refused(Reason::OutOfMemory),
    }
}

/// What a client gets that asks for the latest version of a table.
pub(crate) fn latest_asked(node: &Node, table: &str) -> EventResult
    ensures { (views : Views) (uploads : List Uploaded) → NodeHas node.now views
        → HasUploads node.now.agreement.config.members views.learner_calls uploads
        → InfoGivesIfAble uploads table.now (result_of result) }
{
    match node.info(table) {
        Ok(Some(info)) => EventResult::Info(info.version),
        Ok(None) => EventResult::NoTable,
        Err(_) => EventResult::Refused(Reason::OutOfMemory),
    }
}
