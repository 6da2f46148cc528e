//! Copies of events.

ghost use Rattle.std.specs.Prelude.{◌≡◌, IfOk};

use crate::event::Event;
use std::alloc::{AllocError, Global};
use table_types::Ticket;

/// A copy of a ticket.
fn copy_of_ticket(alloc: Global, ticket: &Ticket) -> Result<Ticket, AllocError>
    ensures { IfOk result (λ copy. copy ≡ ticket.now) }
{
    let table = String::from_str(alloc, ticket.table())?;
    match Ticket::new(table, ticket.version()) {
        Some(copy) => Ok(copy),
        None => unreachable!(),
    }
}

/// A copy of an event. An upload's bytes are shared. [`AllocError`] says that memory was refused.
pub fn copy_of(alloc: Global, event: &Event) -> Result<Event, AllocError>
    ensures { IfOk result (λ copy. copy ≡ event.now) }
{
    Ok(match event {
        Event::Put(node, upload) => Event::Put(*node, upload.clone()?),
        Event::Tick(node, left) => Event::Tick(*node, *left),
        Event::Deliver(node, number) => Event::Deliver(*node, *number),
        Event::TickCut(node, left) => Event::TickCut(*node, *left),
        Event::DeliverCut(node, number) => Event::DeliverCut(*node, *number),
        Event::Restart(node) => Event::Restart(*node),
        Event::Get(node, ticket) => Event::Get(*node, copy_of_ticket(alloc, ticket)?),
        Event::Info(node, table) => Event::Info(*node, table.clone()?),
        Event::Outcome(node, upload) => Event::Outcome(*node, upload.clone()?),
    })
}
