//! Whether messages are equal.

ghost use Rattle.std.specs.Prelude.{◌≡◌, ◌↔◌, Option, true, IsTrue};
ghost use Rattle.std.specs.Option.{option_map};
ghost use Rattle.journal.specs.parts.ballots.specs.declared.acceptance.Acceptance.{Acceptance as Voted};

use ballots::{Acceptance, Body, Message};

// Proposals and votes are equal where they are one.
fn equal_acceptances_are_one()
    ensures { (a b : Voted) → (⟦<Acceptance as PartialEq>⟧.eq a b ≡ true) ↔ (a ≡ b) }
{}

// Whether the two report the same, or nothing.
fn same_report(one: &Option<Acceptance>, other: &Option<Acceptance>) -> bool
    ensures { IsTrue result ↔ (one.now ≡ other.now) }
{
    equal_acceptances_are_one();
    match (one, other) {
        (Some(x), Some(y)) => x == y,
        (None, None) => true,
        _ => false,
    }
}

// Whether the two say the same.
fn same_body(one: &Body, other: &Body) -> bool
    ensures { IsTrue result ↔ (one.now ≡ other.now) }
{
    equal_acceptances_are_one();
    match (one, other) {
        (Body::Prepare { ballot: x }, Body::Prepare { ballot: y }) => x == y,
        (
            Body::Promise {
                ballot: x,
                report: p,
            },
            Body::Promise {
                ballot: y,
                report: q,
            },
        ) => x == y && same_report(p, q),
        (
            Body::Nack {
                ballot: x,
                promised: p,
            },
            Body::Nack {
                ballot: y,
                promised: q,
            },
        ) => x == y && p == q,
        (Body::Accept(x), Body::Accept(y)) => x == y,
        (Body::Accepted(x), Body::Accepted(y)) => x == y,
        (Body::Ask, Body::Ask) => true,
        (Body::Decided { value: x }, Body::Decided { value: y }) => x == y,
        _ => false,
    }
}

/// Whether the two are one message.
pub(crate) fn same_message(one: &Message, other: &Message) -> bool
    ensures { IsTrue result ↔ (one.now ≡ other.now) }
{
    one.sender == other.sender && one.slot == other.slot && same_body(&one.body, &other.body)
}

/// Whether the two are one message, or neither is any.
pub(crate) fn same_handed(one: Option<&Message>, other: Option<&Message>) -> bool
    ensures { IsTrue result ↔ (option_map (λ message. message.now) one.entry
        ≡ option_map (λ message. message.now) other.entry) }
{
    match (one, other) {
        (Some(x), Some(y)) => same_message(x, y),
        (None, None) => true,
        _ => false,
    }
}

/// Whether these are the same messages, in the same order.
pub(crate) fn same_messages(these: &[Message], those: &[Message]) -> bool
    ensures { IsTrue result ↔ (these.now ≡ those.now) }
{
    let mut left = those;
    for message in these {
        match left {
            [first, rest @ ..] if same_message(message, first) => left = rest,
            _ => return false,
        }
    }
    left.is_empty()
}
