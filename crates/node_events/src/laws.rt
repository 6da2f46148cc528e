//! A law of the definitions.

ghost use Rattle.std.specs.Prelude.{◌≡◌};
ghost use Rattle.node_events.specs.declared.event.Event.{Event as EventSpec};
ghost use Rattle.node_events.specs.declared.event_result.EventResult.{EventResult as EventResultSpec};
ghost use Rattle.node_events.specs.Told.{event_of, result_of};

/// Events that are told alike are one event, and so is what they gave: a history says of an event all that there is to
/// say.
pub fn telling_loses_nothing()
    ensures events { (x y : EventSpec) → event_of x ≡ event_of y → x ≡ y }
    ensures given { (x y : EventResultSpec) → result_of x ≡ result_of y → x ≡ y }
{}
