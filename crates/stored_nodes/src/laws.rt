//! Laws of nodes with their stores.

ghost use Rattle.std.specs.Prelude.{◌≡◌, ◌≢◌, ◌⊎◌, ℕ, Some, List, []};
ghost use Rattle.ballots.specs.declared.message.Message.{Message};
ghost use Rattle.ballots.specs.declared.record.Record.{Record};
ghost use Rattle.stable_records.specs.declared.fault.StoreFault.{StoreFault};
ghost use Rattle.agreement_rules.specs.Views.{Views};
ghost use Rattle.agreement_rules.specs.Due.{Plan, Plans};
ghost use Rattle.histories.specs.Due.{Input, IsDue, InputKeeps};
ghost use Rattle.histories.specs.Event.{Event, Put, Restart, node_of};
ghost use Rattle.histories.specs.Following.{UpOrDown, IsUp, IsDown};
ghost use Rattle.stored_nodes.specs.declared.fault.StoredNodeFault.{StoredNodeFault};
ghost use Rattle.stored_nodes.specs.declared.fault.StoredNodeFault.TheVariants.{OutOfMemory, Store, Lost};
ghost use Rattle.stored_nodes.specs.State.{StoredNodeState, Stands, IsHanded, StoredNodeFails};

use stable_records::Stable;

/// An event fails for a cause alone: memory is refused where messages are due to be sent, and the store fails where a record is
/// due to be kept, or at a restart, as other records than were kept are found at a restart alone. A put never fails. Where the
/// store failed to keep a record, the node is down, and that record is in doubt; where it failed at a restart, all is as before
/// (Lamport, *Paxos Made Simple*, section 2.5, has the record before the answer).
pub fn failures_have_a_cause<S: Stable>()
    ensures memory { (old new : StoredNodeState S) (seat : UpOrDown) (before after : List Message) (event : Event)
        → StoredNodeFails old new seat before after event OutOfMemory
        → (views : Views) × (asked : Input) × (plan : Plan) × (seat ≡ IsUp views) × IsHanded before event asked
        × IsDue old.config (node_of event) views asked (Plans plan) × (plan.sends ≢ []) }
    ensures store { (old new : StoredNodeState S) (seat : UpOrDown) (before after : List Message) (event : Event) (why : StoreFault)
        → StoredNodeFails old new seat before after event (Store why)
        → ((views : Views) × (asked : Input) × (last : Record) × (seat ≡ IsUp views) × IsHanded before event asked
        × InputKeeps old.config (node_of event) views asked (Some last) × Stands new (IsDown views.records (Some last)))
        ⊎ ((node : ℕ) × (event ≡ Restart node) × Stands new seat) }
    ensures lost { (old new : StoredNodeState S) (seat : UpOrDown) (before after : List Message) (event : Event)
        → StoredNodeFails old new seat before after event Lost → (node : ℕ) × (event ≡ Restart node) × Stands new seat }
    ensures put { (old new : StoredNodeState S) (seat : UpOrDown) (before after : List Message) (node : ℕ) (text : List ℕ)
        (why : StoredNodeFault) → StoredNodeFails old new seat before after (Put node text) why → ⊥ }
{}
