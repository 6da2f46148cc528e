//! Laws of the definitions that what is told again is proved against.

ghost use Rattle.std.specs.Prelude.{◌≢◌, ℕ, List};
ghost use Rattle.std.specs.List.{All};
ghost use Rattle.ballots.specs.Ballot.{Ballot};
ghost use Rattle.ballots.specs.declared.message.Message.{Message};
ghost use Rattle.ballots.specs.declared.record.Record.{Record};
ghost use Rattle.ballots.specs.declared.value.Value.{Value};
ghost use Rattle.chosen_records.specs.Chosen.{Differ, IsChosenAt, IsRecorded, IsToldChosen};

/// A slot of which messages tell that a majority accepted a value at one ballot was chosen, where each of the messages
/// tells of what its sender recorded (Lamport, *Paxos Made Simple*, section 2.2).
pub fn told_where_chosen()
    ensures { (members : ℕ) (all : List (List Record)) (told : List Message) (slot : ℕ) → All (IsRecorded all) told
        → IsToldChosen members told slot
        → (ballot : Ballot) × (value : Value) × IsChosenAt members all slot ballot value }
{}

/// Two values that were chosen at one ballot of a slot differ: any two majorities have a member in common (Lamport,
/// *Paxos Made Simple*, section 2.1).
pub fn one_ballot_has_one_value()
    ensures { (members : ℕ) (all : List (List Record)) (slot : ℕ) (ballot : Ballot) (one other : Value)
        → IsChosenAt members all slot ballot one → IsChosenAt members all slot ballot other → one ≢ other
        → Differ all slot }
{}
