//! Laws of lawful histories.

ghost use Rattle.lawful_histories.specs.Lawful.{OneValue, ChosenValueStays};
ghost use Rattle.lawful_histories.specs.HistoryLaws.{SayingsAreMessages, SayingsAreSent, LawfulByMessages};
ghost use Rattle.lawful_histories.specs.HistoryLaws.{DecidedIsOne, DecidedIsChosen, PromisesRise};
ghost use Rattle.lawful_histories.specs.HistoryLaws.{PromisesAboveItsVotes, ReportsItsVotes, ReportsItsValue};
ghost use Rattle.lawful_histories.specs.HistoryLaws.{NothingIsLawful, BeginningsAreLawful};

/// A lawful history never chooses two values for one slot (Lamport, *Paxos Made Simple*, section 2.1), and once a value
/// is chosen at a ballot, each Accept above that ballot has this value (section 2.2).
pub fn one_value()
    ensures chosen { OneValue }
    ensures stays { ChosenValueStays }
{}

/// Any two Decided of one slot in a lawful history have one value, and it is the value that was chosen (section 2.3).
pub fn decided_is_one()
    ensures agree { DecidedIsOne }
    ensures chosen { DecidedIsChosen }
{}

/// In a lawful history an Accepted binds its sender's later Promises: they are above it, their report is no lower, and
/// a report of the same ballot has the same value (section 2.2, phase 1b).
pub fn votes_bind_promises()
    ensures above { PromisesAboveItsVotes }
    ensures reported { ReportsItsVotes }
    ensures value { ReportsItsValue }
{}

/// In a lawful history each Promise of an acceptor is above its earlier ones for the slot, so it promises no ballot
/// twice (section 2.2, phase 1b).
pub fn promises_rise()
    ensures { PromisesRise }
{}

/// A history is lawful slot by slot exactly where its messages, place by place, keep the rules of Paxos: an Accepted
/// was proposed and is not below what its sender promised or accepted, a Promise is above that and reports the highest
/// Accepted, an Accept is the only one of its ballot and safe, and a Decided was chosen. A place says of a slot what the
/// message does that stands there.
pub fn lawful_by_messages()
    ensures says { SayingsAreMessages }
    ensures sent { SayingsAreSent }
    ensures lawful { LawfulByMessages }
{}

/// A history without a message is lawful, and so is each beginning of a lawful one: what is sent later excuses
/// nothing.
pub fn beginnings_are_lawful()
    ensures nothing { NothingIsLawful }
    ensures beginnings { BeginningsAreLawful }
{}
