//! What is due to an input, done by a node with its store.

ghost use Rattle.std.specs.Prelude.{◌≡◌, ◌≢◌, ◌+◌, ◌≤◌, ◌++◌, [], length, None, vec_len, vec_capacity, IfOk, IfErr, OnOk, OnErr};
ghost use Rattle.std.specs.Option.{option_map};
ghost use Rattle.agreement.specs.declared.refusal.Refusal.TheVariants as refusal_kind;
ghost use Rattle.agreement_rules.specs.Views.{Views};
ghost use Rattle.node_core.specs.State.{NodeHas};
ghost use Rattle.node_core.specs.Inputs.{input_of};
ghost use Rattle.node_core.specs.Plans.{CanCommit, LeadsTo, kept_by};
ghost use Rattle.stable_records.specs.Calls.{CountsFault};
ghost use Rattle.stored_nodes.specs.declared.fault.StoredNodeFault.TheVariants.{Lost};
ghost use Rattle.stored_nodes.specs.Kept.{DueLeaves, CountsNodeFault};
ghost use Rattle.stored_nodes.specs.Steps.{TakeGives, DoubtsNone, IsNotKept, KeepsAlone};

use crate::due::records_are_due;
use crate::fault::StoredNodeFault;
use crate::kept::KeptRecords;
use ballots::{Message, OutOfMemory, Record};
use node_core::{Input, Node, Plan, Refusal};
use stable_records::{Stable, StoreFault};
use std::alloc::Global;

// Keeps the record that is due, if there is one.
fn keep_due<S: Stable + Drop>(
    kept: &mut KeptRecords<S>,
    due: Option<&Record>,
) -> Result<(), StoreFault>
    requires certain { kept.old.doubted ≡ None }
    ensures counted { CountsFault result (S.faults kept.old.store) (S.faults kept.new.store) }
    ensures kept { DueLeaves (option_map (λ due. due.now) due.entry) result
        kept.old.records.items kept.new.records.items kept.new.doubted }
{
    match due {
        Some(record) => kept.keep(record),
        None => Ok(()),
    }
}

/// Keeps the plan's record, if it has one, and then commits the plan.
///
/// The fault says that the record was not kept, or is in doubt, and the node is as it was.
pub(crate) fn keep_and_commit<S: Stable + Drop>(
    node: &mut Node,
    kept: &mut KeptRecords<S>,
    plan: Plan,
) -> Result<(), StoreFault>
    requires can { CanCommit node.old plan }
    requires certain { kept.old.doubted ≡ None }
    ensures counted { CountsFault result (S.faults kept.old.store) (S.faults kept.new.store) }
    ensures kept { DueLeaves (kept_by plan) result
        kept.old.records.items kept.new.records.items kept.new.doubted }
    ensures stands { OnOk result ((views after : Views) → NodeHas node.old views
        → LeadsTo node.old.agreement.config views plan after → NodeHas node.new after) }
    ensures same { OnErr result (node.new ≡ node.old) }
    ensures me { node.new.agreement.me ≡ node.old.agreement.me }
    ensures config { node.new.agreement.config ≡ node.old.agreement.config }
{
    match keep_due(kept, plan.record()) {
        Ok(()) => {
            node.commit(plan);
            Ok(())
        }
        Err(fault) => {
            drop(plan);
            Err(fault)
        }
    }
}

// Copies of the messages, and room for them behind those that were sent. Where there are none, no memory is wanted.
fn ready_to_send(
    alloc: Global,
    sent: &mut Vec<Message>,
    sends: &[Message],
) -> Result<Vec<Message>, OutOfMemory>
    ensures copies { IfOk result (λ copies. copies.items ≡ sends.now) }
    ensures room { IfOk result (λ copies. vec_len sent.new + vec_len copies ≤ vec_capacity sent.new) }
    ensures wants { OnErr result (sends.now ≢ []) }
    ensures same { sent.new.items ≡ sent.old.items }
{
    if sends.is_empty() {
        return Ok(Vec::new(alloc));
    }
    let copies = Vec::from_clones(alloc, sends)?;
    sent.reserve(copies.len())?;
    Ok(copies)
}

// Puts messages behind those that were sent, where there is room for them, and tells how many they are.
fn send(sent: &mut Vec<Message>, mut copies: Vec<Message>) -> usize
    requires { vec_len sent.old + vec_len copies ≤ vec_capacity sent.old }
    ensures behind { sent.new.items ≡ sent.old.items ++ copies.items }
    ensures counted { result ≡ length copies.items }
{
    let count = copies.len();
    match sent.append(&mut copies) {
        Ok(()) => count,
        Err(_) => unreachable!(),
    }
}

/// Lets the node do what is due to the input, and tells how many messages went out: its record is kept before, and they
/// stand behind those that were sent; or why it is refused, for the node's own want of memory too, and then nothing
/// changes.
///
/// [`StoredNodeFault::OutOfMemory`] says that memory for the messages that go out was refused; nothing changes then.
/// [`StoredNodeFault::Store`] is the store's fault in keeping the record, which may be in doubt then.
pub(crate) fn take<S: Stable + Drop>(
    alloc: Global,
    node: &mut Node,
    kept: &mut KeptRecords<S>,
    sent: &mut Vec<Message>,
    input: Input,
) -> Result<Result<usize, Refusal>, StoredNodeFault>
    requires certain { kept.old.doubted ≡ None }
    ensures gives { (views : Views) → NodeHas node.old views → TakeGives node.old node.new views (input_of input)
        kept.old.records.items kept.new.records.items kept.new.doubted sent.old.items sent.new.items result }
    ensures certain { DoubtsNone result kept.new.doubted }
    ensures counted { IfErr result (λ fault. fault ≢ Lost
        × CountsNodeFault S.tells fault (S.faults kept.old.store) (S.faults kept.new.store)) }
    ensures me { node.new.agreement.me ≡ node.old.agreement.me }
    ensures config { node.new.agreement.config ≡ node.old.agreement.config }
{
    records_are_due();
    let plan = match node.plan(input) {
        Ok(plan) => plan,
        Err(refusal) => return Ok(Err(refusal)),
    };
    let copies = match ready_to_send(alloc, sent, plan.sends()) {
        Ok(copies) => copies,
        Err(_) => {
            drop(plan);
            return Err(StoredNodeFault::OutOfMemory);
        }
    };
    match keep_and_commit(node, kept, plan) {
        Ok(()) => Ok(Ok(send(sent, copies))),
        Err(fault) => {
            drop(copies);
            not_kept(fault)
        }
    }
}

// What a fault of the store is to the input: want of memory refuses it.
fn not_kept(fault: StoreFault) -> Result<Result<usize, Refusal>, StoredNodeFault>
    ensures { IsNotKept fault result }
{
    match fault {
        StoreFault::OutOfMemory => Ok(Err(Refusal::OutOfMemory)),
        _ => Err(StoredNodeFault::Store(fault)),
    }
}

/// Keeps the record that is due to the input, if one is, and does nothing else of what is due.
///
/// The fault says that the record was not kept, or is in doubt.
pub(crate) fn keep_alone<S: Stable + Drop>(
    node: &mut Node,
    kept: &mut KeptRecords<S>,
    input: Input,
) -> Result<(), StoreFault>
    requires { kept.old.doubted ≡ None }
    ensures { (views : Views) → NodeHas node.old views → KeepsAlone node.old views (input_of input)
        kept.old.records.items kept.new.records.items kept.new.doubted result }
{
    records_are_due();
    match node.plan(input) {
        Ok(plan) => {
            let answer = keep_due(kept, plan.record());
            drop(plan);
            answer
        }
        Err(refusal) => refused(refusal),
    }
}

// Of what is refused no record is due, but where memory is wanted one may be.
fn refused(refusal: Refusal) -> Result<(), StoreFault>
    ensures ok { OnOk result (refusal ≡ refusal_kind.OutOfMemory → ⊥) }
    ensures err { OnErr result (refusal ≡ refusal_kind.OutOfMemory) }
{
    match refusal {
        Refusal::OutOfMemory => Err(StoreFault::OutOfMemory),
        _ => Ok(()),
    }
}
