//! Laws of what a text asks for as a call.

ghost use Rattle.std.specs.Prelude.{◌≡◌, ◌++◌, ◌∷◌, [], ℕ, List};
ghost use Rattle.call_protocol.specs.Texts.{end_text};
ghost use Rattle.call_protocol.specs.declared.method.Method.{Method as MethodModel};
ghost use Rattle.call_protocol.specs.declared.refusal.CallRefusal.{CallRefusal as Refused};
ghost use Rattle.call_reading.specs.Requests.{Request, IsCall};
ghost use Rattle.call_reading.specs.Faults.{MessageFault, EndFault, IsFaultlessSoFar, IsFaultlessEnd, RefusalStands, IsOfMemory, IsOfTheMachine};

use batch_types::laws::batches_are_one;
use call_protocol::laws::{descriptors_name_one, paths_are_one};
use grpc_frames::laws::no_frame_begins_another;
use header_types::laws::headers_are_one;
use proto_messages::laws::messages_are_one;
use record_batches::laws::refusals_are_right;
use table_types::laws::tickets_have_one_encoding;

/// A call has an end, and nothing behind the end is part of it.
pub fn calls_have_an_end()
    ensures { (text rest : List ℕ) (request : Request) → IsCall text request rest
        → (before : List ℕ) × (text ≡ before ++ (end_text ++ rest)) }
{}

/// A text begins with at most one call, which asks for one thing and ends at one place.
pub fn calls_ask_for_one_thing()
    ensures { (text a b : List ℕ) (x y : Request) → IsCall text x a → IsCall text y b → (x ≡ y) × (a ≡ b) }
{
    no_frame_begins_another();
    paths_are_one();
    descriptors_name_one();
    tickets_have_one_encoding();
    messages_are_one();
    headers_are_one();
    batches_are_one();
}

/// Where a text begins with a call, no fault of the text stands in it: it is refused where a read fails or memory is
/// refused, and for nothing else.
pub fn calls_are_not_refused()
    ensures { (text rest after : List ℕ) (request : Request) (refusal : Refused) → IsCall text request rest
        → RefusalStands refusal text after → IsOfTheMachine refusal }
{
    no_frame_begins_another();
    grpc_frames::laws::faults_stand_apart();
    paths_are_one();
    descriptors_name_one();
    tickets_have_one_encoding();
    messages_are_one();
    proto_messages::laws::faults_stand_apart();
    headers_are_one();
    header_reading::laws::faults_stand_apart();
    batches_are_one();
    refusals_are_right();
}

/// Where memory is refused, no fault stands: a message with which there is no fault so far has none, and neither has an
/// end that is no fault.
pub fn memory_is_refused_where_no_fault_stands()
    ensures messages { (method : MethodModel) (before : List (List ℕ)) (message : List ℕ) (refusal : Refused)
        → IsFaultlessSoFar method (before ++ message ∷ []) → MessageFault method before message refusal
        → IsOfMemory refusal }
    ensures ends { (method : MethodModel) (messages : List (List ℕ)) (refusal : Refused)
        → IsFaultlessEnd method messages → EndFault method messages refusal → IsOfMemory refusal }
{
    descriptors_name_one();
    tickets_have_one_encoding();
    messages_are_one();
    proto_messages::laws::faults_stand_apart();
    headers_are_one();
    header_reading::laws::faults_stand_apart();
    batches_are_one();
    refusals_are_right();
}
