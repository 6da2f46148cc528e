//! Laws of what serving a call gives, and of what is replied.

ghost use Rattle.std.specs.Prelude.{◌≡◌, ◌≢◌, ◌⊎◌, ◌<◌, ◌^◌, ◌++◌, ◌∷◌, [], ℕ, List};
ghost use Rattle.proto_messages.specs.Descriptor.{IsMessage};
ghost use Rattle.proto_wire.specs.Flight.{put_result_descriptor};
ghost use Rattle.table_types.specs.Valid.{IsId};
ghost use Rattle.call_protocol.specs.declared.refusal.CallRefusal.{CallRefusal as Refused};
ghost use Rattle.call_reading.specs.Requests.{Request, puts, IsCall};
ghost use Rattle.call_reading.specs.Faults.{IsOfTheMachine};
ghost use Rattle.flight_calls.specs.Replies.{BackAnswer, Reply, Replies, answers, refuses, reply_text};
ghost use Rattle.call_protocol.specs.Results.{applied_descriptor, put_result};
ghost use Rattle.flight_calls.specs.Serving.{IsDue};

use crate::backend::Backend;
use call_protocol::laws::refusals_are_told;
use call_reading::laws::{calls_are_not_refused, calls_ask_for_one_thing};
use proto_messages::laws::canonical_messages_are_messages;
use table_types::laws::uploads_have_one_encoding;

/// A backend is handed an upload only by a call that asks for it, which has come with its end, and then that upload
/// alone.
pub fn uploads_are_handed_behind_an_end<B: Backend>()
    ensures { (text rest : List ℕ) (old new : B) (reply : Reply)
        → IsDue B.may_answer B.handed B.leaves B.stays text rest old new reply
        → (B.handed new ≡ B.handed old) ⊎ ((upload : List ℕ) × IsCall text (puts upload) rest
        × (B.handed new ≡ B.handed old ++ upload ∷ [])) }
{}

/// A call that asks to take an upload, and has come with its end, hands over that upload, and no other, once. Where a read failed or
/// memory was refused it may hand over nothing, and that is what it is refused for.
pub fn ended_puts_are_handed<B: Backend>()
    ensures { (text rest left upload : List ℕ) (old new : B) (reply : Reply) → IsCall text (puts upload) rest
        → IsDue B.may_answer B.handed B.leaves B.stays text left old new reply
        → (B.handed new ≡ B.handed old ++ upload ∷ []) ⊎ ((refusal : Refused) × IsOfTheMachine refusal
        × (reply ≡ refuses refusal) × (B.handed new ≡ B.handed old)) }
{
    calls_ask_for_one_thing();
    calls_are_not_refused();
}

/// A backend takes an upload only by a call that asks for it, which has come with its end, and no other; by all other calls
/// it takes nothing.
pub fn uploads_are_taken_behind_an_end<B: Backend>()
    ensures { (text rest : List ℕ) (old new : B) (reply : Reply)
        → IsDue B.may_answer B.handed B.leaves B.stays text rest old new reply
        → (new ≡ old) ⊎ B.stays old new ⊎ ((upload : List ℕ) × (mid : B) × IsCall text (puts upload) rest
        × B.leaves old upload mid × B.stays mid new) }
{}

/// What a backend answers to a request has one reply, and an answer's bytes are those of no refusal.
pub fn replies_are_one()
    ensures one { (request : Request) (answer : BackAnswer) (x y : Reply)
        → Replies request answer x → Replies request answer y → x ≡ y }
    ensures apart { (messages : List (List ℕ)) (refusal : Refused)
        → reply_text (answers messages) ≢ reply_text (refuses refusal) }
{
    uploads_have_one_encoding();
    refusals_are_told();
}

/// The answer to an upload that counts is read as its id and the version that it made.
pub fn put_results_are_read()
    ensures { (id : List ℕ) (version : ℕ) → IsId id → version < 2 ^ 64
        → (text : List ℕ) × IsMessage put_result_descriptor (put_result id version) (text, tt)
        × IsMessage applied_descriptor text (id, (version, tt)) }
{
    canonical_messages_are_messages();
}
