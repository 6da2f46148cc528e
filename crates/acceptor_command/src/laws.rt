//! Laws of the definitions that the acceptor is proved against.

ghost use Rattle.std.specs.Prelude.{◌≡◌, ◌≢◌, ◌↔◌, ℕ, List, Option, Some, None};
ghost use Rattle.grpc_frames.specs.Frame.{Frame as Framed};
ghost use Rattle.ballots.specs.declared.message.Message.{Message as Meant};
ghost use Rattle.ballots.specs.declared.message.Body.TheVariants.{Ask};
ghost use Rattle.ballots.specs.declared.fault.MessageFault.TheVariants.{OutOfMemory};
ghost use Rattle.ballots.specs.Message.{IsMessageText};
ghost use Rattle.acceptor.specs.Standing.{Standing, IsSame};
ghost use Rattle.acceptor_command.specs.declared.fault.AnswerFault.{AnswerFault as Ending};
ghost use Rattle.acceptor_command.specs.declared.fault.AnswerFault.TheVariants as faults;
ghost use Rattle.acceptor_command.specs.Conversation.{Answers, IsReplyTo, own_number};
ghost use Rattle.acceptor_command.specs.Serving.{FrameEnds, frame_limit};

use crate::answering::NODE;
use crate::serving::FRAME_LIMIT;
use ballots::{messages_are_one, only_uploads_take_memory};

/// The constants of the program are the numbers of the definitions: 1,000,000 frames a run, and node 0.
pub fn constants_are_as_defined()
    ensures frames { (frame_limit ≡ 1000000) × (FRAME_LIMIT ≡ frame_limit) }
    ensures node { (own_number ≡ 0) × (NODE ≡ own_number) }
{}

/// An Ask is not answered, and changes nothing. A message that is answered is a Prepare or an Accept, and its answer
/// has its slot and its ballot: a Promise or an Accepted, or a Nack (Lamport, *Paxos Made Simple*, section 2.2).
pub fn only_requests_are_answered()
    ensures ask { (old new : Standing) (m : Meant) (reply : Option Meant) → m.body ≡ Ask → Answers old m reply new
        → (reply ≡ None) × IsSame old new }
    ensures reply { (old new : Standing) (m reply : Meant) → Answers old m (Some reply) new → IsReplyTo m reply }
{}

/// What a message is answered is determined by what was promised and accepted before it.
pub fn replies_are_one()
    ensures { (old a b : Standing) (m : Meant) (r q : Option Meant) → Answers old m r a → Answers old m q b → r ≡ q }
{}

/// A frame that ends a call ends the run with that fault, and no other frame does. Nothing of an answer goes out for a
/// frame that ends the run, but where a write failed. No memory is asked for of a frame that carries an Ask.
pub fn faults_stand_at_their_frames()
    ensures end_flag { (fault : Ending) (now : Standing) (f : Framed) (old new : List ℕ) → FrameEnds fault now f old new
        → ((fault ≡ faults.EndFlag) ↔ (f.flag ≡ 128)) }
    ensures silent { (fault : Ending) (now : Standing) (f : Framed) (old new : List ℕ) → FrameEnds fault now f old new
        → fault ≢ faults.Write → new ≡ old }
    ensures ask { (fault : Ending) (now : Standing) (f : Framed) (old new : List ℕ) (m : Meant)
        → FrameEnds fault now f old new → IsMessageText f.payload m → m.body ≡ Ask
        → (fault ≢ faults.OutOfMemory) × (fault ≢ faults.Message OutOfMemory) }
{
    messages_are_one();
    only_uploads_take_memory();
}
