//! What holds of every frame's text, and of every text that is none.

ghost use Rattle.std.specs.Prelude.{◌≡◌};
ghost use Rattle.grpc_frames.specs.Frame.{payload_limit};
ghost use Rattle.grpc_frames.specs.FrameLaws.{NoFrameBeginsAnother, FramesAreOne, FaultsStandApart, NoFaultAtAFrame};
ghost use Rattle.grpc_frames.specs.FrameLaws.{NoFaultAtTheEnd, EachTextIsJudged, NoMemoryForABadHeader};
ghost use Rattle.grpc_frames.specs.FrameLaws.{ReadingsAreOne, FailsWithinTheFrame, NoFrameInACutOne};

use crate::frame::{END_FLAG, MAX_FRAME_PAYLOAD, MESSAGE_FLAG};

/// Where a text begins with two frames, they are the same frame, and the same bytes follow. So a reader that finds a
/// frame has found the only one that stands there.
pub fn no_frame_begins_another()
    ensures { NoFrameBeginsAnother }
{}

/// A text is the frames of at most one list, so frames written one after the other are read back as they were.
pub fn frames_are_one()
    ensures { FramesAreOne }
{}

/// At most one fault stands at the front of a text, and none where a frame begins or the input has ended. So which
/// fault is told is determined by the text: the flag is judged before the length, and the length before the payload.
pub fn faults_stand_apart()
    ensures apart { FaultsStandApart }
    ensures frame { NoFaultAtAFrame }
    ensures end { NoFaultAtTheEnd }
{}

/// Every text of bytes has ended, begins with a frame, or has a fault, so no input is left without an answer.
pub fn each_text_is_judged()
    ensures { EachTextIsJudged }
{}

/// What reading a text gives, and where the reader then stands, is determined by the text, but for failed reads and
/// refused memory.
pub fn readings_are_one()
    ensures { ReadingsAreOne }
{}

/// Memory is asked for only behind five bytes without a fault. A failed read and refused memory leave some of the
/// frame's own bytes unread.
pub fn fails_within_the_frame()
    ensures memory { NoMemoryForABadHeader }
    ensures within { FailsWithinTheFrame }
{}

/// A frame that was cut by a failed write does not begin with a frame, so nobody reads it as one.
pub fn no_frame_in_a_cut_one()
    ensures { NoFrameInACutOne }
{}

/// The constants of the program are the numbers of the definitions: at most 4,194,304 bytes of a payload, flag 0 for a
/// message and flag 128 for an end.
pub fn constants_are_as_defined()
    ensures limit { MAX_FRAME_PAYLOAD ≡ 4194304 }
    ensures payload_limit { MAX_FRAME_PAYLOAD ≡ payload_limit }
    ensures message { MESSAGE_FLAG ≡ 0 }
    ensures end { END_FLAG ≡ 128 }
{}
