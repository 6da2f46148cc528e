//! Laws of the definitions that the calls are proved against.

ghost use Rattle.std.specs.Prelude.{◌≡◌, ℕ, List, Result};
ghost use Rattle.table_types.specs.Tables.{Version};
ghost use Rattle.table_types.specs.Answers.{answer_messages};
ghost use Rattle.downloads.specs.declared.download.Download.{Download};
ghost use Rattle.downloads.specs.Downloads.{IsServedVersion};
ghost use Rattle.downloads.specs.Taken.{GivesDownload, HasDownload};
ghost use Rattle.client_calls.specs.declared.client_fault.ClientFault.{ClientFault};
ghost use Rattle.client_calls.specs.Answers.{frames_limit, IsAnswer, IsRefused, Receives};
ghost use Rattle.client_calls.specs.Results.{GivesServed};

use crate::parts::MAX_ANSWER_FRAMES;
use downloads::laws::{downloads_are_one, versions_are_downloads};
use grpc_frames::laws::no_frame_begins_another;

/// The constant of the program is the number of the definitions: 1,024,000,002 frames of an answer.
pub fn constants_are_as_defined()
    ensures frames { (frames_limit ≡ 1024000002) × (MAX_ANSWER_FRAMES ≡ frames_limit) }
{}

/// A text begins with the messages of one answer at most, or with one refusal at most, and never with both; and the same is
/// left behind them.
pub fn answers_are_one()
    ensures answer { (text rest after : List ℕ) (messages others : List (List ℕ)) → IsAnswer text messages rest
        → IsAnswer text others after → (others ≡ messages) × (rest ≡ after) }
    ensures refusal { (text words rest texts after : List ℕ) (code number : ℕ) → IsRefused text code words rest
        → IsRefused text number texts after → (code ≡ number) × (words ≡ texts) × (rest ≡ after) }
    ensures apart { (text words rest after : List ℕ) (messages : List (List ℕ)) (code : ℕ) → IsAnswer text messages rest
        → ¬ IsRefused text code words after }
{
    no_frame_begins_another();
}

/// Of an answer whose messages are those of a version, [`call_get`] gives what is served of the version: its schema, and of each
/// upload its id and its batches, cell for cell. It leaves what stands behind the answer; and only where a read failed, a
/// write did or memory was refused it tells something else.
///
/// [`call_get`]: crate::call_get
pub fn versions_are_given()
    ensures { (version : Version) (text rest left : List ℕ) (result : Result Download ClientFault) → IsServedVersion version
        → IsAnswer text (answer_messages version) rest → Receives GivesDownload HasDownload result text left
        → GivesServed version rest result left }
{
    answers_are_one();
    downloads_are_one();
    versions_are_downloads();
}
