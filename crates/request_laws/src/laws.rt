//! Laws of what a client writes, as a service reads it, and of what it is given.

ghost use Rattle.std.specs.Prelude.{◌≡◌, ◌≤◌, ◌⊎◌, ◌++◌, ℕ, List, length, Some, Result};
ghost use Rattle.ballots.specs.declared.value.Value.{Value};
ghost use Rattle.table_types.specs.Uploads.{Upload};
ghost use Rattle.table_types.specs.Valid.{IsTableName, IsUpload};
ghost use Rattle.table_types.specs.Ticket.{TableVersion, IsTableVersion};
ghost use Rattle.table_types.specs.Tables.{Version, version_of};
ghost use Rattle.table_types.specs.Answers.{answer_messages, answer_of};
ghost use Rattle.table_versions.specs.State.{agreed_values_limit, TablesState, HasTaken};
ghost use Rattle.table_versions.specs.Values.{AreUploadsIn};
ghost use Rattle.call_protocol.specs.declared.refusal.CallRefusal.{CallRefusal as Refused};
ghost use Rattle.call_protocol.specs.declared.refusal.CallRefusal.TheVariants.{BadPath, NoCall, MessageCount, BadTicket, NoSchema, TooLarge};
ghost use Rattle.call_protocol.specs.Statuses.{ok_trailer};
ghost use Rattle.call_reading.specs.Faults.{RefusalStands, IsOfTheMachine};
ghost use Rattle.downloads.specs.declared.download.Download.{Download};
ghost use Rattle.downloads.specs.Downloads.{IsServedVersion};
ghost use Rattle.downloads.specs.Taken.{GivesDownload, HasDownload};
ghost use Rattle.client_calls.specs.declared.client_fault.ClientFault.{ClientFault};
ghost use Rattle.client_calls.specs.Answers.{IsAnswer, Receives};
ghost use Rattle.client_calls.specs.Requests.{info_request, get_request, put_request};
ghost use Rattle.client_calls.specs.Results.{GivesServed};
ghost use Rattle.request_laws.specs.Agreeing.{Agree};
ghost use Rattle.request_laws.specs.Asked.{InfoRequestsAreCalls, GetRequestsAreCalls, PutRequestsAreCalls, IsFaultless};
ghost use Rattle.request_laws.specs.Versions.{IsMadeOf};

use batch_types::laws::{batches_are_one, written_rows_are_laid_out};
use call_protocol::laws::{descriptors_name_one, paths_are_one};
use call_reading::laws::{calls_are_not_refused, memory_is_refused_where_no_fault_stands};
use client_calls::laws::versions_are_given;
use flatbuf_meta::laws::{written_headers_are_shown, written_schemas_are_short};
use grpc_frames::laws::{no_frame_begins_another, readings_are_one};
use header_types::laws::headers_are_one;
use proto_messages::laws::{canonical_messages_are_messages, messages_are_one};
use table_types::laws::{
    batches_have_headers, shapes_are_without_metadata, tables_have_one_shape,
    tickets_have_one_encoding, uploads_count_once,
};
use table_versions::laws::values_hold_one_list_of_uploads;

/// What a client writes is the call that it means, and whatever stands behind it is left: of the name of a table it
/// asks what is told of that table, of a ticket for its version, and of an upload to take it. Frames have room for all
/// of its messages.
pub fn requests_are_calls()
    ensures info { InfoRequestsAreCalls }
    ensures get { GetRequestsAreCalls }
    ensures put { PutRequestsAreCalls }
{
    batches_have_headers();
    canonical_messages_are_messages();
    descriptors_name_one();
    tickets_have_one_encoding();
    written_headers_are_shown();
    written_rows_are_laid_out();
    written_schemas_are_short();
}

/// No fault stands in what a client writes: it is refused where a read fails or memory is refused, and for nothing
/// else.
pub fn requests_are_not_refused()
    ensures info { (table rest : List ℕ) → IsTableName table → IsFaultless (info_request table ++ rest) }
    ensures get { (asked : TableVersion) (rest : List ℕ) → IsTableVersion asked
        → IsFaultless (get_request asked ++ rest) }
    ensures put { (upload : Upload) (rest : List ℕ) → IsUpload upload → IsFaultless (put_request upload ++ rest) }
{
    requests_are_calls();
    calls_are_not_refused();
}

/// A text is refused at one place, and for one fault there: whichever two refusals stand in it, of which neither says that
/// a read failed or that memory was refused, the same is left behind both, and they are the same. Where a message or a
/// header has several faults, any of them is told; and of a first message with a bad descriptor and a bad schema, of a
/// batch that is at fault and one too many, and of an upload's message that is at fault and one too many, either fault is.
/// Others do not agree, as the last clause shows of some. So where two services read one text and refuse it for what stands in it, they have read the same of it.
pub fn texts_are_refused_at_one_place()
    ensures place { (text a b : List ℕ) (x y : Refused) → RefusalStands x text a → RefusalStands y text b
        → IsOfTheMachine x ⊎ IsOfTheMachine y ⊎ (a ≡ b) }
    ensures fault { (text a b : List ℕ) (x y : Refused) → RefusalStands x text a → RefusalStands y text b
        → IsOfTheMachine x ⊎ IsOfTheMachine y ⊎ Agree x y }
    ensures apart { (¬ Agree BadPath NoCall) × (¬ Agree MessageCount BadTicket) × (¬ Agree NoSchema TooLarge) }
{
    no_frame_begins_another();
    readings_are_one();
    paths_are_one();
    descriptors_name_one();
    tickets_have_one_encoding();
    messages_are_one();
    proto_messages::laws::faults_stand_apart();
    headers_are_one();
    header_reading::laws::faults_stand_apart();
    batches_are_one();
    memory_is_refused_where_no_fault_stands();
}

/// Each version that uploads make can be got. It is one that is served; and where the uploads are at most
/// 1,000,000, as many as tables take values, what is answered of it, with the trailer of a call that was answered,
/// is an answer that a client reads. So [`call_get`] gives of it the version's schema, and of each upload its own
/// name and its batches, cell for cell; it leaves what stands behind, and tells something else only where a read
/// failed, a write did or memory was refused. The versions that tables have are of such uploads.
///
/// [`call_get`]: client_calls::call_get
pub fn versions_can_be_got()
    ensures held { (state : TablesState) (values : List Value) (uploads : List Upload) (table : List ℕ) (number : ℕ)
        (version : Version) → HasTaken state values → AreUploadsIn values uploads
        → version_of table number uploads ≡ Some version → IsMadeOf version uploads × (length uploads ≤ agreed_values_limit) }
    ensures served { (version : Version) (uploads : List Upload) → IsMadeOf version uploads → IsServedVersion version }
    ensures answered { (version : Version) (uploads : List Upload) (rest : List ℕ) → IsMadeOf version uploads
        → length uploads ≤ agreed_values_limit
        → IsAnswer (answer_of version ++ ok_trailer ++ rest) (answer_messages version) rest }
    ensures given { (version : Version) (uploads : List Upload) (rest left : List ℕ)
        (result : Result Download ClientFault) → IsMadeOf version uploads → length uploads ≤ agreed_values_limit
        → Receives GivesDownload HasDownload result (answer_of version ++ ok_trailer ++ rest) left
        → GivesServed version rest result left }
{
    uploads_count_once();
    tables_have_one_shape();
    shapes_are_without_metadata();
    values_hold_one_list_of_uploads();
    versions_are_given();
}
