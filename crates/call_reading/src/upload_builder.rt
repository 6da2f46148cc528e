//! An upload on its way, message by message.

ghost use Rattle.std.specs.Prelude.{◌≡◌, ◌++◌, ◌∷◌, [], ◌≤◌, ◌<◌, ◌+◌, ◌⊎◌, ◌↔◌, IsTrue, IfOk, IfErr, IfSome, IfNone, OnOk, OnErr};
ghost use Rattle.header_types.specs.Header.{schema_header, batch_header, ShowsHeader};
ghost use Rattle.header_types.specs.HeaderViews.{header_of, head_of};
ghost use Rattle.header_types.specs.Profile.{InProfile};
ghost use Rattle.header_types.specs.Views.{schema_of};
ghost use Rattle.batch_columns.specs.Batches.{rows_of, IsBatchOf};
ghost use Rattle.record_batches.specs.Reading.{IsToldOf};
ghost use Rattle.proto_messages.specs.Descriptor.{IsMessage};
ghost use Rattle.proto_wire.specs.Flight.{data_descriptor};
ghost use Rattle.flight_data.specs.Lent.{lent_values};
ghost use Rattle.table_types.specs.Uploads.{Upload as Uploaded};
ghost use Rattle.table_types.specs.Valid.{batches_limit, upload_limit};
ghost use Rattle.call_protocol.specs.declared.refusal.CallRefusal.TheVariants.{OutOfMemory};
ghost use Rattle.call_reading.specs.Requests.{IsBlank};
ghost use Rattle.call_reading.specs.Faults.{IsNoMessage, IsNoHeader, MeansAtFault, OpeningFault, SchemaFault, HeadFault, BatchFaultIn, FurtherFault};
ghost use Rattle.call_reading.specs.Builder.{IsOnItsWay, Holds, HoldsMore, IsOpened, OpensSome, AddsWithin, SizeWith, IsCounted, Grows, Finishes, LayFault};
ghost use Rattle.call_reading.specs.Additions.{IsBuilt, IsLeftOut, HasAddition, AddsAs, HasRoom};

use batch_checking::check_batch;
use batch_columns::Batch;
use batch_types::BatchFault;
use call_protocol::{CallRefusal, upload_in};
use flight_data::LentFlightData;
use grpc_frames::MAX_FRAME_PAYLOAD;
use header_reading::read_message;
use header_types::laws::shown_schemas_are_in_profile;
use header_types::{BatchHead, Header, Schema};
use record_batches::read_batch_within;
use std::alloc::{AllocError, Global};
use uploads::{MAX_UPLOAD_BATCHES, MAX_UPLOAD_BYTES, Upload, UploadFault, batch_size};

/// The most bytes that batches have in the encoding of an upload.
const SIZE_LIMIT: u64 = MAX_UPLOAD_BYTES as u64;

/// An upload of which more may come. Once what came is too much for an upload, none of it is kept.
#[derive(Debug, Drop)]
pub(crate) struct UploadBuilder {
    /// The table that it is for.
    table: String,
    /// Its id.
    id: [u8; 16],
    /// The schema of its batches.
    schema: Schema,
    /// The batches that came, while they are not too much.
    batches: Vec<Batch>,
    /// How many batches came.
    count: usize,
    /// How many bytes they have in the encoding, and more than there may be once they are too much.
    size: u64,
}

/// What a message behind the first adds to an upload.
#[derive(Debug, Drop)]
enum Addition {
    /// Nothing: the message is passed over.
    Nothing,
    /// A batch.
    Built(Batch),
    /// A batch that was judged and not built, since there is no upload with it: it would be too large.
    LeftOut,
}

/// What a message means, of which the bytes stay where they came.
fn data_in(alloc: Global, message: &[u8]) -> Result<LentFlightData<'_>, CallRefusal>
    ensures read { IfOk result (λ read. IsMessage data_descriptor message.now (lent_values read)) }
    ensures fault { IfErr result (IsNoMessage data_descriptor message.now) }
{
    match LentFlightData::read(alloc, message) {
        Ok(read) => Ok(read),
        Err(fault) => Err(CallRefusal::Wire(fault)),
    }
}

/// What a header shows.
fn shown(alloc: Global, header: &[u8]) -> Result<Header, CallRefusal>
    ensures shown { IfOk result (λ shown. ShowsHeader header.now (header_of shown)) }
    ensures fault { IfErr result (IsNoHeader header.now) }
{
    match read_message(alloc, header) {
        Ok(shown) => Ok(shown),
        Err(fault) => Err(CallRefusal::Meta(fault)),
    }
}

/// The schema that a header shows.
fn schema_in(alloc: Global, header: &[u8]) -> Result<Schema, CallRefusal>
    ensures shown { IfOk result (λ schema. ShowsHeader header.now (schema_header (schema_of schema))) }
    ensures fault { IfErr result (SchemaFault header.now) }
{
    if header.is_empty() {
        return Err(CallRefusal::NoSchema);
    }
    match shown(alloc, header)? {
        Header::Schema(schema) => Ok(schema),
        Header::Batch(_) => Err(CallRefusal::NoSchema),
    }
}

/// The head of a batch that a header shows.
fn head_in(alloc: Global, header: &[u8]) -> Result<BatchHead, CallRefusal>
    ensures shown { IfOk result (λ head. ShowsHeader header.now (batch_header (head_of head))) }
    ensures fault { IfErr result (HeadFault header.now) }
{
    match shown(alloc, header)? {
        Header::Batch(head) => Ok(head),
        Header::Schema(_) => Err(CallRefusal::SecondSchema),
    }
}

/// The batch that a header and a body lay out. None is built where none is wanted, or where no frame has room for the body
/// that is written of it.
fn wanted_batch(
    alloc: Global,
    schema: &Schema,
    wanted: bool,
    head: &BatchHead,
    body: &[u8],
) -> Result<Option<Batch>, BatchFault>
    requires profile { InProfile (schema_of schema.now) }
    ensures built { IfOk result (λ read. IfSome read
        (λ batch. IsBuilt (schema_of schema.now) wanted (head_of head.now) body.now batch)) }
    ensures left_out { IfOk result (λ read. IfNone read
        (IsLeftOut (schema_of schema.now) wanted (head_of head.now) body.now)) }
    ensures fault { IfErr result (λ fault. IsToldOf (schema_of schema.now) (head_of head.now) body.now fault) }
{
    if wanted {
        return read_batch_within(alloc, schema, head, body, MAX_FRAME_PAYLOAD as u64);
    }
    check_batch(schema, head, body)?;
    Ok(None)
}

/// The batch that a header of one and a body lay out, where so many came before: built where it is wanted.
fn laid_batch(
    alloc: Global,
    schema: &Schema,
    count: usize,
    wanted: bool,
    head: &BatchHead,
    body: &[u8],
) -> Result<Option<Batch>, CallRefusal>
    requires profile { InProfile (schema_of schema.now) }
    requires few { count ≤ batches_limit }
    ensures built { IfOk result (λ read. IfSome read
        (λ batch. IsBuilt (schema_of schema.now) wanted (head_of head.now) body.now batch)) }
    ensures left_out { IfOk result (λ read. IfNone read
        (IsLeftOut (schema_of schema.now) wanted (head_of head.now) body.now)) }
    ensures room { OnOk result (count < batches_limit) }
    ensures fault { IfErr result (LayFault (schema_of schema.now) count (head_of head.now) body.now) }
{
    if count == MAX_UPLOAD_BATCHES {
        return Err(CallRefusal::TooManyBatches);
    }
    match wanted_batch(alloc, schema, wanted, head, body) {
        Ok(batch) => Ok(batch),
        Err(fault) => Err(CallRefusal::Batch(fault)),
    }
}

/// What a message adds that has a batch, where so many came before.
fn batch_in(
    alloc: Global,
    schema: &Schema,
    count: usize,
    wanted: bool,
    header: &[u8],
    body: &[u8],
) -> Result<Addition, CallRefusal>
    requires profile { InProfile (schema_of schema.now) }
    requires few { count ≤ batches_limit }
    ensures batch { IfOk result (HasAddition (schema_of schema.now) wanted header.now body.now) }
    ensures room { OnOk result (count < batches_limit) }
    ensures fault { IfErr result (λ refusal. HeadFault header.now refusal
        ⊎ BatchFaultIn (schema_of schema.now) count header.now body.now refusal) }
{
    let head = head_in(alloc, header)?;
    match laid_batch(alloc, schema, count, wanted, &head, body)? {
        Some(batch) => Ok(Addition::Built(batch)),
        None => Ok(Addition::LeftOut),
    }
}

/// Whether a message is passed over.
fn is_blank(header: &[u8], body: &[u8]) -> bool
    ensures { IsTrue result ↔ IsBlank header.now body.now }
{
    header.is_empty() && body.is_empty()
}

/// What a further message adds, where so many batches came before.
fn addition_of(
    alloc: Global,
    schema: &Schema,
    count: usize,
    wanted: bool,
    message: &[u8],
) -> Result<Addition, CallRefusal>
    requires profile { InProfile (schema_of schema.now) }
    requires few { count ≤ batches_limit }
    ensures added { IfOk result (AddsAs (schema_of schema.now) wanted message.now) }
    ensures room { IfOk result (λ added. HasRoom count added) }
    ensures fault { IfErr result
        (MeansAtFault data_descriptor (FurtherFault (schema_of schema.now) count) message.now) }
{
    let data = data_in(alloc, message)?;
    let (header, body) = (data.data_header, data.data_body);
    if is_blank(header, body) {
        return Ok(Addition::Nothing);
    }
    batch_in(alloc, schema, count, wanted, header, body)
}

impl UploadBuilder {
    /// The upload that a first message opens.
    pub(crate) fn open(alloc: Global, message: &[u8]) -> Result<UploadBuilder, CallRefusal>
        ensures opened { IfOk result (IsOpened message.now) }
        ensures on_its_way { IfOk result IsOnItsWay }
        ensures fault { IfErr result (λ refusal.
            MeansAtFault data_descriptor OpeningFault message.now refusal
            ⊎ (OpensSome message.now × (refusal ≡ OutOfMemory))) }
    {
        shown_schemas_are_in_profile();
        let data = data_in(alloc, message)?;
        let Some(descriptor) = &data.flight_descriptor else {
            return Err(CallRefusal::BadDescriptor);
        };
        let (table, id) = upload_in(descriptor)?;
        let schema = schema_in(alloc, data.data_header)?;
        let table = String::from_str(alloc, table)?;
        Ok(UploadBuilder {
            table,
            id,
            schema,
            batches: Vec::new(alloc),
            count: 0,
            size: 0,
        })
    }

    /// Takes what a further message adds.
    pub(crate) fn take(&mut self, alloc: Global, message: &[u8]) -> Result<(), CallRefusal>
        requires { IsOnItsWay self.old }
        ensures grows { OnOk result (Grows message.now self.old self.new) }
        ensures on_its_way { IsOnItsWay self.new }
        ensures fault { IfErr result (λ refusal. MeansAtFault data_descriptor
            (FurtherFault (schema_of self.old.schema) self.old.count) message.now refusal
            ⊎ (AddsWithin (schema_of self.old.schema) self.old.count message.now × (refusal ≡ OutOfMemory))) }
    {
        let wanted = self.is_within_limit();
        match addition_of(alloc, &self.schema, self.count, wanted, message)? {
            Addition::Nothing => Ok(()),
            Addition::Built(batch) => self.add(batch),
            Addition::LeftOut => {
                self.give_up(u64::MAX);
                Ok(())
            }
        }
    }

    /// Whether the batches that came are not too much already.
    fn is_within_limit(&self) -> bool
        ensures { IsTrue result ↔ (self.now.size ≤ upload_limit) }
    {
        self.size <= SIZE_LIMIT
    }

    /// How many bytes the batches have with one more, or more than there may be where no frame has room for it.
    fn size_with(&self, batch: &Batch) -> u64
        requires on_its_way { IsOnItsWay self.now }
        requires small { self.now.size ≤ upload_limit }
        requires of_schema { IsBatchOf (schema_of self.now.schema) batch.now }
        ensures { SizeWith self.now (rows_of batch.now) result }
    {
        match batch_size(&self.schema, &self.id, batch) {
            Some(size) => self.size + size,
            None => u64::MAX,
        }
    }

    /// Counts a batch, with which there are so many bytes, and keeps none of the batches any more.
    fn give_up(&mut self, size: u64)
        requires { self.old.count < batches_limit }
        ensures { IsCounted self.old self.new [] (self.old.count + 1) size }
    {
        self.batches.clear();
        self.size = size;
        self.count += 1;
    }

    /// Counts a batch, with which there are so many bytes, and keeps it. [`AllocError`] says that memory was refused, and that
    /// all is as before.
    fn keep(&mut self, batch: Batch, size: u64) -> Result<(), AllocError>
        requires { self.old.count < batches_limit }
        ensures kept { OnOk result
            (IsCounted self.old self.new (self.old.batches.items ++ batch ∷ []) (self.old.count + 1) size) }
        ensures same { OnErr result
            (IsCounted self.old self.new self.old.batches.items self.old.count self.old.size) }
    {
        self.batches.push(batch)?;
        self.size = size;
        self.count += 1;
        Ok(())
    }

    /// Takes a batch.
    fn add(&mut self, batch: Batch) -> Result<(), CallRefusal>
        requires on_its_way { IsOnItsWay self.old }
        requires small { self.old.size ≤ upload_limit }
        requires of_schema { IsBatchOf (schema_of self.old.schema) batch }
        requires room { self.old.count < batches_limit }
        ensures holds { OnOk result (HoldsMore (rows_of batch ∷ []) self.old self.new) }
        ensures on_its_way { IsOnItsWay self.new }
        ensures fault { IfErr result (λ refusal. refusal ≡ OutOfMemory) }
    {
        let size = self.size_with(&batch);
        if size > SIZE_LIMIT {
            self.give_up(size);
            return Ok(());
        }
        self.keep(batch, size)?;
        Ok(())
    }

    /// The upload, whose end has come.
    pub(crate) fn finish(&self, alloc: Global) -> Result<Upload, CallRefusal>
        requires { IsOnItsWay self.now }
        ensures { (upload : Uploaded) → Holds self.now upload → Finishes upload result }
    {
        if self.size > SIZE_LIMIT {
            return Err(CallRefusal::TooLarge);
        }
        match Upload::new(alloc, &self.table, self.id, &self.schema, &self.batches) {
            Ok(upload) => Ok(upload),
            Err(UploadFault::TooLarge) => Err(CallRefusal::TooLarge),
            Err(UploadFault::OutOfMemory) => Err(CallRefusal::OutOfMemory),
            Err(UploadFault::BadTable | UploadFault::TooManyBatches | UploadFault::ShapeDiffers) =>
                { unreachable!() }
        }
    }
}
