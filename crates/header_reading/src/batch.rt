//! Batches of rows (Apache Arrow, "Message.fbs", the table `RecordBatch`).

ghost use Rattle.std.specs.Prelude.{◌≡◌, ◌≤◌, ◌<◌, ◌+◌, ◌⊎◌, length, IfOk, IfErr};
ghost use Rattle.header_types.specs.declared.fault.MetaFault.TheVariants.{OutOfMemory};
ghost use Rattle.header_types.specs.Slots.{ShowsVectorRef, SlotNumberFault};
ghost use Rattle.header_reading.specs.VectorRefs.{vector_ref_of};
ghost use Rattle.header_reading.specs.Walking.{IsInside};
ghost use Rattle.header_types.specs.Header.{ShowsInt64, ShowsPairs, Head};
ghost use Rattle.header_reading.specs.Faults.{BatchFault};
ghost use Rattle.header_types.specs.HeaderViews.{head_of};
ghost use Rattle.header_reading.specs.Reading.{ShowsLong, ShowsBatchIn, ShowsCompression, ShowsBatchParts};
ghost use Rattle.header_reading.specs.Reading.{BatchFaultIn, IsPairAt};

use crate::slot;
use crate::slots::{VectorRef, number, slot_at, table_at, vector_at};
use flat_places::{Table, uint};
use header_types::{BatchHead, MetaFault};
use std::alloc::Global;

/// The bytes of a number.
const LONG_LEN: usize = 8;

/// The bytes of a struct of two numbers.
const PAIR_LEN: usize = 16;

/// What a batch's table and its message say of the batch, but for the structs of its two vectors.
#[derive(Clone, Copy)]
struct BatchRef {
    /// How many rows there are.
    length: i64,
    /// The structs `FieldNode`.
    nodes: VectorRef,
    /// The structs `Buffer`.
    buffers: VectorRef,
    /// Whether the message says that the buffers are compressed.
    compressed: bool,
    /// How many bytes the body has.
    body_length: i64,
}

/// The signed number of eight bytes at field `n` of the table, and 0 where it is absent.
fn long(table: &Table<'_>, n: usize) -> Result<i64, MetaFault>
    ensures read { IfOk result (ShowsLong table.now.buf table.now.place n) }
    ensures fault { IfErr result (SlotNumberFault table.now.buf table.now.place n 8) }
{
    Ok(number(table, n, LONG_LEN, 0)?.cast_signed())
}

/// How many bytes the body of the message at the place has (Message.fbs, the table `Message`).
fn body_length_of(buf: &[u8], message: usize) -> Result<i64, MetaFault>
    ensures read { IfOk result (ShowsLong buf.now message 3) }
    ensures fault { IfErr result (SlotNumberFault buf.now message 3 8) }
{
    let message = table_at(buf, message)?;
    long(&message, slot::MESSAGE_BODY_LENGTH)
}

/// What the table says of the batch, whose body has so many bytes, but for the structs of its two vectors.
fn batch_in(table: &Table<'_>, body_length: i64) -> Result<BatchRef, MetaFault>
    ensures length { IfOk result (λ b. ShowsLong table.now.buf table.now.place 0 b.length) }
    ensures nodes { IfOk result (λ b. ShowsVectorRef table.now.buf table.now.place 1 16 (vector_ref_of b.nodes)) }
    ensures buffers { IfOk result (λ b. ShowsVectorRef table.now.buf table.now.place 2 16 (vector_ref_of b.buffers)) }
    ensures compressed { IfOk result (λ b. ShowsCompression table.now.buf table.now.place b.compressed) }
    ensures body { IfOk result (λ b. b.body_length ≡ body_length) }
    ensures fault { IfErr result (BatchFault table.now.buf table.now.place) }
{
    let length = long(table, slot::BATCH_LENGTH)?;
    let nodes = vector_at(table, slot::BATCH_NODES, PAIR_LEN)?;
    let buffers = vector_at(table, slot::BATCH_BUFFERS, PAIR_LEN)?;
    let compressed = slot_at(table, slot::BATCH_COMPRESSION)?.is_some();
    Ok(BatchRef {
        length,
        nodes,
        buffers,
        compressed,
        body_length,
    })
}

/// The batch whose table and message these are, but for the structs of its two vectors.
fn batch_at(buf: &[u8], message: usize, table: usize) -> Result<BatchRef, MetaFault>
    ensures read { IfOk result (λ b. ShowsBatchParts buf.now message table b.length (vector_ref_of b.nodes)
        (vector_ref_of b.buffers) b.compressed b.body_length) }
    ensures fault { IfErr result (BatchFaultIn buf.now message table) }
{
    let body_length = body_length_of(buf, message)?;
    let table = table_at(buf, table)?;
    batch_in(&table, body_length)
}

/// The signed number of eight bytes at the place.
fn long_at(buf: &[u8], place: usize) -> i64
    requires { place + 8 ≤ length buf.now }
    ensures { ShowsInt64 buf.now place result }
{
    match uint(buf, place, LONG_LEN) {
        Ok(bits) => bits.cast_signed(),
        Err(_) => unreachable!(),
    }
}

/// The struct at this place of a vector.
fn pair_at(buf: &[u8], vector: VectorRef, index: usize) -> (i64, i64)
    requires inside { IsInside buf.now (vector_ref_of vector) 16 }
    requires there { index < vector.count }
    ensures { IsPairAt buf.now vector.first index result }
{
    let place = vector.first + PAIR_LEN * index;
    (long_at(buf, place), long_at(buf, place + LONG_LEN))
}

/// The structs of a vector.
fn pairs_at(alloc: Global, buf: &[u8], vector: VectorRef) -> Result<Vec<(i64, i64)>, MetaFault>
    requires { IsInside buf.now (vector_ref_of vector) 16 }
    ensures read { IfOk result (λ pairs. ShowsPairs buf.now vector.first pairs.items) }
    ensures all { IfOk result (λ pairs. length pairs.items ≡ vector.count) }
    ensures refused { IfErr result (λ e. e ≡ OutOfMemory) }
{
    let mut pairs = Vec::with_capacity(alloc, vector.count)?;
    for index in 0..vector.count {
        pairs.push(pair_at(buf, vector, index)).unwrap();
    }
    Ok(pairs)
}

/// The batch whose table and message these are (Message.fbs, the tables `RecordBatch` and `Message`).
pub(crate) fn read_batch(
    alloc: Global,
    buf: &[u8],
    message: usize,
    table: usize,
) -> Result<BatchHead, MetaFault>
    ensures read { IfOk result (λ head. ShowsBatchIn buf.now message table (head_of head)) }
    ensures fault { IfErr result (λ e. (e ≡ OutOfMemory) ⊎ BatchFault buf.now table e
        ⊎ SlotNumberFault buf.now message 3 8 e) }
    ensures memory { result ≡ Err OutOfMemory → (head : Head) × ShowsBatchIn buf.now message table head }
{
    let batch = batch_at(buf, message, table)?;
    let nodes = pairs_at(alloc, buf, batch.nodes)?;
    let buffers = pairs_at(alloc, buf, batch.buffers)?;
    Ok(BatchHead {
        length: batch.length,
        nodes,
        buffers,
        compressed: batch.compressed,
        body_length: batch.body_length,
    })
}
