//! Versions that are asked by `client_calls` and served by `flight_calls`: a client is served what clients uploaded.

use crate::samples::{
    Sample, binary, bits, decimals, lists, nulls, numbers, pairs, sized, structs, texts, times,
};
use crate::served::{answer, put};
use crate::support::{backend, bytes, upload};
use batch_columns::Batch;
use client_calls::{ClientFault, Download, ServedUpload, call_get};
use header_types::{Schema, Ty};
use std::alloc::Global;
use std::test::Fail;
use table_backend::TableBackend;
use table_types::Ticket;
use uploads::Upload;

/// How many batches the upload of many batches has.
const MANY: u64 = 1_024;

/// The trailer of a call that was answered, and one of status 14.
const OK: &str = "800000000100";

const UNAVAILABLE: &str = "800000000c0e556e617661696c61626c65";

/// The ticket for this version of t.
pub(crate) fn ticket(alloc: Global, version: u64) -> Result<Ticket, Fail> {
    match Ticket::new(String::from_str(alloc, "t")?, version) {
        Some(ticket) => Ok(ticket),
        None => Err(Fail::from("no ticket")),
    }
}

/// The request of a version, which is not answered.
pub(crate) fn get_request(alloc: Global, ticket: &Ticket) -> Result<Vec<u8>, Fail> {
    let mut reader: &[u8] = &[];
    let mut writer = Vec::new(alloc);
    match call_get(alloc, &mut reader, &mut writer, ticket) {
        Err(_) => Ok(writer),
        Ok(_) => Err(Fail::from("answered")),
    }
}

/// What the backend answers to the ticket for this version.
fn served(alloc: Global, backend: &mut TableBackend, version: u64) -> Result<Vec<u8>, Fail> {
    let request = get_request(alloc, &ticket(alloc, version)?)?;
    answer(alloc, backend, request.as_slice())
}

/// What a client makes of these bytes.
fn told(alloc: Global, answer: &[u8]) -> Result<Result<Download, ClientFault>, Fail> {
    let mut reader = answer;
    let ticket = ticket(alloc, 1)?;
    Ok(call_get(alloc, &mut reader, &mut Vec::new(alloc), &ticket))
}

/// This version, as a client is served.
fn get(alloc: Global, backend: &mut TableBackend, version: u64) -> Result<Download, Fail> {
    let answer = served(alloc, backend, version)?;
    match told(alloc, answer.as_slice())? {
        Ok(download) => Ok(download),
        Err(_) => Err(Fail::from("no download")),
    }
}

/// The id of the upload of this number.
fn id(number: u64) -> [u8; 16] {
    u128::from(number).to_be_bytes()
}

/// The upload to t of this number.
fn numbered(
    alloc: Global,
    number: u64,
    schema: &Schema,
    batches: &[Batch],
) -> Result<Upload, Fail> {
    match Upload::new(alloc, "t", id(number), schema, batches) {
        Ok(upload) => Ok(upload),
        Err(_) => Err(Fail::from("no upload")),
    }
}

/// Whether the upload of this number was served, with these batches.
fn is_served(upload: Option<&ServedUpload>, number: u64, batches: &[Batch]) -> bool {
    match upload {
        Some(upload) => upload.id == id(number) && upload.batches.as_slice() == batches,
        None => false,
    }
}

/// The schema of a sample, and a batch of its column.
fn of_sample(alloc: Global, sample: Sample) -> Result<(Schema, Vec<Batch>), Fail> {
    let Sample { field, column } = sample;
    let fields = vec![in alloc; field]?;
    let columns = vec![in alloc; column]?;
    let batches = vec![in alloc; Batch { rows: 3, columns }]?;
    let metadata = Vec::new(alloc);
    Ok((Schema { fields, metadata }, batches))
}

/// Whether a client is served the sample that it put.
fn comes_back(rt: &HostRuntime, sample: Sample) -> Result<bool, Fail> {
    let mut backend = backend(rt)?;
    let (schema, batches) = of_sample(rt.alloc(), sample)?;
    let upload = numbered(rt.alloc(), 5, &schema, batches.as_slice())?;
    let version = put(rt.alloc(), &mut backend, &upload)?;
    let download = get(rt.alloc(), &mut backend, version)?;
    Ok(
        download.schema == schema
            && download.uploads.len() == 1
            && is_served(download.uploads.first(), 5, batches.as_slice()),
    )
}

/// How many of these types come back.
fn come_back(rt: &HostRuntime, types: Vec<(Ty, u32)>) -> Result<usize, Fail> {
    let mut count: usize = 0;
    for (ty, size) in types {
        if comes_back(rt, sized(rt.alloc(), ty, size)?)? {
            count = count.saturating_add(1);
        }
    }
    Ok(count)
}

#[test]
fn values_of_one_size_come_back(rt: HostRuntime) -> Result<(), Fail> {
    assert!(rt; come_back(&rt, numbers(rt.alloc())?)? == 8);
    assert!(rt; come_back(&rt, decimals(rt.alloc())?)? == 2);
    assert!(rt; come_back(&rt, times(rt.alloc())?)? == 7);
    Ok(())
}

#[test]
fn nulls_and_bits_come_back(rt: HostRuntime) -> Result<(), Fail> {
    assert!(rt; comes_back(&rt, nulls(rt.alloc())?)?);
    assert!(rt; comes_back(&rt, bits(rt.alloc())?)?);
    Ok(())
}

#[test]
fn bytes_and_texts_come_back(rt: HostRuntime) -> Result<(), Fail> {
    assert!(rt; comes_back(&rt, binary(rt.alloc())?)?);
    assert!(rt; comes_back(&rt, texts(rt.alloc())?)?);
    Ok(())
}

#[test]
fn lists_and_structs_come_back(rt: HostRuntime) -> Result<(), Fail> {
    assert!(rt; comes_back(&rt, lists(rt.alloc())?)?);
    assert!(rt; comes_back(&rt, pairs(rt.alloc())?)?);
    assert!(rt; comes_back(&rt, structs(rt.alloc())?)?);
    Ok(())
}

/// Puts the upload of this number, of these batches.
fn put_numbered(
    alloc: Global,
    backend: &mut TableBackend,
    number: u64,
    schema: &Schema,
    batches: &[Batch],
) -> Result<u64, Fail> {
    let upload = numbered(alloc, number, schema, batches)?;
    put(alloc, backend, &upload)
}

/// Version 3, of an upload with a batch, one without batches, and one with that batch again, and whether it is served so.
fn three_are_served(rt: &HostRuntime) -> Result<bool, Fail> {
    let mut backend = backend(rt)?;
    let (schema, batches) = of_sample(rt.alloc(), texts(rt.alloc())?)?;
    put_numbered(rt.alloc(), &mut backend, 1, &schema, batches.as_slice())?;
    put_numbered(rt.alloc(), &mut backend, 2, &schema, &[])?;
    put_numbered(rt.alloc(), &mut backend, 3, &schema, batches.as_slice())?;
    let download = get(rt.alloc(), &mut backend, 3)?;
    Ok(
        download.uploads.len() == 3
            && is_served(download.uploads.first(), 1, batches.as_slice())
            && is_served(download.uploads.get(1), 2, &[])
            && is_served(download.uploads.get(2), 3, batches.as_slice()),
    )
}

#[test]
fn uploads_of_one_version_are_told_apart(rt: HostRuntime) -> Result<(), Fail> {
    assert!(rt; three_are_served(&rt)?);
    Ok(())
}

/// So many batches.
fn many(alloc: Global) -> Result<(Schema, Vec<Batch>), Fail> {
    let (schema, some) = of_sample(alloc, bits(alloc)?)?;
    let mut batches = Vec::new(alloc);
    for _ in 0..MANY {
        for batch in &some {
            batches.push(batch.clone()?)?;
        }
    }
    Ok((schema, batches))
}

/// Whether an upload of so many batches is served.
fn many_are_served(rt: &HostRuntime) -> Result<bool, Fail> {
    let mut backend = backend(rt)?;
    let (schema, batches) = many(rt.alloc())?;
    put_numbered(rt.alloc(), &mut backend, 1, &schema, batches.as_slice())?;
    let download = get(rt.alloc(), &mut backend, 1)?;
    Ok(download.uploads.len() == 1 && is_served(download.uploads.first(), 1, batches.as_slice()))
}

#[test]
fn an_upload_of_the_most_batches_comes_back(rt: HostRuntime) -> Result<(), Fail> {
    assert!(rt; many_are_served(&rt)?);
    Ok(())
}

/// What the backend answers to the ticket for version 1, of the upload of the examples.
fn example(rt: &HostRuntime) -> Result<Vec<u8>, Fail> {
    let mut backend = backend(rt)?;
    put(rt.alloc(), &mut backend, &upload(rt.alloc())?)?;
    served(rt.alloc(), &mut backend, 1)
}

/// Whether these bytes are no answer to a ticket.
fn is_no_answer(alloc: Global, answer: &[u8]) -> Result<bool, Fail> {
    match told(alloc, answer)? {
        Err(ClientFault::BadAnswer) => Ok(true),
        _ => Ok(false),
    }
}

#[test]
fn no_beginning_of_an_answer_is_one(rt: HostRuntime) -> Result<(), Fail> {
    let answer = example(&rt)?;
    let mut refused: usize = 0;
    for len in 0..answer.len() {
        if is_no_answer(rt.alloc(), &answer[..len])? {
            refused = refused.saturating_add(1);
        }
    }
    assert!(rt; refused == answer.len());
    assert!(rt; told(rt.alloc(), answer.as_slice())?.is_ok());
    Ok(())
}

/// These bytes, with those of these digits in place of the last six, which are the trailer.
fn with_end(alloc: Global, answer: &[u8], end: &str) -> Result<Vec<u8>, Fail> {
    let mut other = Vec::new(alloc);
    other.extend_from_slice(&answer[..answer.len().saturating_sub(6)])?;
    other.extend_from_slice(bytes(alloc, &[end])?.as_slice())?;
    Ok(other)
}

/// Whether a client is told of status 14 and its text over these bytes.
fn is_unavailable(alloc: Global, answer: &[u8]) -> Result<bool, Fail> {
    match told(alloc, answer)? {
        Err(ClientFault::Status(code, text)) => Ok(code == 14 && text.as_str() == "Unavailable"),
        _ => Ok(false),
    }
}

#[test]
fn a_refusal_is_told_behind_the_messages_of_a_version(rt: HostRuntime) -> Result<(), Fail> {
    let answer = example(&rt)?;
    let refused = with_end(rt.alloc(), answer.as_slice(), UNAVAILABLE)?;
    assert!(rt; is_unavailable(rt.alloc(), refused.as_slice())?);
    Ok(())
}

/// The answer with its messages twice: the second schema says nothing of an upload.
fn twice(alloc: Global, answer: &[u8], end: &str) -> Result<Vec<u8>, Fail> {
    let mut all = with_end(alloc, answer, "")?;
    let again = with_end(alloc, answer, end)?;
    all.extend_from_slice(again.as_slice())?;
    Ok(all)
}

#[test]
fn messages_behind_those_of_a_version_are_none(rt: HostRuntime) -> Result<(), Fail> {
    let answer = example(&rt)?;
    let ended = twice(rt.alloc(), answer.as_slice(), OK)?;
    assert!(rt; is_no_answer(rt.alloc(), ended.as_slice())?);
    let refused = twice(rt.alloc(), answer.as_slice(), UNAVAILABLE)?;
    assert!(rt; is_unavailable(rt.alloc(), refused.as_slice())?);
    Ok(())
}

/// The version of an upload of each of these numbers, with the same batch each, as the backend answers its ticket.
fn version_of(rt: &HostRuntime, numbers: &[u64]) -> Result<Vec<u8>, Fail> {
    let mut backend = backend(rt)?;
    let (schema, batches) = of_sample(rt.alloc(), texts(rt.alloc())?)?;
    let mut version = 0;
    for number in numbers {
        version = put_numbered(
            rt.alloc(),
            &mut backend,
            *number,
            &schema,
            batches.as_slice(),
        )?;
    }
    served(rt.alloc(), &mut backend, version)
}

/// An answer of the uploads of the numbers 1, 2 and this, in which the message of the third is that of another version.
fn with_third(rt: &HostRuntime, number: u64) -> Result<Vec<u8>, Fail> {
    let mut all = with_end(rt.alloc(), version_of(rt, &[1, 2])?.as_slice(), "")?;
    let before = version_of(rt, &[2])?;
    let whole = version_of(rt, &[2, number])?;
    // The trailer has six bytes.
    let Some(third) = whole.get(before.len().saturating_sub(6)..) else {
        return Err(Fail::from("no third message"));
    };
    all.extend_from_slice(third)?;
    Ok(all)
}

/// Whether a client is served the uploads of the numbers 1, 2 and 3 by these bytes.
fn are_three(alloc: Global, answer: &[u8]) -> Result<bool, Fail> {
    match told(alloc, answer)? {
        Ok(download) => {
            let mut names = Vec::new(alloc);
            for upload in &download.uploads {
                names.push(upload.id)?;
            }
            Ok(names.as_slice() == [id(1), id(2), id(3)].as_slice())
        }
        Err(_) => Ok(false),
    }
}

#[test]
fn a_name_that_comes_again_behind_another_makes_no_version(rt: HostRuntime) -> Result<(), Fail> {
    let different = with_third(&rt, 3)?;
    assert!(rt; are_three(rt.alloc(), different.as_slice())?);
    let repeated = with_third(&rt, 1)?;
    assert!(rt; is_no_answer(rt.alloc(), repeated.as_slice())?);
    Ok(())
}

#[test]
fn a_version_that_is_none_is_refused(rt: HostRuntime) -> Result<(), Fail> {
    let mut backend = backend(&rt)?;
    let answer = served(rt.alloc(), &mut backend, 1)?;
    assert!(rt; told(rt.alloc(), answer.as_slice())?.is_err());
    assert!(rt; is_unavailable(rt.alloc(), answer.as_slice())?);
    Ok(())
}
