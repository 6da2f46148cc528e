//! What stands at each limit when an upload is made, and the names of faults. Texts that are read have their limits in the stories.

use crate::support::{batches, id, made, schema};
use std::alloc::{AllocError, Global};
use std::test::Fail;
use table_types::TicketFault;
use uploads::{DecodeFault, Upload, UploadFault};

/// The fault of an upload without batches to a table of this name.
fn name_fault(alloc: Global, table: &str) -> Result<Option<UploadFault>, AllocError> {
    Ok(made(alloc, table, &[])?.err())
}

/// A name of so many letters.
fn letters(alloc: Global, count: usize) -> Result<String, AllocError> {
    let mut name = String::new(alloc);
    for _ in 0..count {
        name.push('x')?;
    }
    Ok(name)
}

#[test]
fn tables_have_names_of_one_letter(rt: HostRuntime) -> Result<(), Fail> {
    let fault = name_fault(rt.alloc(), "t")?;
    assert!(rt; fault == None);
    Ok(())
}

#[test]
fn tables_have_names_of_64_letters(rt: HostRuntime) -> Result<(), Fail> {
    let name = letters(rt.alloc(), 64)?;
    let fault = name_fault(rt.alloc(), name.as_str())?;
    assert!(rt; fault == None);
    Ok(())
}

#[test]
fn tables_have_no_names_of_65_letters(rt: HostRuntime) -> Result<(), Fail> {
    let name = letters(rt.alloc(), 65)?;
    let fault = name_fault(rt.alloc(), name.as_str())?;
    assert!(rt; fault == Some(UploadFault::BadTable));
    Ok(())
}

#[test]
fn tables_have_no_empty_names(rt: HostRuntime) -> Result<(), Fail> {
    let fault = name_fault(rt.alloc(), "")?;
    assert!(rt; fault == Some(UploadFault::BadTable));
    Ok(())
}

#[test]
fn tables_have_no_names_with_a_slash(rt: HostRuntime) -> Result<(), Fail> {
    let fault = name_fault(rt.alloc(), "a/b")?;
    assert!(rt; fault == Some(UploadFault::BadTable));
    Ok(())
}

/// How many batches an upload has of so many empty rows, or the fault that it has.
fn counted(alloc: Global, count: usize) -> Result<Result<usize, UploadFault>, AllocError> {
    let lens = vec![in alloc; 0; count]?;
    match made(alloc, "t", lens.as_slice())? {
        Ok(upload) => Ok(Ok(upload.batch_count())),
        Err(fault) => Ok(Err(fault)),
    }
}

#[test]
fn uploads_have_1024_batches(rt: HostRuntime) -> Result<(), Fail> {
    let count = counted(rt.alloc(), 1_024)?;
    assert!(rt; count == Ok(1_024));
    Ok(())
}

#[test]
fn uploads_have_no_1025_batches(rt: HostRuntime) -> Result<(), Fail> {
    let count = counted(rt.alloc(), 1_025)?;
    assert!(rt; count == Err(UploadFault::TooManyBatches));
    Ok(())
}

/// How long the encoding is of an upload with batches of so many bytes each, or the fault that it has.
fn length(
    alloc: Global,
    table: &str,
    lens: &[usize],
) -> Result<Result<usize, UploadFault>, AllocError> {
    match made(alloc, table, lens)? {
        Ok(upload) => Ok(Ok(upload.as_slice().len())),
        Err(fault) => Ok(Err(fault)),
    }
}

// Three batches that are served in messages of 4,194,299 bytes each, and one that is shorter.
const FOUR: [usize; 4] = [4_194_104, 4_194_104, 4_194_104, 4_194_008];

#[test]
fn uploads_have_16_mebibytes(rt: HostRuntime) -> Result<(), Fail> {
    let length = length(rt.alloc(), "table", &FOUR)?;
    assert!(rt; length == Ok(16_777_216));
    Ok(())
}

#[test]
fn uploads_have_no_byte_more(rt: HostRuntime) -> Result<(), Fail> {
    let length = length(rt.alloc(), "tables", &FOUR)?;
    assert!(rt; length == Err(UploadFault::TooLarge));
    Ok(())
}

/// Whether an upload with batches of so many bytes each is read again from its encoding.
fn is_read_again(alloc: Global, table: &str, lens: &[usize]) -> Result<bool, AllocError> {
    match made(alloc, table, lens)? {
        Ok(upload) => match Upload::decode(alloc, upload.encode()?) {
            Ok(read) => Ok(read == upload),
            Err(_) => Ok(false),
        },
        Err(_) => Ok(false),
    }
}

#[test]
fn uploads_of_16_mebibytes_are_read(rt: HostRuntime) -> Result<(), Fail> {
    let is_read = is_read_again(rt.alloc(), "table", &FOUR)?;
    assert!(rt; is_read);
    Ok(())
}

// A batch of one row, of a multiple of eight bytes, is served in a message of 195 bytes more: 160 for its header, 16 for
// the upload's id, 8 for the two offsets, and 11 for keys and lengths. So no message has 4,194,304 bytes; one has five
// bytes less, and with its frame's first five just as many, and the next has three more.
#[test]
fn messages_that_are_served_have_4_mebibytes(rt: HostRuntime) -> Result<(), Fail> {
    let length = length(rt.alloc(), "t", &[4_194_104])?;
    assert!(rt; length.is_ok());
    Ok(())
}

#[test]
fn messages_that_are_served_have_no_more(rt: HostRuntime) -> Result<(), Fail> {
    let length = length(rt.alloc(), "t", &[4_194_105])?;
    assert!(rt; length == Err(UploadFault::TooLarge));
    Ok(())
}

#[test]
fn later_messages_have_no_more_either(rt: HostRuntime) -> Result<(), Fail> {
    let length = length(rt.alloc(), "t", &[1, 2, 4_194_105])?;
    assert!(rt; length == Err(UploadFault::TooLarge));
    Ok(())
}

/// The fault of an upload with a schema of other columns than its batch has.
fn fault_of_another_shape(alloc: Global, table: &str) -> Result<Option<UploadFault>, AllocError> {
    let batches = batches(alloc, &[4_194_105])?;
    let mut schema = schema(alloc)?;
    schema.fields.clear();
    Ok(Upload::new(alloc, table, id(1), &schema, batches.as_slice()).err())
}

#[test]
fn another_shape_is_told_before_the_size(rt: HostRuntime) -> Result<(), Fail> {
    let fault = fault_of_another_shape(rt.alloc(), "t")?;
    assert!(rt; fault == Some(UploadFault::ShapeDiffers));
    Ok(())
}

#[test]
fn the_name_is_told_before_the_shape(rt: HostRuntime) -> Result<(), Fail> {
    let fault = fault_of_another_shape(rt.alloc(), "")?;
    assert!(rt; fault == Some(UploadFault::BadTable));
    Ok(())
}

#[test]
fn faults_of_making_have_the_names_that_are_printed(rt: HostRuntime) -> Result<(), Fail> {
    let alloc = rt.alloc();
    let names = format!(in alloc;
        "{} {} {} {} {}",
        UploadFault::BadTable,
        UploadFault::TooManyBatches,
        UploadFault::ShapeDiffers,
        UploadFault::TooLarge,
        UploadFault::OutOfMemory
    )?;
    assert!(rt; names.as_str() == "BadTable TooManyBatches ShapeDiffers TooLarge OutOfMemory");
    Ok(())
}

#[test]
fn faults_of_reading_have_the_names_that_are_printed(rt: HostRuntime) -> Result<(), Fail> {
    let alloc = rt.alloc();
    let names = format!(in alloc;
        "{} {} {} {}",
        DecodeFault::NotAnUpload,
        DecodeFault::OutOfMemory,
        TicketFault::BadTicket,
        TicketFault::OutOfMemory
    )?;
    assert!(rt; names.as_str() == "NotAnUpload OutOfMemory BadTicket OutOfMemory");
    Ok(())
}
