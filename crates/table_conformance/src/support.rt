//! Uploads of one column of Binary.

use ballots::{UploadBytes, Value};
use batch_columns::{Batch, Column};
use bytes::Bytes;
use header_types::{Field, Schema, Ty};
use std::alloc::{AllocError, Global};
use std::hash::RandomState;
use std::test::Fail;
use table_versions::Tables;
use uploads::{Upload, UploadFault};

/// A schema of one column of Binary.
pub(crate) fn schema(alloc: Global) -> Result<Schema, AllocError> {
    let field = Field {
        name: String::from_str(alloc, "a")?,
        nullable: true,
        ty: Ty::Binary,
        children: Vec::new(alloc),
        metadata: Vec::new(alloc),
    };
    let mut fields = Vec::new(alloc);
    fields.push(field)?;
    let metadata = Vec::new(alloc);
    Ok(Schema { fields, metadata })
}

/// A batch of one row, which has so many bytes.
fn batch(alloc: Global, len: usize) -> Result<Batch, AllocError> {
    let bytes = vec![in alloc; 7; len]?;
    let column = Column::from_binary(alloc, &[Some(bytes.as_slice())]).map_err(|_| AllocError)?;
    let mut columns = Vec::new(alloc);
    columns.push(column)?;
    Ok(Batch { rows: 1, columns })
}

/// A batch for each of these numbers, of one row that has so many bytes.
pub(crate) fn batches(alloc: Global, lens: &[usize]) -> Result<Vec<Batch>, AllocError> {
    let mut batches = Vec::new(alloc);
    for len in lens {
        batches.push(batch(alloc, *len)?)?;
    }
    Ok(batches)
}

/// The id of an upload, of this number.
pub(crate) fn id(number: u64) -> [u8; 16] {
    u128::from(number).to_be_bytes()
}

/// The upload to this table of batches of so many bytes each, or the fault that it has.
pub(crate) fn made(
    alloc: Global,
    table: &str,
    lens: &[usize],
) -> Result<Result<Upload, UploadFault>, AllocError> {
    let batches = batches(alloc, lens)?;
    let schema = schema(alloc)?;
    Ok(Upload::new(alloc, table, id(1), &schema, batches.as_slice()))
}

/// The upload without batches to this table, of this number, in a box as tables are.
pub(crate) fn small(alloc: Global, table: &str, number: u64) -> Result<Box<Upload>, Fail> {
    let schema = schema(alloc)?;
    match Upload::new(alloc, table, id(number), &schema, &[]) {
        Ok(upload) => Ok(Box::new(alloc, upload)?),
        Err(_) => Err(Fail::from("no upload")),
    }
}

/// The value that nodes agree on of these bytes.
fn value_in(bytes: Bytes) -> Result<Value, Fail> {
    match UploadBytes::new(bytes) {
        Some(bytes) => Ok(Value::Upload(bytes)),
        None => Err(Fail::from("no value")),
    }
}

/// The value that nodes agree on of an upload.
pub(crate) fn value_of(upload: &Upload) -> Result<Value, Fail> {
    value_in(upload.encode()?)
}

/// The value that nodes agree on of the upload without batches to this table, of this number.
pub(crate) fn small_value(alloc: Global, table: &str, number: u64) -> Result<Value, Fail> {
    let upload = small(alloc, table, number)?;
    value_of(&upload)
}

/// Tables that took nothing, in a box: a test that held them as they are would be proved long.
pub(crate) fn no_tables(rt: &HostRuntime) -> Result<Box<Tables>, Fail> {
    let hashing = RandomState::new(rt)?;
    let tables = Box::new(rt.alloc(), Tables::new(rt.alloc(), hashing))?;
    Ok(tables)
}
