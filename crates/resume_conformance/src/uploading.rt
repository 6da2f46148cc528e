//! Uploads, each of one batch without columns, to two tables in turn.

use batch_columns::Batch;
use header_types::Schema;
use std::alloc::Global;
use std::test::Fail;
use table_types::Ticket;
use uploads::{Upload, UploadFault};

// The table to which the upload of this number goes.
fn table(number: u64) -> &'static str {
    if number % 2 == 0 { "even" } else { "odd" }
}

/// The upload of this number. No two have as many rows.
pub(crate) fn upload(alloc: Global, number: u64) -> Result<Upload, Fail> {
    let schema = Schema {
        fields: Vec::new(alloc),
        metadata: Vec::new(alloc),
    };
    let columns = Vec::new(alloc);
    let batches = vec![in alloc;
        Batch {
            rows: number,
            columns
        },
    ]?;
    let id = u128::from(number).to_be_bytes();
    match Upload::new(alloc, table(number), id, &schema, batches.as_slice()) {
        Ok(upload) => Ok(upload),
        Err(UploadFault::OutOfMemory) => Err(Fail::from("OutOfMemory")),
        Err(_) => Err(Fail::from("no upload")),
    }
}

/// The ticket for this version of the table to which the upload of this number goes.
pub(crate) fn ticket(alloc: Global, number: u64, version: u64) -> Result<Ticket, Fail> {
    Ok(Ticket::new(String::from_str(alloc, table(number))?, version).ok_or("no ticket")?)
}
