//! Why rows were not put, or not got.

use client_calls::ClientFault;
use json_rows::JsonFault;
use thiserror::Error;
use uploads::UploadFault;

/// Why rows were not put, or not got.
#[derive(Debug, PartialEq, Eq, Drop, Error)]
pub enum RowCallFault {
    /// The call has no answer.
    #[error("{0}")]
    Call(ClientFault),
    /// The lines tell no rows of the schema, or the rows have no lines.
    #[error("{0}")]
    Rows(JsonFault),
    /// The rows make no upload.
    #[error("{0}")]
    Upload(UploadFault),
    /// The lines could not be written.
    #[error("Output")]
    Output,
}
