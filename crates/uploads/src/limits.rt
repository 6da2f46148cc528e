//! Limits of uploads. All of them are this service's own.

ghost use Rattle.std.specs.Prelude.{◌≡◌};
ghost use Rattle.ballots.specs.declared.value.TheConstants.{MAX_UPLOAD_BYTES};
ghost use Rattle.table_types.specs.Valid.{id_size, batches_limit, upload_limit};

/// The bytes of an upload's id.
pub const UPLOAD_ID_BYTES: usize = 16;

/// The most batches of an upload.
pub const MAX_UPLOAD_BATCHES: usize = 1_024;

/// The limits are those that the definitions of uploads have.
pub fn limits_are_those_of_uploads()
    ensures id { UPLOAD_ID_BYTES ≡ id_size }
    ensures batches { MAX_UPLOAD_BATCHES ≡ batches_limit }
    ensures upload { MAX_UPLOAD_BYTES ≡ upload_limit }
{}
