//! Why words tell no schema.

use std::alloc::AllocError;
use thiserror::Error;

/// Why words tell no schema.
#[derive(Clone, Copy, Debug, PartialEq, Eq, Error)]
pub enum SchemaWordsFault {
    /// What stands in this place, from 1 on, between two commas, is no field.
    #[error("field {0} of the schema is no NAME: TYPE")]
    BadField(u64),
    /// Memory was refused.
    #[error("OutOfMemory")]
    OutOfMemory,
}

impl From<AllocError> for SchemaWordsFault {
    ghost use Rattle.std.specs.Prelude.{◌≡◌};
    ghost use Rattle.schema_words.specs.declared.fault.SchemaWordsFault.TheVariants.{OutOfMemory};

    ghost from_gives = { λ _ fault. fault ≡ OutOfMemory };

    fn from(_: AllocError) -> SchemaWordsFault {
        SchemaWordsFault::OutOfMemory
    }
}
