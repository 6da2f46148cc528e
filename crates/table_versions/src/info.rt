//! What is told of a table.

ghost use Rattle.std.specs.Prelude.{◌≡◌};

/// The latest version of a table.
#[derive(Debug, Drop)]
pub struct TableInfo {
    /// The table's name.
    pub table: String,
    /// The version's number: how many uploads it has.
    pub version: u64,
    /// How many rows these have.
    pub records: u64,
    /// How many bytes the answer of the version has.
    pub total_bytes: u64,
    /// The message with the schema of its first upload (Apache Arrow, "Schema.fbs").
    pub schema: Vec<u8>,
}

impl TableInfo {
    /// The message with the schema.
    pub fn into_schema(self) -> Vec<u8>
        ensures { result.items ≡ self.schema.items }
    {
        self.schema
    }
}
