//! What a backend tells of a table.

ghost use Rattle.std.specs.Prelude.{◌≡◌, map, string_bytes, IfOk};

use std::alloc::{AllocError, Global};
use table_versions::TableInfo;

/// The latest version of a table, and where it is served.
#[derive(Debug, Drop)]
pub struct TableDescription {
    /// What is told of the version.
    pub info: TableInfo,
    /// The URI of each location that serves it, in the order in which clients are told them.
    pub locations: Vec<String>,
}

impl TableDescription {
    /// What is told of a table that these locations serve. [`AllocError`] says that memory was refused.
    pub fn of(
        alloc: Global,
        info: TableInfo,
        locations: &[String],
    ) -> Result<TableDescription, AllocError>
        ensures { IfOk result (λ found. (found.info ≡ info)
            × (map string_bytes found.locations.items ≡ map string_bytes locations.now)) }
    {
        let locations = copies(alloc, locations)?;
        Ok(TableDescription { info, locations })
    }
}

/// The same texts.
fn copies(alloc: Global, texts: &[String]) -> Result<Vec<String>, AllocError>
    ensures { IfOk result (λ made. map string_bytes made.items ≡ map string_bytes texts.now) }
{
    let mut copies = Vec::new(alloc);
    for text in texts {
        let copy = text.clone()?;
        copies.push(copy)?;
    }
    Ok(copies)
}
