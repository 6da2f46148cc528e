//! How much a schema says, and that it is not too much.

ghost use Rattle.std.specs.Prelude.{◌≡◌, length, IfOk, IfErr};
ghost use Rattle.header_types.specs.declared.fault.MetaFault.TheVariants.{TooManyFields};
ghost use Rattle.header_types.specs.Limits.{add_totals, IsWithin, IsBeyond};
ghost use Rattle.header_types.specs.Totals.{totals_of};
ghost use Rattle.header_types.specs.Adding.{Adds, one_field, one_entry, text_bytes};

use crate::fault::MetaFault;
use crate::limits::{MAX_FIELDS, MAX_METADATA_ENTRIES, MAX_TEXT_BYTES};

/// How many fields, entries of metadata and bytes of texts were read so far.
#[derive(Clone, Copy)]
pub struct SchemaTotals {
    /// Fields, those inside other fields too.
    pub fields: usize,
    /// Entries of metadata, those of fields too.
    pub entries: usize,
    /// Bytes of names, time zones, keys and values.
    pub bytes: usize,
}

impl SchemaTotals {
    /// Of a schema of which nothing was read.
    pub const NOTHING: SchemaTotals = SchemaTotals {
        fields: 0,
        entries: 0,
        bytes: 0,
    };

    /// With one field more.
    pub fn add_field(self) -> Result<SchemaTotals, MetaFault>
        requires within { IsWithin (totals_of self) }
        ensures added { IfOk result (λ new. Adds (totals_of self) one_field (totals_of new)) }
        ensures within { IfOk result (λ new. IsWithin (totals_of new)) }
        ensures beyond { IfErr result (λ e. e ≡ TooManyFields) }
        ensures more { IfErr result (λ e. IsBeyond (add_totals (totals_of self) one_field)) }
    {
        if self.fields == MAX_FIELDS {
            return Err(MetaFault::TooManyFields);
        }
        Ok(SchemaTotals {
            fields: self.fields + 1,
            ..self
        })
    }

    /// With one entry of metadata more.
    pub fn add_entry(self) -> Result<SchemaTotals, MetaFault>
        requires within { IsWithin (totals_of self) }
        ensures added { IfOk result (λ new. Adds (totals_of self) one_entry (totals_of new)) }
        ensures within { IfOk result (λ new. IsWithin (totals_of new)) }
        ensures beyond { IfErr result (λ e. e ≡ TooManyFields) }
        ensures more { IfErr result (λ e. IsBeyond (add_totals (totals_of self) one_entry)) }
    {
        if self.entries == MAX_METADATA_ENTRIES {
            return Err(MetaFault::TooManyFields);
        }
        Ok(SchemaTotals {
            entries: self.entries + 1,
            ..self
        })
    }

    /// With the bytes of a text more.
    pub fn add_text(self, text: &str) -> Result<SchemaTotals, MetaFault>
        requires within { IsWithin (totals_of self) }
        ensures added { IfOk result (λ new. Adds (totals_of self) (text_bytes (length text.now)) (totals_of new)) }
        ensures within { IfOk result (λ new. IsWithin (totals_of new)) }
        ensures beyond { IfErr result (λ e. e ≡ TooManyFields) }
        ensures more { IfErr result (λ e. IsBeyond (add_totals (totals_of self) (text_bytes (length text.now)))) }
    {
        if text.len() > MAX_TEXT_BYTES - self.bytes {
            return Err(MetaFault::TooManyFields);
        }
        Ok(SchemaTotals {
            bytes: self.bytes + text.len(),
            ..self
        })
    }
}
