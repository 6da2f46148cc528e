//! The names of tables.

ghost use Rattle.std.specs.Prelude.{◌↔◌, IsTrue};
ghost use Rattle.table_types.specs.Valid.{IsNameByte, IsTableName};

/// The most bytes of a table's name.
pub const MAX_TABLE_NAME_BYTES: usize = 64;

/// Whether a byte may stand in a table's name: a digit, a letter of ASCII, `_`, `.` or `-`.
fn is_name_byte(byte: u8) -> bool
    ensures { IsTrue result ↔ IsNameByte byte }
{
    matches!(byte, b'0'..=b'9' | b'A'..=b'Z' | b'a'..=b'z' | b'_' | b'.' | b'-')
}

/// Whether the bytes are a table's name: 1 to [`MAX_TABLE_NAME_BYTES`] of `0-9 A-Z a-z _ . -`.
pub fn is_table_name(bytes: &[u8]) -> bool
    ensures { IsTrue result ↔ IsTableName bytes.now }
{
    !bytes.is_empty()
        && bytes.len() <= MAX_TABLE_NAME_BYTES
        && bytes.iter().all(|&byte| is_name_byte(byte))
}
