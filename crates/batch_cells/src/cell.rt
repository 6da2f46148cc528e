//! One cell.

/// One cell of a column (Apache Arrow, "Arrow Columnar Format", "Terminology": a slot of an array).
#[derive(Clone, Debug, PartialEq, Eq, Drop)]
pub enum Cell {
    /// A null.
    Null,
    /// A bit.
    Bit(bool),
    /// The bytes of a number, the lowest first, of a text, or any bytes.
    Bytes(Vec<u8>),
    /// The elements of a list.
    List(Vec<Cell>),
    /// One cell of each field of a struct, in order.
    Tuple(Vec<Cell>),
}
