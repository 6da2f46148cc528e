//! Headers that are refused memory as they are written and as they are read, and then are written and read again: the
//! refusal has its name, and what was written before stands alone.
//! Run with every allocation refused in turn, each test ends as before or for want of memory.

use flatbuf_meta::{
    BatchHead, Field, Header, MAX_BUFFERS, MAX_FIELDS, MetaFault, Schema, TimeUnit, Ty,
    read_message, write_batch, write_schema,
};
use std::alloc::{AllocError, Global};
use std::test::Fail;

/// What stands before each is written.
const BEFORE: [u8; 2] = [0xee, 0xef];

/// The text of these letters with another.
fn pair(alloc: Global, key: &str, value: &str) -> Result<(String, String), AllocError> {
    let key = String::from_str(alloc, key)?;
    Ok((key, String::from_str(alloc, value)?))
}

/// A field of this type and name, with these inside it.
fn field(alloc: Global, name: &str, ty: Ty, children: Vec<Field>) -> Result<Field, AllocError> {
    let mut metadata = Vec::new(alloc);
    metadata.push(pair(alloc, "unit", "none")?)?;
    Ok(Field {
        name: String::from_str(alloc, name)?,
        nullable: true,
        ty,
        children,
        metadata,
    })
}

/// A list of times with a zone.
fn times(alloc: Global) -> Result<Field, AllocError> {
    let timezone = Some(String::from_str(alloc, "Europe/Prague")?);
    let unit = TimeUnit::Millisecond;
    let time = field(
        alloc,
        "time",
        Ty::Timestamp { unit, timezone },
        Vec::new(alloc),
    )?;
    let mut children = Vec::new(alloc);
    children.push(time)?;
    field(alloc, "times", Ty::List, children)
}

/// A schema of a text and of a list of times.
fn schema(alloc: Global) -> Result<Schema, AllocError> {
    let mut fields = Vec::new(alloc);
    fields.push(field(alloc, "name", Ty::Utf8, Vec::new(alloc))?)?;
    fields.push(times(alloc)?)?;
    let mut metadata = Vec::new(alloc);
    metadata.push(pair(alloc, "source", "a test")?)?;
    Ok(Schema { fields, metadata })
}

/// What a text shows; where memory is refused, it is read again.
fn read(alloc: Global, text: &[u8]) -> Result<Header, MetaFault> {
    match read_message(alloc, text) {
        Err(MetaFault::OutOfMemory) => read_message(alloc, text),
        read => read,
    }
}

/// Writes the schema; where memory is refused, the bytes before stand alone, and it is written again.
fn write(schema: &Schema, out: &mut Vec<u8>) -> Result<(), Fail> {
    if schema.in_profile() {
        return match write_schema(schema, out) {
            Ok(()) => Ok(()),
            Err(_) if out.as_slice() == BEFORE.as_slice() => Ok(write_schema(schema, out)?),
            Err(_) => Err(Fail::from("other bytes")),
        };
    }
    Err(Fail::from("not in profile"))
}

#[test]
fn a_schema_comes_back(rt: HostRuntime) -> Result<(), Fail> {
    let schema = schema(rt.alloc())?;
    let mut out = Vec::from_slice(rt.alloc(), &BEFORE)?;
    write(&schema, &mut out)?;
    let text = out.get(2..).ok_or("no header")?;
    let read = read(rt.alloc(), text)?;
    assert!(rt; read == Header::Schema(schema));
    Ok(())
}

/// The header of a batch of texts.
fn head(alloc: Global) -> Result<BatchHead, AllocError> {
    Ok(BatchHead {
        length: 3,
        nodes: Vec::from_slice(alloc, &[(3, 1)])?,
        buffers: Vec::from_slice(alloc, &[(0, 1), (8, 16), (24, 5)])?,
        compressed: false,
        body_length: 32,
    })
}

/// Writes the header; where memory is refused, the bytes before stand alone, and it is written again.
fn write_head(head: &BatchHead, out: &mut Vec<u8>) -> Result<(), Fail> {
    if !head.compressed && head.nodes.len() <= MAX_FIELDS && head.buffers.len() <= MAX_BUFFERS {
        return match write_batch(head, out) {
            Ok(()) => Ok(()),
            Err(_) if out.as_slice() == BEFORE.as_slice() => Ok(write_batch(head, out)?),
            Err(_) => Err(Fail::from("other bytes")),
        };
    }
    Err(Fail::from("not to be written"))
}

#[test]
fn a_header_of_a_batch_comes_back(rt: HostRuntime) -> Result<(), Fail> {
    let head = head(rt.alloc())?;
    let mut out = Vec::from_slice(rt.alloc(), &BEFORE)?;
    write_head(&head, &mut out)?;
    let text = out.get(2..).ok_or("no header")?;
    let read = read(rt.alloc(), text)?;
    assert!(rt; read == Header::Batch(head));
    Ok(())
}
