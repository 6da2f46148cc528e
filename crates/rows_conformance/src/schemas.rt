//! Schemas for the tests.

use header_types::{BitWidth, Field, Schema, Ty};
use std::alloc::{AllocError, Global};

/// A whole number of so many bits with a sign.
pub fn int(bit_width: BitWidth) -> Ty {
    Ty::Int {
        bit_width,
        is_signed: true,
    }
}

/// A field of this name and type, which may be missing, with these inside it.
pub fn around(
    alloc: Global,
    name: &str,
    ty: Ty,
    children: Vec<Field>,
) -> Result<Field, AllocError> {
    Ok(Field {
        name: String::from_str(alloc, name)?,
        nullable: true,
        ty,
        children,
        metadata: Vec::new(alloc),
    })
}

/// A field without any inside it.
pub fn plain(alloc: Global, name: &str, ty: Ty) -> Result<Field, AllocError> {
    around(alloc, name, ty, Vec::new(alloc))
}

/// A field of this type with one inside it.
pub fn with_one(alloc: Global, name: &str, ty: Ty, inside: Field) -> Result<Field, AllocError> {
    let mut children = Vec::new(alloc);
    children.push(inside)?;
    around(alloc, name, ty, children)
}

/// A table of this field alone.
pub fn alone(alloc: Global, field: Field) -> Result<Schema, AllocError> {
    let mut fields = Vec::new(alloc);
    fields.push(field)?;
    Ok(Schema {
        fields,
        metadata: Vec::new(alloc),
    })
}

/// A table of two fields.
pub fn both(alloc: Global, first: Field, second: Field) -> Result<Schema, AllocError> {
    let mut fields = Vec::new(alloc);
    fields.push(first)?;
    fields.push(second)?;
    Ok(Schema {
        fields,
        metadata: Vec::new(alloc),
    })
}
