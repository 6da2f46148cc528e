//! Schemas (Apache Arrow, "Schema.fbs", the tables `Schema` and `Field`).

use crate::field_type::Ty;

/// A field, or one inside another field.
#[derive(Clone, Debug, PartialEq, Eq, Drop)]
pub struct Field {
    /// Its name, which may be empty.
    pub name: String,
    /// Whether it may hold nulls.
    pub nullable: bool,
    /// Its type (`type` in Schema.fbs, a word of the language here).
    pub ty: Ty,
    /// The fields inside it: one for lists, any number for a struct, none for other types.
    pub children: Vec<Field>,
    /// What its producer says of it, as keys and values (`custom_metadata` in Schema.fbs).
    pub metadata: Vec<(String, String)>,
}

/// The fields of a table.
#[derive(Clone, Debug, PartialEq, Eq, Drop)]
pub struct Schema {
    /// The top fields, in order.
    pub fields: Vec<Field>,
    /// What its producer says of it, as keys and values (`custom_metadata` in Schema.fbs).
    pub metadata: Vec<(String, String)>,
}
