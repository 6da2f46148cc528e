//! The words of fields.

ghost use Rattle.std.specs.Prelude.{◌≡◌, map, string_bytes, IfOk};
ghost use Rattle.header_types.specs.FieldView.{field_head_of};
ghost use Rattle.header_types.specs.Views.{data_type_of, forest_of, tree_of};
ghost use Rattle.schema_words.specs.Spelling.{comma_before, composed_words, decimal_name, forest_words, head_words, tree_words, type_words, unit_name};

use crate::plain::plain_words;
use header_types::{DecimalWidth, Field, TimeUnit, Ty};
use std::alloc::{AllocError, Global};

fn unit_name(unit: TimeUnit) -> &'static str
    ensures { result.now ≡ unit_name unit }
{
    match unit {
        TimeUnit::Second => "s",
        TimeUnit::Millisecond => "ms",
        TimeUnit::Microsecond => "us",
        TimeUnit::Nanosecond => "ns",
    }
}

// What the words of a decimal number begin with.
fn decimal_name(bit_width: DecimalWidth) -> &'static str
    ensures { result.now ≡ decimal_name bit_width }
{
    match bit_width {
        DecimalWidth::OneHundredTwentyEight => "decimal128(",
        DecimalWidth::TwoHundredFiftySix => "decimal256(",
    }
}

// The words of a type that has fields inside it, or a number or a text among its parameters; of any other type none.
fn composed_words(alloc: Global, ty: &Ty, inside: &str) -> Result<String, AllocError>
    ensures { IfOk result (λ words. string_bytes words ≡ composed_words (data_type_of ty.now) inside.now) }
{
    match ty {
        Ty::Decimal {
            precision,
            scale,
            bit_width,
        } => {
            let name = decimal_name(*bit_width);
            format!(in alloc; "{name}{precision}, {scale})")
        }
        Ty::Timestamp {
            unit,
            timezone: Some(zone),
        } => {
            let unit = unit_name(*unit);
            format!(in alloc; "timestamp[{unit}, {zone}]")
        }
        Ty::FixedSizeBinary { byte_width } => format!(in alloc; "fixed_size_binary[{byte_width}]"),
        Ty::List => format!(in alloc; "list<{inside}>"),
        Ty::Struct => format!(in alloc; "struct<{inside}>"),
        Ty::FixedSizeList { list_size } => format!(in alloc;
            "fixed_size_list<{inside}>[{list_size}]"
        ),
        _ => Ok(String::new(alloc)),
    }
}

// The words of a type, with those of the fields inside it.
fn type_words(alloc: Global, ty: &Ty, inside: &str) -> Result<String, AllocError>
    ensures { IfOk result (λ words. string_bytes words ≡ type_words (data_type_of ty.now) inside.now) }
{
    match plain_words(ty) {
        Some(words) => String::from_str(alloc, words),
        None => composed_words(alloc, ty, inside),
    }
}

// The words of a field, with those of the fields inside it.
fn head_words(alloc: Global, field: &Field, inside: &str) -> Result<String, AllocError>
    ensures { IfOk result (λ words. string_bytes words ≡ head_words (field_head_of field.now) inside.now) }
{
    let name = field.name.as_str();
    let ty = type_words(alloc, &field.ty, inside)?;
    let mark = if field.nullable { "" } else { " not null" };
    format!(in alloc; "{name}: {ty}{mark}")
}

// What stands before the words of the field in this place.
fn comma_before(index: usize) -> &'static str
    ensures { result.now ≡ comma_before index }
{
    if index == 0 { "" } else { ", " }
}

// The words of fields side by side, with a comma between each two of them.
fn fields_words(alloc: Global, fields: &[Field]) -> Result<String, AllocError>
    ensures { IfOk result (λ words. string_bytes words ≡ forest_words (forest_of (map tree_of fields.now))) }
{
    let mut words = String::new(alloc);
    for index in 0..fields.len() {
        words.push_str(comma_before(index))?;
        let field = &fields[index];
        let inside = fields_words(alloc, &field.children)?;
        let own = head_words(alloc, field, &inside)?;
        words.push_str(&own)?;
    }
    Ok(words)
}

/// The words of a field of any type: its name, a colon and the words of its type, with those of the fields inside it between `<`
/// and `>`, and `not null` behind them where it may hold no null. The name stands as it is; no metadata is told.
/// [`AllocError`] says that memory was refused.
pub fn field_words(alloc: Global, field: &Field) -> Result<String, AllocError>
    ensures { IfOk result (λ words. string_bytes words ≡ tree_words (tree_of field.now)) }
{
    let inside = fields_words(alloc, &field.children)?;
    head_words(alloc, field, &inside)
}
