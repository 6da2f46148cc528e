//! The words of schemas: what is read of them is written so again, and words that tell no schema say which field is none.

use header_types::{BitWidth, DecimalWidth, Field, TimeUnit, Ty};
use schema_words::{SchemaWordsFault, field_words, schema_of_words};
use std::alloc::{AllocError, Global};
use std::test::Fail;

/// Each type that has nothing inside it and no number or text among its parameters.
const PLAIN: &str =
    "null bool utf8 binary int8 int16 int32 int64 uint8 uint16 uint32 uint64 float16 float32 float64 date32 date64 time32[s] time32[ms] time64[us] time64[ns] timestamp[s] timestamp[ms] timestamp[us] timestamp[ns] duration[s] duration[ms] duration[us] duration[ns]";

fn field(alloc: Global, name: &str, ty: Ty, children: Vec<Field>) -> Result<Field, AllocError> {
    Ok(Field {
        name: String::from_str(alloc, name)?,
        nullable: true,
        ty,
        children,
        metadata: Vec::new(alloc),
    })
}

#[test]
fn writes_what_it_reads(rt: HostRuntime) -> Result<(), Fail> {
    let alloc = rt.alloc();
    for ty in PLAIN.split(' ') {
        for mark in ["", " not null"] {
            let words = format!(in alloc; "a: {ty}{mark}")?;
            let schema = schema_of_words(alloc, &words).ok().ok_or("no schema")?;
            assert!(rt; schema.fields.len() == 1, "{words}");
            assert!(rt; field_words(alloc, &schema.fields[0])? == words, "{words}");
        }
    }
    Ok(())
}

#[test]
fn passes_white_space_over(rt: HostRuntime) -> Result<(), Fail> {
    let alloc = rt.alloc();
    for words in [
        "shop:utf8,sold:int64 not null",
        " shop : utf8 , sold : int64 not null ",
        "\tshop: utf8,\n sold: int64 \tnot null\n",
    ] {
        let schema = schema_of_words(alloc, words).ok().ok_or("no schema")?;
        assert!(rt; schema.fields.len() == 2, "{words}");
        assert!(rt;
            field_words(alloc, &schema.fields[0])?.as_str() == "shop: utf8",
            "{words}"
        );
        assert!(rt;
            field_words(alloc, &schema.fields[1])?.as_str() == "sold: int64 not null",
            "{words}"
        );
    }
    let nameless = schema_of_words(alloc, ":null").ok().ok_or("no schema")?;
    assert!(rt; field_words(alloc, &nameless.fields[0])?.as_str() == ": null");
    Ok(())
}

#[test]
fn tells_which_field_is_none(rt: HostRuntime) {
    let alloc = rt.alloc();
    for (words, number) in [
        ("", 1),
        (",", 1),
        ("a", 1),
        ("a:", 1),
        ("a: int", 1),
        ("a: Int8", 1),
        ("a: int8?", 1),
        ("a: int8 null", 1),
        ("a: int8 not  null", 1),
        ("a: int8not null", 1),
        ("a: not null", 1),
        ("a: list<int8>", 1),
        ("a: decimal128(10, 2)", 1),
        ("a: timestamp[us, UTC]", 1),
        ("a:b: int8", 1),
        ("a: int8,", 2),
        ("a: int8,, b: int8", 2),
        ("a: int8, b, c", 2),
        ("a: int8, b: utf8, c: int\u{b9}", 3),
    ] {
        let fault = schema_of_words(alloc, words).err();
        assert!(rt;
            fault == Some(SchemaWordsFault::BadField(number)),
            "{words}"
        );
    }
}

#[test]
fn writes_what_stands_inside(rt: HostRuntime) -> Result<(), Fail> {
    let alloc = rt.alloc();
    let whole = Ty::Int {
        bit_width: BitWidth::ThirtyTwo,
        is_signed: true,
    };
    let zoned = Ty::Timestamp {
        unit: TimeUnit::Microsecond,
        timezone: Some(String::from_str(alloc, "Europe/Zurich")?),
    };
    let money = Ty::Decimal {
        precision: 10,
        scale: -2,
        bit_width: DecimalWidth::TwoHundredFiftySix,
    };
    let mut inner = Vec::new(alloc);
    inner.push(field(alloc, "x", whole, Vec::new(alloc))?)?;
    inner.push(field(alloc, "at", zoned, Vec::new(alloc))?)?;
    inner.push(field(alloc, "paid", money, Vec::new(alloc))?)?;
    let pair = field(alloc, "item", Ty::Struct, inner)?;
    let mut elements = Vec::new(alloc);
    elements.push(pair)?;
    let some = field(alloc, "item", Ty::FixedSizeList { list_size: 3 }, elements)?;
    let mut lists = Vec::new(alloc);
    lists.push(some)?;
    let all = field(alloc, "all", Ty::List, lists)?;
    assert!(rt;
        field_words(alloc, &all)?.as_str()
            == "all: list<item: fixed_size_list<item: struct<x: int32, at: timestamp[us, Europe/Zurich], paid: decimal256(10, -2)>>[3]>"
    );
    let bytes = field(
        alloc,
        "id",
        Ty::FixedSizeBinary { byte_width: 16 },
        Vec::new(alloc),
    )?;
    assert!(rt; field_words(alloc, &bytes)?.as_str() == "id: fixed_size_binary[16]");
    let nothing = field(alloc, "none", Ty::Struct, Vec::new(alloc))?;
    assert!(rt; field_words(alloc, &nothing)?.as_str() == "none: struct<>");
    Ok(())
}

#[test]
fn reads_thousands_of_fields(rt: HostRuntime) -> Result<(), Fail> {
    let alloc = rt.alloc();
    let mut words = String::new(alloc);
    for place in 0..5000 {
        words.push_str(&format!(in alloc; "field{place}: int64, ")?)?;
    }
    let broken = schema_of_words(alloc, &words).err();
    assert!(rt; broken == Some(SchemaWordsFault::BadField(5001)));
    words.push_str("last: utf8 not null")?;
    let schema = schema_of_words(alloc, &words).ok().ok_or("no schema")?;
    assert!(rt; schema.fields.len() == 5001);
    assert!(rt; field_words(alloc, &schema.fields[4999])?.as_str() == "field4999: int64");
    assert!(rt; field_words(alloc, &schema.fields[5000])?.as_str() == "last: utf8 not null");
    Ok(())
}
