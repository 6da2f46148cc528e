//! The text of an identity, written and read, and marks of files.

use cluster_identity::{
    FileMark, Identity, IdentityFault, digested_parts, identity_text, mark_of, read_identity,
};
use std::alloc::Global;
use std::test::*;

const ID: &str = "000102030405060708090a0b0c0d0e0f";

// The marks of three files: an empty one, one of the bytes `abc`, and one of 4,096 bytes of 7 and then 904 of 9. The
// digests are those that Python's hashlib gives.
const MARKS: [&str; 3] = [
    "{\"length\":0,\"sha256\":\"e3b0c44298fc1c149afbf4c8996fb92427ae41e4649b934ca495991b7852b855\"}",
    "{\"length\":3,\"sha256\":\"bbb59da3af939f7af5f360f2ceb80a496e3bae1cd87dde426db0ae40677e1c2c\"}",
    "{\"length\":5000,\"sha256\":\"b5be29fbe2581275487c99855887aa856e538f46b5fa3dd323f850ccdd60db75\"}",
];

// The first of these marks with other members, of which the last `length` counts.
const NAMED: &str = "{\"name\":null,\"length\":1,\"length\":0,\
    \"sha256\":\"e3b0c44298fc1c149afbf4c8996fb92427ae41e4649b934ca495991b7852b855\"}";

// What tells no mark: a capital digit, a length below 0, one that is not whole, a digest of 31 bytes, and none.
const REFUSED: [&str; 5] = [
    "{\"length\":0,\"sha256\":\"E3b0c44298fc1c149afbf4c8996fb92427ae41e4649b934ca495991b7852b855\"}",
    "{\"length\":-1,\"sha256\":\"e3b0c44298fc1c149afbf4c8996fb92427ae41e4649b934ca495991b7852b855\"}",
    "{\"length\":0.5,\"sha256\":\"e3b0c44298fc1c149afbf4c8996fb92427ae41e4649b934ca495991b7852b855\"}",
    "{\"length\":0,\"sha256\":\"e3b0c44298fc1c149afbf4c8996fb92427ae41e4649b934ca495991b7852b8\"}",
    "{\"length\":0}",
];

// The text with these members, where the marks stand in a row.
fn text_with(alloc: Global, members: &str, id: &str, marks: &[&str]) -> Result<String, Fail> {
    let mut text = format!(in alloc; "{{\"members\":{members},\"id\":\"{id}\",\"files\":[")?;
    for place in 0..marks.len() {
        if place > 0 {
            text.push_str(",")?;
        }
        text.push_str(marks[place])?;
    }
    text.push_str("]}\n")?;
    Ok(text)
}

// The mark of a whole file.
fn mark_of_file(file: &[u8]) -> FileMark {
    let size = file.len() as u64;
    let parts = digested_parts(size);
    let first = &file[..parts.count as usize];
    let last = &file[parts.last_from as usize..];
    mark_of(size, first, last)
}

fn three_marks(alloc: Global) -> Result<Vec<FileMark>, Fail> {
    let mut long = vec![in alloc; 7; 4096]?;
    for _ in 0..904 {
        long.push(9)?;
    }
    let mut marks = Vec::new(alloc);
    marks.push(mark_of_file(b""))?;
    marks.push(mark_of_file(b"abc"))?;
    marks.push(mark_of_file(&long))?;
    Ok(marks)
}

// Whether the text is read as the identity of the three marks.
fn is_read(alloc: Global, text: &str) -> Result<bool, Fail> {
    let Ok(identity) = read_identity(alloc, text.as_bytes()) else {
        return Ok(false);
    };
    let named = identity.id == [0, 1, 2, 3, 4, 5, 6, 7, 8, 9, 10, 11, 12, 13, 14, 15];
    let marks = three_marks(alloc)?;
    Ok(named && identity.members == 3 && identity.files == marks)
}

#[test]
fn writes_and_reads_an_identity(rt: HostRuntime) -> Result<(), Fail> {
    let alloc = rt.alloc();
    let id = [0, 1, 2, 3, 4, 5, 6, 7, 8, 9, 10, 11, 12, 13, 14, 15];
    let identity = Identity::new(id, three_marks(alloc)?).ok_or("no identity")?;
    let text = identity_text(alloc, &identity)?;
    let wanted = text_with(alloc, "3", ID, &MARKS)?;
    assert!(rt; text.as_str() == wanted.as_str(), "{text}");
    assert!(rt; is_read(alloc, &text)?);
    Ok(())
}

// Whether the text with these members means no identity.
fn is_refused(alloc: Global, members: &str, id: &str, marks: &[&str]) -> Result<bool, Fail> {
    let text = text_with(alloc, members, id, marks)?;
    let read = read_identity(alloc, text.as_bytes());
    Ok(matches!(read, Err(IdentityFault::NotIdentity)))
}

#[test]
fn passes_over_other_members(rt: HostRuntime) -> Result<(), Fail> {
    let alloc = rt.alloc();
    let [empty, short, long] = MARKS;
    for (members, first) in [
        (" 3 ,\"version\":[1]", empty),
        ("5,\"members\":3", empty),
        ("3", NAMED),
    ] {
        let text = text_with(alloc, members, ID, &[first, short, long])?;
        assert!(rt; is_read(alloc, &text)?, "{members} {first}");
    }
    Ok(())
}

#[test]
fn refuses_other_counts(rt: HostRuntime) -> Result<(), Fail> {
    let alloc = rt.alloc();
    let [empty, short, long] = MARKS;
    for (members, marks) in [
        ("4", &[empty, short, long, long][..]),
        ("5", &[empty, short, long][..]),
        ("3", &[empty, short][..]),
        ("3", &[empty, short, long, long][..]),
        ("\"3\"", &[empty, short, long][..]),
        ("3}", &[empty, short, long][..]),
    ] {
        assert!(rt; is_refused(alloc, members, ID, marks)?, "{members}");
    }
    Ok(())
}

#[test]
fn refuses_other_marks(rt: HostRuntime) -> Result<(), Fail> {
    let alloc = rt.alloc();
    let [empty, short, long] = MARKS;
    for first in REFUSED {
        assert!(rt;
            is_refused(alloc, "3", ID, &[first, short, long])?,
            "{first}"
        );
    }
    for id in [
        "000102030405060708090A0B0C0D0E0F",
        "000102030405060708090a0b0c0d0e",
    ] {
        assert!(rt; is_refused(alloc, "3", id, &[empty, short, long])?, "{id}");
    }
    Ok(())
}

#[test]
fn tells_a_file_that_was_cut(rt: HostRuntime) {
    let mark = mark_of_file(b"abc");
    assert!(rt; mark.is_reached_by(3));
    assert!(rt; mark.is_reached_by(4));
    assert!(rt; !mark.is_reached_by(2));
    assert!(rt; mark != mark_of_file(b"abd"));
}
