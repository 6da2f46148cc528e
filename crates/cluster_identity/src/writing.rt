//! The text that is written of an identity.

ghost use Rattle.std.specs.Prelude.{◌≡◌, IfOk, string_bytes};
ghost use Rattle.std.specs.List.{AllByRecursion};
ghost use Rattle.hex.specs.Hex.{encode_lower};
ghost use Rattle.cluster_identity.specs.Identities.{AreBytes, MeansIdentity};
ghost use Rattle.cluster_identity.specs.IdentityTexts.{IsMark, identity_text, mark_text, marks_text};

use crate::file_mark::FileMark;
use crate::identity::Identity;
use std::alloc::{AllocError, Global};

/// The lower-case hexadecimal digits of these bytes.
fn digits_of<const N: usize>(alloc: Global, bytes: [u8; N]) -> Result<String, AllocError>
    ensures digits { IfOk result (λ text. string_bytes text ≡ encode_lower bytes.entry) }
    ensures are_bytes { AreBytes N bytes.entry }
{
    hex::encode(alloc, bytes)
}

fn mark_text(alloc: Global, mark: FileMark) -> Result<String, AllocError>
    ensures text { IfOk result (λ text. string_bytes text ≡ mark_text mark) }
    ensures is_mark { IsMark mark }
{
    let length = mark.length;
    let digits = digits_of(alloc, mark.digest)?;
    format!(in alloc; "{{\"length\":{length},\"sha256\":\"{digits}\"}}")
}

/// The marks with commas between them.
fn marks_text(alloc: Global, marks: &[FileMark]) -> Result<String, AllocError>
    ensures text { IfOk result (λ text. string_bytes text ≡ marks_text marks.now) }
    ensures are_marks { IfOk result (λ _. AllByRecursion IsMark marks.now) }
{
    let mut text = String::new(alloc);
    for place in 0..marks.len() {
        if place > 0 {
            text.push_str(",")?;
        }
        text.push_str(&mark_text(alloc, marks[place])?)?;
    }
    Ok(text)
}

/// The text of an identity, which means it: a line of JSON (RFC 8259), with the line feed behind it. [`AllocError`]
/// says that memory was refused.
pub fn identity_text(alloc: Global, identity: &Identity) -> Result<String, AllocError>
    ensures text { IfOk result
        (λ text. string_bytes text ≡ identity_text identity.now.members identity.now.id identity.now.files.items) }
    ensures means { IfOk result
        (λ text. MeansIdentity (string_bytes text) identity.now.members identity.now.id identity.now.files.items) }
{
    let members = identity.members;
    let id = digits_of(alloc, identity.id)?;
    let files = marks_text(alloc, &identity.files)?;
    format!(in alloc; "{{\"members\":{members},\"id\":\"{id}\",\"files\":[{files}]}}\n")
}
