//! What is told of an upload, and what answers a ticket.

ghost use Rattle.std.specs.Prelude.{◌≡◌, ◌≤◌, ◌++◌, ◌∷◌, ℕ, List, Some, length, take, IfOk, OnOk, OnErr, IsSome};
ghost use Rattle.std.specs.List.{flat_map};
ghost use Rattle.table_types.specs.Uploads.{Upload, upload_text};
ghost use Rattle.table_types.specs.Valid.{IsUpload};
ghost use Rattle.std.specs.Option.{option_map};
ghost use Rattle.table_types.specs.Answers.{answer_of};
ghost use Rattle.table_types.specs.Tables.{version_of, outcome_of};
ghost use Rattle.table_versions.specs.Outcomes.{told};
ghost use Rattle.table_versions.specs.Ledger.{FirstEntries, FrameEntries, TableEntries, IsLedger, HasFrames, frames_of};
ghost use Rattle.table_versions.specs.Ledger.{frames_in};
ghost use Rattle.table_versions.specs.State.{agreed_values_limit};

use crate::answer::Answer;
use crate::frame_key::FrameKey;
use crate::outcome::Outcome;
use crate::steps::{Firsts, Frames, NamedTables};
use crate::upload_frames::UploadFrames;
use ballots::OutOfMemory;
use bytes::Bytes;
use std::alloc::Global;
use table_types::laws::uploads_have_one_encoding;

/// What is told of the upload with this id and this encoding.
pub(crate) fn told_of(firsts: &Firsts, id: [u8; 16], text: &[u8]) -> Outcome
    ensures { (tables : TableEntries) (frames : FrameEntries) (uploads : List Upload) (upload : Upload)
        → IsLedger firsts.now.entries tables frames uploads → IsUpload upload → upload.id ≡ id
        → upload_text upload ≡ text.now → told result ≡ outcome_of uploads upload }
{
    uploads_have_one_encoding();
    match firsts.get(&id) {
        Some(first) => {
            if first.text.as_slice() == text {
                first.outcome
            } else {
                Outcome::Conflict
            }
        }
        None => Outcome::Unknown,
    }
}

/// The frames of a version's last upload, where the version stands.
fn frames_at(frames: &Frames, table: usize, version: u64) -> &UploadFrames
    requires { (served : List (List ℕ)) × (frames_in frames.now.entries table version ≡ Some served) }
    ensures { frames_in frames.now.entries table version ≡ Some result.now }
{
    match frames.get(&FrameKey { table, version }) {
        Some(served) => served,
        None => unreachable!(),
    }
}

/// Puts these frames behind others, and copies no byte of them.
fn share_frames(shared: &mut Vec<Bytes>, frames: &[Bytes]) -> Result<(), OutOfMemory>
    ensures { OnOk result (shared.new.items ≡ shared.old.items ++ frames.now) }
{
    for frame in frames {
        shared.push(frame.clone()?)?;
    }
    Ok(())
}

/// This frame, and behind it those of the first so many uploads of a table.
pub(crate) fn with_frames(
    alloc: Global,
    first: &Bytes,
    frames: &Frames,
    table: usize,
    version: u64,
) -> Result<Vec<Bytes>, OutOfMemory>
    requires { (uploads : List Upload) × HasFrames frames.now.entries table 1 uploads × (version ≤ length uploads) }
    ensures { (uploads : List Upload) → HasFrames frames.now.entries table 1 uploads → version ≤ length uploads
        → IfOk result (λ shared. shared.items ≡ first.now ∷ flat_map frames_of (take version uploads)) }
{
    let mut shared = Vec::new(alloc);
    shared.push(first.clone()?)?;
    for before in 0..version {
        share_frames(&mut shared, frames_at(frames, table, before + 1).as_slice())?;
    }
    Ok(shared)
}

/// The frames of a version of a table, `None` where there is no such version.
pub(crate) fn answer_by(
    alloc: Global,
    tables: &NamedTables,
    frames: &Frames,
    name: &str,
    version: u64,
) -> Result<Option<Answer>, OutOfMemory>
    requires version { 1 ≤ version }
    requires ledger { (firsts : FirstEntries) × (uploads : List Upload)
        × IsLedger firsts tables.now.entries frames.now.entries uploads × (length uploads ≤ agreed_values_limit) }
    ensures answer { (firsts : FirstEntries) (uploads : List Upload)
        → IsLedger firsts tables.now.entries frames.now.entries uploads
        → IfOk result (λ answer. answer ≡ option_map answer_of (version_of name.now version uploads)) }
    ensures memory { OnErr result ((firsts : FirstEntries) (uploads : List Upload)
        → IsLedger firsts tables.now.entries frames.now.entries uploads
        → IsSome (version_of name.now version uploads)) }
{
    match tables.get(name) {
        Some(table) => {
            if version > table.version {
                return Ok(None);
            }
            let shared = with_frames(alloc, &table.schema_frame, frames, table.number, version)?;
            Ok(Some(Answer::of(shared)))
        }
        None => Ok(None),
    }
}
