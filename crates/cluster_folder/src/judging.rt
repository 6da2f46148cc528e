//! What the lengths of the files in a folder say.

ghost use Rattle.std.specs.Prelude.{◌≡◌, ◌↔◌, ◌≤◌, IsTrue, length, option_map};
ghost use Rattle.std.specs.List.{Any};
ghost use Rattle.cluster_folder.specs.Judging.{FileGives, FilesGive, HasRecords, IsBeyond, IsOfOthers, JudgeGives, marked_of};

use crate::fault::FolderFault;
use cluster_identity::FileMark;

/// The most nodes that a cluster has which is served: as many files are looked for.
pub const MOST_NODES: u8 = 5;

/// What stands in a folder.
#[derive(Clone, Copy, Debug, PartialEq, Eq)]
pub enum FolderState {
    /// No record of an earlier server: a server starts anew.
    New,
    /// The records of an earlier server, each node's in its file.
    Old,
}

/// What stands in a folder whose file `node-k.rec` has so many bytes as place k says, where it is there, for a server of so
/// many nodes. `marks` are those that the last server put down, if there are any, a mark for each of its nodes.
///
/// It is [`FolderState::New`] exactly where there are no marks, and no file has records, which takes more than a byte. Else it is
/// [`FolderFault::Members`] exactly where the marks are of another number of nodes, or there are none, and a file is there of a
/// node that the cluster has not. Else a node's file may be missing, or have no byte behind those that its mark has, which a server never leaves it: it is [`FolderFault::Missing`] or
/// [`FolderFault::Truncated`] of the first node of which this is so.
pub fn judge(
    count: u8,
    sizes: &[Option<u64>],
    marks: Option<&[FileMark]>,
) -> Result<FolderState, FolderFault>
    requires { count ≤ length sizes.now }
    ensures { JudgeGives count sizes.now (option_map (λ all. all.now) marks.entry) result }
{
    if marks.is_none() && !have_records(sizes) {
        return Ok(FolderState::New);
    }
    if are_of_others(count, sizes, marks) {
        return Err(FolderFault::Members);
    }
    match judge_files(count, sizes, marks) {
        Ok(()) => Ok(FolderState::Old),
        Err(fault) => Err(fault),
    }
}

// Whether a file has records: one of at most a byte is new.
fn have_records(sizes: &[Option<u64>]) -> bool
    ensures { IsTrue result ↔ Any HasRecords sizes.now }
{
    sizes.iter().any(|size| has_records(*size))
}

fn has_records(size: Option<u64>) -> bool
    ensures { IsTrue result ↔ HasRecords size }
{
    match size {
        Some(size) => size > 1,
        None => false,
    }
}

// Whether the files are those of a cluster of another number of nodes.
fn are_of_others(count: u8, sizes: &[Option<u64>], marks: Option<&[FileMark]>) -> bool
    requires { count ≤ length sizes.now }
    ensures { IsTrue result ↔ IsOfOthers count sizes.now (option_map (λ all. all.now) marks.entry) }
{
    match marks {
        Some(marks) => marks.len() != usize::from(count),
        None => stand_beyond(count, sizes),
    }
}

// Whether the file of a node is there that a cluster of so many has not.
fn stand_beyond(count: u8, sizes: &[Option<u64>]) -> bool
    requires { count ≤ length sizes.now }
    ensures { IsTrue result ↔ IsBeyond count sizes.now }
{
    sizes[usize::from(count)..]
        .iter()
        .any(|size| size.is_some())
}

// Whether each node's file is whole, and if not, the fault of the first that is not.
fn judge_files(
    count: u8,
    sizes: &[Option<u64>],
    marks: Option<&[FileMark]>,
) -> Result<(), FolderFault>
    requires { count ≤ length sizes.now }
    ensures { FilesGive count sizes.now (option_map (λ all. all.now) marks.entry) result }
{
    for number in 0..count {
        let place = usize::from(number);
        match judge_file(number, sizes[place], marked_bytes(place, marks)) {
            Ok(()) => {}
            Err(fault) => return Err(fault),
        }
    }
    Ok(())
}

// How many bytes a server marked of the file at this place, behind which it left at least one.
fn marked_bytes(place: usize, marks: Option<&[FileMark]>) -> u64
    ensures { result ≡ marked_of (option_map (λ all. all.now) marks.entry) place }
{
    let Some(marks) = marks else {
        return 0;
    };
    match marks.get(place) {
        Some(mark) => mark.length,
        None => 0,
    }
}

// What a node's file of this length is, of which a server marked so many bytes.
fn judge_file(number: u8, size: Option<u64>, marked: u64) -> Result<(), FolderFault>
    ensures { FileGives number size marked result }
{
    match size {
        None => Err(FolderFault::Missing(number)),
        Some(size) if size <= marked => Err(FolderFault::Truncated(number)),
        Some(_) => Ok(()),
    }
}
