//! Laws of the definitions that a folder is judged by.

ghost use Rattle.std.specs.Prelude.{◌≡◌, ℕ, List, Option, Result};
ghost use Rattle.cluster_identity.specs.declared.file_mark.FileMark.{FileMark};
ghost use Rattle.cluster_folder.specs.Judging.{JudgeGives};
ghost use Rattle.cluster_folder.specs.declared.fault.FolderFault.{FolderFault};
ghost use Rattle.cluster_folder.specs.declared.judging.FolderState.{FolderState};

/// What stands in a folder is told in one way: the lengths of its files and their marks leave no choice, neither of what stands
/// there, nor of which fault is told, nor of which node.
pub fn a_folder_is_judged_in_one_way()
    ensures { (count : ℕ) (sizes : List (Option ℕ)) (marks : Option (List FileMark))
        (one other : Result FolderState FolderFault)
        → JudgeGives count sizes marks one → JudgeGives count sizes marks other → one ≡ other }
{}
