//! Laws of the uploads that values hold, and of the tables that there are.

ghost use Rattle.std.specs.Prelude.{◌≡◌, ◌≢◌, ◌↔◌, ◌≤◌, ◌++◌, ℕ, List, [], Option, length, true};
ghost use Rattle.std.specs.List.{AllByRecursion, list_any};
ghost use Rattle.std.specs.Str.{bytes_eq};
ghost use Rattle.ballots.specs.declared.value.Value.{Value};
ghost use Rattle.table_types.specs.Uploads.{Upload};
ghost use Rattle.table_types.specs.Valid.{IsUpload};
ghost use Rattle.table_types.specs.Tables.{effective, table_names};
ghost use Rattle.table_versions.specs.Values.{AreUploadsIn};
ghost use Rattle.table_versions.specs.State.{TablesState, HasTaken, IsSame, agreed_values_limit};
ghost use Rattle.table_versions.specs.declared.tables.TheConstants.{MAX_VALUES};
ghost use Rattle.table_versions.specs.Info.{IsLatest, SaySame};
ghost use Rattle.table_versions.specs.declared.info.TableInfo.{TableInfo};

use table_types::laws::texts_hold_one_list_of_uploads;

/// A list of values holds one list of uploads, at most one a value and each of them such as is taken; and two lists end
/// to end hold the uploads of both.
pub fn values_hold_one_list_of_uploads()
    ensures one { (values : List Value) (xs ys : List Upload) → AreUploadsIn values xs → AreUploadsIn values ys
        → xs ≡ ys }
    ensures valid { (values : List Value) (xs : List Upload) → AreUploadsIn values xs → AllByRecursion IsUpload xs }
    ensures few { (values : List Value) (xs : List Upload) → AreUploadsIn values xs → length xs ≤ length values }
    ensures both { (first second : List Value) (xs ys : List Upload) → AreUploadsIn first xs → AreUploadsIn second ys
        → AreUploadsIn (first ++ second) (xs ++ ys) }
{
    texts_hold_one_list_of_uploads();
}

/// The tables that there are, are those that have an effective upload.
pub fn tables_have_effective_uploads()
    ensures { (name : List ℕ) (uploads : List Upload)
        → (list_any (bytes_eq name) (table_names uploads) ≡ true) ↔ (effective name uploads ≢ []) }
{}

/// What is told of the latest version of a table is determined by its effective uploads.
pub fn latest_versions_are_one()
    ensures { (x y : Option TableInfo) (name : List ℕ) (counted : List Upload) → IsLatest x name counted
        → IsLatest y name counted → SaySame x y }
{}

/// Tables that are the same hold what the same values make, whatever room they have.
pub fn same_tables_hold_the_same()
    ensures { (x y : TablesState) (values : List Value) → IsSame x y → HasTaken x values → HasTaken y values }
{}

/// The limit of the code is that of the definitions.
pub fn limit_is_that_of_tables()
    ensures { MAX_VALUES ≡ agreed_values_limit }
{}
