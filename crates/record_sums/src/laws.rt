//! Laws of what a file of sums says.

ghost use Rattle.std.specs.Prelude.{◌≡◌, ◌≤◌, ◌*◌, ℕ, List, [], ◌∷◌, ◌++◌, Some, length, slice_get};
ghost use Rattle.ballots.specs.declared.record.Record.{Record};
ghost use Rattle.disk_records.specs.Disk.{written_at};
ghost use Rattle.record_sums.specs.Sums.{Fits, HasAll, IsEntered, entry_of, sum_of};

/// Where the sums of some records stand in a file, it fits others only where these have a record with that sum in the place of
/// each: a record that is gone, or has changed, is found.
pub fn what_was_entered_is_found()
    ensures { (file : List ℕ) (kept found : List Record) (number : ℕ) (told : Record) → HasAll file kept → Fits file found
        → slice_get kept number ≡ Some told
        → (other : Record) × (slice_get found number ≡ Some other) × (sum_of other ≡ sum_of told) }
{}

/// A file that has the sums of some records and no other has those of one record more once its entry is written behind
/// them.
pub fn one_entry_is_one_record_more()
    ensures { (file : List ℕ) (records : List Record) (told : Record) → 24 * length records ≤ length file
        → IsEntered file records
        → IsEntered (written_at file (24 * length records) (entry_of (length records) told)) (records ++ told ∷ []) }
{}
