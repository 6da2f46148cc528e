//! Laws of what a file means.

ghost use Rattle.std.specs.Prelude.{◌≡◌, ◌≢◌, ℕ, ◌+◌, ◌^◌, ◌<◌, List, [], ◌∷◌, ◌++◌, length, take};
ghost use Rattle.ballots.specs.declared.record.Record.{Record};
ghost use Rattle.ballots.specs.Record.{IsRecordText};
ghost use Rattle.disk_records.specs.RecordFile.{IsClosedAt, FileMeans, behind_gate, with_block};

use ballots::records_are_one;

/// A file means one list of records at most, and a closed gate ends it at one place.
pub fn files_mean_one()
    ensures records { (file : List ℕ) (one other : List Record) → FileMeans file one → FileMeans file other
        → one ≡ other }
    ensures closed { (file : List ℕ) (records : List Record) (gate : ℕ) → IsClosedAt file records gate
        → FileMeans file records }
{
    records_are_one();
}

/// A record behind the closed gate of a file is one record more once the gate is open, and none before. As long as the
/// gate is closed, what stands behind it changes nothing.
pub fn one_block_is_one_record_more()
    ensures open { (file text : List ℕ) (records : List Record) (told : Record) (gate : ℕ)
        → IsClosedAt file records gate → length text < 2 ^ 32 → IsRecordText text told
        → IsClosedAt (with_block file gate 1 (behind_gate text)) (records ++ told ∷ []) (gate + 5 + length text) }
    ensures shut { (file block : List ℕ) (records : List Record) (gate byte : ℕ) → IsClosedAt file records gate
        → byte ≢ 1 → IsClosedAt (with_block file gate byte block) records gate }
    ensures behind { (file other : List ℕ) (records : List Record) (gate : ℕ) → IsClosedAt file records gate
        → take (gate + 1) other ≡ take (gate + 1) file → IsClosedAt other records gate }
{}
