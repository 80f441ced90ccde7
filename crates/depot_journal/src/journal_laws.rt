//! Laws of the file of a journal.
ghost use Rattle.std.specs.Prelude.{◌≡◌, List, ℕ, Bool};
ghost use Rattle.depot_base.specs.File.{AreWithinLimits, IsDamagedAt, IsFileOf, StandsFor};
ghost use Rattle.depot_journal.specs.Stable.{BeginsWithAll, HasAllOf};

/// A file has one list of records at most.
pub fn files_have_one_list()
    ensures { (file : List ℕ) (some other : List (List ℕ)) → IsFileOf file some → IsFileOf file other → some ≡ other }
{}

/// A file that has records isn't damaged. So a start never refuses a good file as damaged, and never accepts a damaged
/// one.
pub fn good_files_are_undamaged()
    ensures { (file : List ℕ) (records : List (List ℕ)) (at : ℕ) → IsFileOf file records → IsDamagedAt file at → ⊥ }
{}

/// A file is damaged at one place at most.
pub fn damage_has_one_place()
    ensures { (file : List ℕ) (at place : ℕ) → IsDamagedAt file at → IsDamagedAt file place → at ≡ place }
{}

/// A file with these records, within the limits, isn't damaged, and is read as these records.
pub fn standing_records_are_read()
    ensures undamaged { (file : List ℕ) (records : List (List ℕ)) (at : ℕ) → StandsFor file records → AreWithinLimits records → IsDamagedAt file at → ⊥ }
    ensures read { (file : List ℕ) (records read : List (List ℕ)) → StandsFor file records → AreWithinLimits records → IsFileOf file read → read ≡ records }
{}

/// A crash image of a journal isn't damaged. It is read as all of the journal's records, followed at most by the one on
/// which the disk failed. So a later start returns these.
pub fn what_a_stop_leaves_is_read()
    ensures undamaged { (records : List (List ℕ)) (stopped : Bool) (file : List ℕ) (at : ℕ) → HasAllOf records stopped file → IsDamagedAt file at → ⊥ }
    ensures read { (records read : List (List ℕ)) (stopped : Bool) (file : List ℕ) → HasAllOf records stopped file → IsFileOf file read → BeginsWithAll records stopped read }
{}
