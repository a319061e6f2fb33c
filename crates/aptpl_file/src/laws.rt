//! What follows of `Holds` and `LastsAmong`.
ghost use Rattle.std.specs.Prelude.{◌≡◌, List, ℕ};
ghost use Rattle.registrants.specs.Registry.{RecordValue};
ghost use Rattle.aptpl_file.specs.Holds.{Holds};
ghost use Rattle.aptpl_file.specs.Lasts.{EachOutcomeHolds, FileValue, LastsAmong};

use block_file::Blocks;

/// The same blocks hold no two records.
pub fn one_record_is_held()
    ensures { (disk : List (List ℕ)) (r s : RecordValue) → Holds disk r → Holds disk s → r ≡ s }
{}

/// `LastsAmong` names the records that a crash of a file's device may leave: each disk that it leaves holds one of them.
pub fn each_outcome_holds_one_of_them<B: Blocks>()
    ensures { (file : FileValue B) (records : List RecordValue) → LastsAmong B.size B.may_hold file records
        → EachOutcomeHolds (B.size file.device) (B.may_hold file.device) records }
{}
