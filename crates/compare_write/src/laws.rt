//! What the definitions of a compare say, in other words.
ghost use Rattle.std.specs.Prelude.{◌≡◌, ◌≢◌, ◌<◌, ◌↔◌, ℕ, List, length, slice_index, Some, None};
ghost use Rattle.compare_write.specs.declared.compare.TheConstants.{MOST_COMPARED};
ghost use Rattle.compare_write.specs.Difference.{first_difference};

/// A comparison is of 32 blocks at most.
pub fn a_comparison_is_of_32_blocks()
    ensures { MOST_COMPARED ≡ 32 }
{}

/// The first difference is the least: the bytes differ there, and agree at each place before it. There is none
/// just where runs of one length are equal.
pub fn the_first_difference_is_the_least()
    ensures differs { (xs ys : List ℕ) (at : ℕ) → first_difference xs ys ≡ Some at
        → slice_index xs at ≢ slice_index ys at }
    ensures before { (xs ys : List ℕ) (at : ℕ) → first_difference xs ys ≡ Some at → (k : ℕ) → k < at
        → slice_index xs k ≡ slice_index ys k }
    ensures within { (xs ys : List ℕ) (at : ℕ) → first_difference xs ys ≡ Some at
        → (at < length xs) × (at < length ys) }
    ensures none { (xs ys : List ℕ) → length xs ≡ length ys → (first_difference xs ys ≡ None) ↔ (xs ≡ ys) }
{}
