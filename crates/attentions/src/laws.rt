//! What the queue of conditions says, in other words.
ghost use Rattle.std.specs.Prelude.{◌≡◌, ◌≢◌, ◌⊎◌, ◌≤◌, List, length, take, Contains, AllPairs, IsTrue};
ghost use Rattle.attentions.specs.Queue.{without_repeats, established};
ghost use Rattle.scsi_types.specs.declared.attention.UnitAttention.{UnitAttention};

/// No condition waits twice, also once one more was established (SAM-5, 5.14).
pub fn a_condition_waits_once()
    ensures apart { (codes : List UnitAttention) → IsTrue (without_repeats codes)
        → AllPairs (λ one later. one ≢ later) codes }
    ensures kept { (codes : List UnitAttention) (code : UnitAttention) → IsTrue (without_repeats codes)
        → IsTrue (without_repeats (established codes code)) }
{}

/// There are five conditions, so that no more wait.
pub fn at_most_five_wait()
    ensures { (codes : List UnitAttention) → IsTrue (without_repeats codes) → length codes ≤ 5 }
{}

/// A condition that is established waits, and so do those before it, in their order and before it; no other does.
pub fn the_others_keep_their_order()
    ensures waits { (codes : List UnitAttention) (code : UnitAttention) → Contains (established codes code) code }
    ensures order { (codes : List UnitAttention) (code : UnitAttention)
        → take (length codes) (established codes code) ≡ codes }
    ensures no_other { (codes : List UnitAttention) (code other : UnitAttention)
        → Contains (established codes code) other → Contains codes other ⊎ (other ≡ code) }
{}
