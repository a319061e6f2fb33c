//! The conditions that wait to be told.
ghost use Rattle.std.specs.Prelude.{◌≡◌, ◌↔◌, ◌≤◌, [], ◌∷◌, List, length, take, drop, slice_get, IsTrue};
ghost use Rattle.attentions.specs.Queue.{same_attention, is_pending, without_repeats, established};

use scsi_types::UnitAttention;
use std::marker::Model;

/// How many kinds of condition there are, and so the most that wait.
const KINDS: usize = 5;

/// The unit attention conditions that wait to be told to one session, oldest first, none of them twice.
///
/// It holds at most five and takes no memory.
#[derive(Drop)]
pub struct Pending {
    codes: [UnitAttention; KINDS],
    count: usize,
}

impl Model for Pending {
    ghost use Rattle.std.specs.Prelude.{◌≡◌, ◌≤◌, List, length, take, IsTrue};
    ghost use Rattle.attentions.specs.Queue.{without_repeats};
    ghost use Rattle.scsi_types.specs.declared.attention.UnitAttention.{UnitAttention};

    ghost Value = { List UnitAttention };

    ghost view = { λ p. take p.count p.codes };

    ghost invariant = { λ p. (length p.codes ≡ 5) × (p.count ≤ 5) × IsTrue (without_repeats (take p.count p.codes)) };
}

impl Pending {
    /// No condition.
    pub fn new() -> Self
        ensures { result ≡ [] }
    {
        Pending {
            codes: [UnitAttention::PowerOn; KINDS],
            count: 0,
        }
    }

    /// That of a power on, as a session finds it when it attaches (SAM-5, 5.14).
    pub fn power_on() -> Self
        ensures { result ≡ UnitAttention.PowerOn ∷ [] }
    {
        Pending {
            codes: [UnitAttention::PowerOn; KINDS],
            count: 1,
        }
    }

    /// Whether none waits.
    pub fn is_empty(&self) -> bool
        ensures { IsTrue result ↔ (self.now ≡ []) }
    {
        self.count == 0
    }

    /// The condition that is told next.
    pub fn first(&self) -> Option<UnitAttention>
        ensures oldest { result ≡ slice_get self.now 0 }
        ensures distinct { IsTrue (without_repeats self.now) }
    {
        if self.count == 0 {
            None
        } else {
            Some(self.codes[0])
        }
    }

    /// Tells the condition that waits longest, which waits no more.
    pub fn take(&mut self) -> Option<UnitAttention>
        ensures told { result ≡ slice_get self.old 0 }
        ensures later { self.new ≡ drop 1 self.old }
    {
        if self.count == 0 {
            return None;
        }
        let told = self.codes[0];
        self.codes.rotate_left(1);
        self.count -= 1;
        Some(told)
    }

    /// Lets a condition wait behind the others, unless it waits already.
    pub fn establish(&mut self, code: UnitAttention)
        ensures { self.new ≡ established self.old code }
    {
        if !self.has(code) {
            self.codes[self.count] = code;
            self.count += 1;
        }
    }

    /// Puts a condition in the place of all that wait, as a reset does (SAM-5, 5.14).
    pub fn replace_all(&mut self, code: UnitAttention)
        ensures { self.new ≡ code ∷ [] }
    {
        self.codes[0] = code;
        self.count = 1;
    }

    // Whether a condition waits.
    fn has(&self, code: UnitAttention) -> bool
        ensures { result ≡ is_pending self.now code }
    {
        self.codes[..self.count]
            .iter()
            .any(|waiting| same(code, *waiting))
    }
}

// Whether both are one condition.
fn same(one: UnitAttention, other: UnitAttention) -> bool
    ensures { result ≡ same_attention one other }
{
    one == other
}
