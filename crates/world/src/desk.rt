//! A desk: the sessions whose jobs wait at it.
ghost use Rattle.std.specs.Prelude.{◌≡◌, ◌<◌, ◌≤◌, ◌++◌, ◌∷◌, [], ℕ, length, not, if◌then◌else◌, IfOk, IfSome, IfNone, Some, nat_eq};
ghost use Rattle.std.specs.Prelude.{slice_get};
ghost use Rattle.std.specs.List.{remove};

use std::alloc::{AllocError, Global};
use std::collections::VecDeque;
use std::marker::Model;

/// How many jobs wait at a desk at most.
pub const MOST_JOBS: usize = 64;

/// The sessions whose jobs wait at the desk of a group, in the order in which they came. Contracts see this list.
#[derive(Drop)]
pub struct Desk {
    waiting: VecDeque<usize>,
}

impl Model for Desk {
    ghost use Rattle.std.specs.Prelude.{◌≤◌, length, List, ℕ};
    ghost use Rattle.std.specs.VecDeque.{deque_capacity};

    ghost Value = { List ℕ };

    ghost view = { λ d. d.waiting.items };

    ghost invariant = { λ d. (length d.waiting.items ≤ 64) × (64 ≤ deque_capacity d.waiting) };
}

impl Desk {
    /// A desk at which nothing waits.
    pub fn new(alloc: Global) -> Result<Desk, AllocError>
        ensures { IfOk result (λ d. d ≡ []) }
    {
        Ok(Desk {
            waiting: VecDeque::with_capacity(alloc, MOST_JOBS)?,
        })
    }

    /// Puts a session's job last, where fewer than 64 wait: whether it did.
    pub fn push(&mut self, session: usize) -> bool
        ensures taken { result ≡ not (nat_eq (length self.old) 64) }
        ensures waiting { self.new ≡ (if nat_eq (length self.old) 64 then self.old else self.old ++ session ∷ []) }
    {
        if self.waiting.len() >= MOST_JOBS {
            return false;
        }
        self.waiting.push_back_reserved(session);
        true
    }

    // Whose job waits at a place.
    #[tactic(auto, using(std::proofs::lemmas::Option::slice_get_read))]
    fn get(&self, at: usize) -> Option<&usize>
        ensures some { IfSome result (λ one. slice_get self.now at ≡ Some one.now) }
        ensures none { IfNone result (length self.now ≤ at) }
    {
        self.waiting.get(at)
    }

    /// Where a session's job waits.
    pub fn index_of(&self, session: usize) -> Option<usize>
        ensures there { IfSome result (λ at. slice_get self.now at ≡ Some session) }
        ensures nowhere { IfNone result ((at : ℕ) → slice_get self.now at ≡ Some session → ⊥) }
    {
        for at in 0..self.waiting.len() {
            if let Some(one) = self.get(at) {
                if *one == session {
                    return Some(at);
                }
            }
        }
        None
    }

    /// Takes out what waits at a place.
    pub fn take_at(&mut self, at: usize)
        requires { at < length self.old }
        ensures { self.new ≡ remove self.old at }
    {
        self.waiting.remove(at);
    }

    /// Takes the first.
    pub fn take(&mut self) -> Option<usize>
        ensures first { IfSome result (λ session. self.old ≡ session ∷ self.new) }
        ensures none { IfNone result ((self.old ≡ []) × (self.new ≡ [])) }
    {
        self.waiting.pop_front()
    }
}
