//! What waits at a desk.
ghost use Rattle.std.specs.Prelude.{◌≡◌, ◌<◌, ◌≤◌, ◌∷◌, [], false, true, length, IfOk, IfErr, IfSome, IfNone, Some, slice_get};
ghost use Rattle.forwarding.specs.Queue.{IsNotQueued, IsTakenOut, after_close, no_items, with_item};

use std::alloc::{AllocError, Global};
use std::collections::VecDeque;
use std::marker::Model;

/// How many jobs wait at a desk at most.
pub const MOST_JOBS: usize = 64;

/// Why something is not queued.
#[derive(Clone, Copy)]
pub enum NotQueued {
    /// As much waits as there is room for.
    Full,
    /// The queue is closed.
    Closed,
}

/// What waits, in the order in which it came. It has room for 64 from its start. Contracts see the items, the first one first,
/// and whether it is closed.
#[derive(Drop)]
pub struct Queue<T: Drop> {
    items: VecDeque<T>,
    is_closed: bool,
}

impl<T: Drop> Model for Queue<T> {
    ghost use Rattle.std.specs.Prelude.{◌≤◌, length};
    ghost use Rattle.std.specs.VecDeque.{deque_capacity};
    ghost use Rattle.forwarding.specs.Queue.{Queued};

    ghost Value = { Queued T };

    ghost view = { λ q. record { items = q.items.items; is_closed = q.is_closed } };

    ghost invariant = { λ q. (length q.items.items ≤ 64) × (64 ≤ deque_capacity q.items) };
}

impl<T: Drop> Queue<T> {
    /// A queue in which nothing waits.
    pub fn new(alloc: Global) -> Result<Queue<T>, AllocError>
        ensures { IfOk result (λ q. q ≡ no_items) }
    {
        Ok(Queue {
            items: VecDeque::with_capacity(alloc, MOST_JOBS)?,
            is_closed: false,
        })
    }

    /// How much waits.
    pub fn len(&self) -> usize
        ensures { result ≡ length self.now.items }
    {
        self.items.len()
    }

    /// Whether it is closed.
    pub fn is_closed(&self) -> bool
        ensures { result ≡ self.now.is_closed }
    {
        self.is_closed
    }

    /// Puts an item last. It is handed back where the queue is closed, or where 64 wait.
    pub fn push(&mut self, item: T) -> Result<(), (NotQueued, T)>
        ensures queued { IfOk result (λ _. (self.old.is_closed ≡ false) × (length self.old.items < 64)
            × (self.new ≡ with_item self.old item)) }
        ensures refused { IfErr result (λ e. IsNotQueued self.old e.0 × (e.1 ≡ item) × (self.new ≡ self.old)) }
    {
        if self.is_closed {
            return Err((NotQueued::Closed, item));
        }
        if self.items.len() >= MOST_JOBS {
            return Err((NotQueued::Full, item));
        }
        self.items.push_back_reserved(item);
        Ok(())
    }

    /// Takes the first.
    pub fn take(&mut self) -> Option<T>
        ensures first { IfSome result (λ item. (self.old.items ≡ item ∷ self.new.items)
            × (self.new.is_closed ≡ self.old.is_closed)) }
        ensures none { IfNone result ((self.old.items ≡ []) × (self.new ≡ self.old)) }
    {
        self.items.pop_front()
    }

    /// The item at an index, the first one at 0.
    #[tactic(auto, using(std::proofs::lemmas::Option::slice_get_read))]
    pub fn get(&self, at: usize) -> Option<&T>
        ensures some { IfSome result (λ item. slice_get self.now.items at ≡ Some item.now) }
        ensures none { IfNone result (length self.now.items ≤ at) }
    {
        self.items.get(at)
    }

    /// Takes the item at an index. The others keep their order.
    #[tactic(auto, using(std::proofs::lemmas::Option::slice_get_read))]
    pub fn take_at(&mut self, at: usize) -> Option<T>
        ensures taken { IfSome result (λ item. IsTakenOut self.old at item self.new) }
        ensures none { IfNone result ((length self.old.items ≤ at) × (self.new ≡ self.old)) }
    {
        self.items.remove(at)
    }

    /// From now on nothing is queued. What waits can be taken.
    pub fn close(&mut self)
        ensures { self.new ≡ after_close self.old }
    {
        self.is_closed = true;
    }
}
