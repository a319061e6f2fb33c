//! Stacks for which there is no room.
use portal::{SmallStacks, Stacks};

/// So large a stack no thread has.
const TOO_LARGE: usize = 1 << 60;

/// Stacks of workers of which the first so many are too large.
#[derive(Clone, Copy, Drop)]
pub struct NoRoom {
    pub refused: u32,
}

impl Stacks for NoRoom {
    fn next_stack(&mut self) -> usize {
        if self.refused == 0 {
            return SmallStacks.next_stack();
        }
        self.refused = self.refused.saturating_sub(1);
        TOO_LARGE
    }
}
