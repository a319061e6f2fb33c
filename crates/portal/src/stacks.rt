//! The stacks of threads.

/// So many bytes has the stack of a thread.
pub const STACK: usize = 256 * 1024;

/// How large the stacks of workers are. One for which there is no room has no thread.
pub trait Stacks {
    /// What the stack of the next worker takes.
    fn next_stack(&mut self) -> usize;
}

/// Small ones, all alike.
#[derive(Clone, Copy, Drop)]
pub struct SmallStacks;

impl Stacks for SmallStacks {
    fn next_stack(&mut self) -> usize {
        STACK
    }
}
