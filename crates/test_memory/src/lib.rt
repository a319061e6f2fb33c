//! What tests of arrays share: units in memory, before threads share them, and devices that hang.
#![tactic(auto)]

mod held;
mod latch;
mod units;

pub use held::HeldBlocks;
pub use latch::Latch;
pub use units::{Opens, new_unit, opened};
