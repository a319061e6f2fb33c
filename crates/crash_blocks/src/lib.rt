//! A device in memory that a crash may take back to: it keeps what it held since the last flush, and every crash at some
//! moment since an earlier one.
#![tactic(auto)]

mod crash;
mod event;
pub mod laws;
mod pick;

pub use crash::CrashBlocks;
pub use pick::Pick;
