//! The preparer of a disk that is a file: it looks whether the disk is slow, fetches and reads beside the device, flushes by handles of its
//! own, and has those who write much wait while more is written than the disk flushes.
#![tactic(auto)]

mod backlog;
mod kernel_limits;
mod preparer;

pub use backlog::{Backlog, Begun, FlushEnd};
pub use kernel_limits::{KERNEL_FILES, KernelFiles, KernelLimits};
pub use preparer::FilePreparer;
