//! Devices of 512-byte blocks: what they keep, what a crash may leave of it, and when they fail.
#![tactic(auto)]

mod blocks;
mod fused;
pub mod laws;
mod mem;
mod opener;
mod reply_memory;

pub use blocks::{BLOCK_LENGTH, Blocks, DeviceFailed};
pub use fused::FusedBlocks;
pub use mem::MemBlocks;
pub use opener::{FusedOpener, KeepOpener, Opener};
pub use reply_memory::ReplyMemory;
