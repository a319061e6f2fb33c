//! Disks that are files, and the device of a registration file. What a file of the system holds cannot be said: of its device it is proved
//! that it keeps its number of blocks, that a call fails just where its count of failures rises, and which calls were made of the
//! file. The device of a file that claims its bytes, as one in memory does, claims its blocks.
#![tactic(auto)]

mod backing;
mod blocks;
mod disk;
mod fault;
mod file_device;
mod file_log;
mod flushes;
pub mod laws;
mod named;
mod node;
mod opener;
mod system;
mod tally;
mod writes;

pub use backing::{BackingFile, Counted};
pub use blocks::{FileBlocks, blocks_in};
pub use disk::{Disk, DiskLock, open_disk};
pub use fault::{DiskFault, FileFault};
pub use file_device::FileDevice;
pub use file_log::FileLog;
pub use flushes::{FlushFault, Flushes, LastingFile};
pub use named::NamedBlocks;
pub use opener::FileOpener;
pub use system::{SystemFile, give_name, make_name_last, number_of};
pub use tally::Tally;
pub use writes::Writes;
