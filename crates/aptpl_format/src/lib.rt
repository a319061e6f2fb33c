//! The bytes of a registration file, without a device: a root, which names a version and one of two slots, and a slot, which
//! spells a record. Each record has one spelling in a version, and only that is taken.
#![tactic(auto)]

mod entry;
mod fault;
mod parsing;
mod slot;
mod spelling;
mod version;

pub use fault::OpenFault;
pub use parsing::{named_by, record_of};
pub use slot::Slot;
pub use spelling::{FILE_BLOCKS, SLOT_LENGTH, root_block, slot_bytes};
pub use version::FileVersion;
