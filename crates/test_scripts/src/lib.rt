//! Scripts of a unit, as text (`rows`): what they say of it, and how they are played over devices in memory that fail, and of which a
//! loss of power takes back what was not flushed (`device`). Tests of units, of their registration files, and of a loss of power, have
//! them.
#![tactic(auto)]

mod bench;
mod device;
mod ended;
mod in_memory;
mod playing;
mod rows;
mod served;
mod unit;

pub use bench::{Bench, Faults, Setup, filled_by};
pub use device::{Failing, FailingBlocks, crashed};
pub use ended::Ended;
pub use in_memory::{OPEN_CALLS, formatted};
pub use playing::{make, played};
pub use rows::{Row, are_within, cdb_of, is_row, part, setup_of, written_at};
