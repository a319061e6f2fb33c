//! What is counted of an array: of its sessions and their commands, of what was written and is not flushed, and of the events that are
//! told. Who counts waits for nobody who looks.
#![tactic(auto)]

mod counts;
mod failures;
mod happenings;
mod meters;
mod recent;
mod unflushed;
mod visit;

pub use counts::{BOUNDS, BUCKETS, Counts, Ended, IN_ORDER, KEYS, Leaving, OPERATIONS, Served};
pub use failures::Failures;
pub use happenings::{CALLS, CALLS_IN_ORDER, CAUSES, CAUSES_IN_ORDER, Happenings, UnitHappenings};
pub use meters::{Hand, Meters, Seen, SessionSeen, clock};
pub use recent::{POINTS, Point, STEP, UnitPoint};
pub use unflushed::{Unflushed, UnflushedTally};
pub use visit::Visit;
