//! What the events of a world make of one unit, and the jobs that it serves. Beside them stand commands whose flush comes behind them,
//! when their unit is free again for others: what the unit is asked in their place (`unflushed`), and what their entries stand for
//! (`laws`).
#![tactic(auto)]

mod bytes;
mod calls;
mod job;
pub mod laws;
mod unflushed;

pub use bytes::Bytes;
pub use calls::{attach_unit, detach_unit, move_unit, reset_unit, serve_unit};
pub use job::{End, Job};
pub use unflushed::without_flush;
