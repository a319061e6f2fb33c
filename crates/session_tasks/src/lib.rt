//! The commands of a session that wait for their data: how they gather it by R2T and Data-Out (RFC 7143, 11.7 and 11.8), how
//! much data a command moves, and which of them a request for task management drops (RFC 7143, 11.5).
//!
//! Of specs/, `Slots` says how such a command is kept.
#![tactic(auto)]

mod collecting;
mod task_management;
mod transfer;

pub use collecting::{Collected, MOST_WAITING, R2tWith, WaitingCommand, WaitingCommands};
pub use task_management::{
    FUNCTION_COMPLETE, FUNCTION_NOT_SUPPORTED, FUNCTION_REJECTED, LUN_DOES_NOT_EXIST,
    REASSIGNMENT_NOT_SUPPORTED, TASK_DOES_NOT_EXIST, drops, management_for,
};
pub use transfer::{
    command_data, expected_data_length, first_bytes, has_to_collect, residual, returned_data,
};
