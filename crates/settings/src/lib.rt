//! What a start of `arrayd` is told by its words and by its environment, how it refuses what is wrong of that, and the file of its log.
#![tactic(auto)]

pub mod administration;
pub mod environment;
pub mod log_file;
pub mod standard;
pub mod target_name;
pub mod usage;
pub mod wrong_words;
