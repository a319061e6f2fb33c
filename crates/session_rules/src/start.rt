//! The numbers that a login hands to full feature phase.
use crate::lengths::Lengths;

/// The numbers and the lengths with which a session begins.
#[derive(Clone, Copy)]
pub struct Start {
    /// The CmdSN that is expected first.
    pub exp_cmd_sn: u32,
    /// The first StatSN.
    pub stat_sn: u32,
    /// The lengths in force.
    pub lengths: Lengths,
}
