//! The command window, and the numbers that go out with it (RFC 7143, 4.2.2).
ghost use Rattle.std.specs.Prelude.{◌≡◌, ◌+◌, ◌%◌};
ghost use Rattle.session_rules.specs.Window.{exp_cmd_sn_behind};
ghost use Rattle.session_rules.specs.Standing.{numbers_for};

use iscsi_pdu::Numbers;

/// How many commands the window takes: MaxCmdSN lies 31 ahead of ExpCmdSN (RFC 7143, 4.2.2.1).
pub const WINDOW: u32 = 32;

/// The command window: the CmdSN that is expected, and how many commands it takes.
#[derive(Clone, Copy)]
pub struct Window {
    pub exp_cmd_sn: u32,
    pub size: u32,
}

/// The numbers of a PDU with this StatSN, where this CmdSN is expected and so many numbered commands wait for data: by
/// each the window is smaller.
pub fn target_numbers(stat_sn: u32, exp_cmd_sn: u32, waiting: u32) -> Numbers
    ensures { result ≡ numbers_for stat_sn exp_cmd_sn waiting }
{
    Numbers {
        stat_sn,
        exp_cmd_sn,
        max_cmd_sn: exp_cmd_sn.wrapping_add(WINDOW - 1).wrapping_sub(waiting),
    }
}

/// The Target Transfer Tag behind this one: they count, and leave out FFFFFFFFh (RFC 7143, 11.8.5).
pub fn next_transfer_tag(tag: u32) -> u32
    ensures { result ≡ (tag + 1) % 4294967295 }
{
    ((u64::from(tag) + 1) % u64::from(u32::MAX)) as u32
}

/// The CmdSN that is expected once a PDU with this I bit was accepted, which takes one unless it is immediate.
pub fn next_exp_cmd_sn(exp_cmd_sn: u32, immediate: bool) -> u32
    ensures { result ≡ exp_cmd_sn_behind immediate exp_cmd_sn }
{
    if immediate {
        exp_cmd_sn
    } else {
        exp_cmd_sn.wrapping_add(1)
    }
}
