//! What becomes of a PDU that comes (RFC 7143, 4.2.2.1, 7.3 and 11.17).
ghost use Rattle.std.specs.Prelude.{◌≡◌};
ghost use Rattle.session_rules.specs.Setting.{Setting};
ghost use Rattle.session_rules.specs.Standing.{Standing, window_of};
ghost use Rattle.session_rules.specs.Verdict.{window_verdict, verdict_of, is_refused, most_immediate};

use crate::text::discovers;
use iscsi_pdu::ScsiCommand;
use login::SessionType;
use session_rules::{Lengths, PROTOCOL_ERROR, RESERVED_TAG, Verdict, Window};
use session_tasks::{WaitingCommands, expected_data_length};

/// What becomes of a SCSI Command in a session of this kind, where these lengths are in force and this stands behind what
/// came.
pub fn command_verdict(
    kind: SessionType,
    lengths: Lengths,
    window: Window,
    waiting: &WaitingCommands,
    command: &ScsiCommand,
    bytes: &[u8],
) -> Verdict
    ensures { (m : Setting) (s : Standing) → m.kind ≡ kind → m.start.lengths ≡ lengths → window ≡ window_of s
        → s.collecting ≡ waiting.now → result ≡ verdict_of m s command.now bytes.now }
{
    let refused = discovers(kind) || has_cause_of_reject(lengths, waiting, command, bytes);
    let verdict = window_verdict(window, command.immediate, command.numbers.cmd_sn, refused);
    if verdict == Verdict::Accepted && command.immediate && waiting.has_immediate() {
        Verdict::Full
    } else {
        verdict
    }
}

/// What becomes of a PDU with this I bit and this CmdSN, which is rejected in its turn if there is a cause (RFC 7143,
/// 4.2.2.1).
pub fn window_verdict(window: Window, immediate: bool, cmd_sn: u32, refused: bool) -> Verdict
    ensures { (s : Standing) → window ≡ window_of s → result ≡ window_verdict s immediate cmd_sn refused }
{
    let ahead = cmd_sn.wrapping_sub(window.exp_cmd_sn);
    if immediate || (ahead == 0 && 0 < window.size) {
        if refused {
            Verdict::Refused(PROTOCOL_ERROR)
        } else {
            Verdict::Accepted
        }
    } else if ahead < window.size {
        Verdict::Gap
    } else {
        Verdict::Ignored
    }
}

// Whether a command that has its turn is one against the protocol.
fn has_cause_of_reject(
    lengths: Lengths,
    waiting: &WaitingCommands,
    command: &ScsiCommand,
    bytes: &[u8],
) -> bool
    ensures { (s : Standing) → s.collecting ≡ waiting.now
        → result ≡ is_refused lengths s command.now bytes.now }
{
    command.task_tag == RESERVED_TAG
        || waiting.has(command.task_tag)
        || (expected_data_length(command) as usize) < bytes.len()
        || (most_immediate(lengths) as usize) < bytes.len()
}

// How much data may come with a command.
fn most_immediate(lengths: Lengths) -> u32
    ensures { result ≡ most_immediate lengths }
{
    if lengths.immediate_data {
        lengths.first_burst
    } else {
        0
    }
}
