//! How much data a command moves, and which (RFC 7143, 11.3.4 and 11.4.5).
ghost use Rattle.std.specs.Prelude.{◌≡◌, ◌↔◌, IsTrue, ◌≤◌, length, take};
ghost use Rattle.session_rules.specs.Collecting.{HasToCollect};
ghost use Rattle.session_rules.specs.Transfer.{expected_transfer, data_for, sent_data, residual_count};

use iscsi_pdu::ScsiCommand;

/// The length that the initiator expects to move: none where it neither reads nor writes.
pub fn expected_data_length(command: &ScsiCommand) -> u32
    ensures { result ≡ expected_transfer command.now }
{
    if command.read || command.write {
        command.expected_length
    } else {
        0
    }
}

/// The data of a command: with W the first bytes that it needs and expects, as far as they came.
pub fn command_data<'a>(command: &ScsiCommand, need: u32, bytes: &'a [u8]) -> &'a [u8]
    ensures { result.now ≡ data_for command.now need bytes.now }
{
    if !command.write {
        return &[];
    }
    first_bytes(bytes, command.expected_length.min(need))
}

/// Whether a command that needs so many bytes has to collect them: a write that expects to send them, and of which so
/// many came with it.
pub fn has_to_collect(command: &ScsiCommand, need: u32, immediate: usize) -> bool
    ensures { IsTrue result ↔ HasToCollect command.now need immediate }
{
    command.write && need <= command.expected_length && immediate < need as usize
}

/// What goes out of the data of an answer: a read's, as much as is expected.
pub fn returned_data<'a>(command: &ScsiCommand, bytes: &'a [u8]) -> &'a [u8]
    ensures sent { result.now ≡ sent_data command.now bytes.now }
    ensures reach { length result.now ≤ 4294967295 }
{
    if !command.read {
        return &[];
    }
    first_bytes(bytes, command.expected_length)
}

/// The first bytes, or all where there are fewer.
pub fn first_bytes(bytes: &[u8], most: u32) -> &[u8]
    ensures part { result.now ≡ take most bytes.now }
    ensures within { length result.now ≤ most }
{
    if (most as usize) < bytes.len() {
        &bytes[..most as usize]
    } else {
        bytes
    }
}

/// The Residual Count: what lies between the length that is expected and that of the transfer (RFC 7143, 11.4.5).
pub fn residual(expected_length: u64, transfer: u64) -> u32
    ensures { result ≡ residual_count expected_length transfer }
{
    expected_length.abs_diff(transfer).min(u64::from(u32::MAX)) as u32
}
