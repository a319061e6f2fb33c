//! The values in force in a session.
ghost use Rattle.std.specs.Prelude.{◌≡◌, ◌≤◌, []};
ghost use Rattle.login.specs.Text.{pairs};
ghost use Rattle.login.specs.Table.{in_force};
ghost use Rattle.login.specs.Parameters.{number_of, flag_of, parameters_of};

use crate::key::Key;
use crate::text::found;
use crate::value::Value;

/// The values in force in a session (RFC 7143, section 13).
#[derive(Clone, Copy)]
pub struct Parameters {
    /// The most bytes of a run of Data-In, or of an R2T.
    pub max_burst_length: u32,
    /// The most bytes of immediate data of a command.
    pub first_burst_length: u32,
    /// The most bytes of a data segment that the initiator takes.
    pub max_recv_data_segment_length: u32,
    pub max_connections: u32,
    pub max_outstanding_r2t: u32,
    /// In seconds.
    pub default_time2wait: u32,
    /// In seconds.
    pub default_time2retain: u32,
    pub error_recovery_level: u32,
    pub initial_r2t: bool,
    pub immediate_data: bool,
    pub data_pdu_in_order: bool,
    pub data_sequence_in_order: bool,
}

impl Parameters {
    /// The values after the pairs of a text.
    #[tactic(auto, unfolding(crate::specs::Parameters::parameters_of))]
    pub fn after(text: &[u8]) -> Parameters
        ensures values { result ≡ parameters_of (pairs text.now) }
        ensures lengths { (512 ≤ result.max_burst_length) × (512 ≤ result.max_recv_data_segment_length) }
    {
        Parameters {
            max_burst_length: number(text, Key::MaxBurstLength),
            first_burst_length: number(text, Key::FirstBurstLength),
            max_recv_data_segment_length: number(text, Key::MaxRecvDataSegmentLength),
            max_connections: number(text, Key::MaxConnections),
            max_outstanding_r2t: number(text, Key::MaxOutstandingR2T),
            default_time2wait: number(text, Key::DefaultTime2Wait),
            default_time2retain: number(text, Key::DefaultTime2Retain),
            error_recovery_level: number(text, Key::ErrorRecoveryLevel),
            initial_r2t: flag(text, Key::InitialR2T),
            immediate_data: flag(text, Key::ImmediateData),
            data_pdu_in_order: flag(text, Key::DataPDUInOrder),
            data_sequence_in_order: flag(text, Key::DataSequenceInOrder),
        }
    }

    /// The values of a session in which nothing was negotiated.
    #[tactic(auto, unfolding(crate::specs::Text::pairs))]
    pub fn defaults() -> Parameters
        ensures { result ≡ parameters_of [] }
    {
        Parameters::after(b"")
    }
}

fn number(text: &[u8], key: Key) -> u32
    ensures { result ≡ number_of (in_force key (pairs text.now)) }
{
    match in_force(text, key) {
        Value::Number(number) => number,
        Value::Flag(_) | Value::Word(_) | Value::Unset => 0,
    }
}

fn flag(text: &[u8], key: Key) -> bool
    ensures { result ≡ flag_of (in_force key (pairs text.now)) }
{
    match in_force(text, key) {
        Value::Flag(flag) => flag,
        Value::Number(_) | Value::Word(_) | Value::Unset => false,
    }
}

/// The value of a key that is in force after the pairs of a text: the agreed one, or the default where the key was not
/// offered, or was offered with a value that is not of its form or out of its range.
#[tactic(auto, unfolding(crate::specs::Table::in_force))]
pub fn in_force(text: &[u8], key: Key) -> Value
    ensures { result ≡ in_force key (pairs text.now) }
{
    let row = key.row();
    match found(text, row.name) {
        None => row.default,
        Some(value) => match row.rule.agreed(value) {
            Some(agreed) => agreed,
            None => row.default,
        },
    }
}
