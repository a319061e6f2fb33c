//! The lengths in force in a session (RFC 7143, section 13).
ghost use Rattle.std.specs.Prelude.{◌≤◌};

/// The lengths in force: how its data is cut.
#[derive(Clone, Copy)]
pub struct Lengths {
    /// The initiator's MaxRecvDataSegmentLength, 512 to 16777215 bytes (13.12).
    pub data_segment: u32,
    /// MaxBurstLength, 512 to 16777215 bytes (13.13).
    pub burst: u32,
    /// FirstBurstLength, 512 to 16777215 bytes (13.14).
    pub first_burst: u32,
    /// ImmediateData: whether data may come with its command (13.11).
    pub immediate_data: bool,
    pub ghost segments: { 512 ≤ data_segment },
    pub ghost bursts: { 512 ≤ burst },
}

impl Lengths {
    ghost use Rattle.std.specs.Prelude.{◌≡◌};
    ghost use Rattle.session_rules.specs.Lengths.{default_lengths};

    /// The lengths where none are negotiated (section 13).
    pub fn defaults() -> Lengths
        ensures { result ≡ default_lengths }
    {
        Lengths {
            data_segment: 8192,
            burst: 262144,
            first_burst: 65536,
            immediate_data: true,
        }
    }
}
