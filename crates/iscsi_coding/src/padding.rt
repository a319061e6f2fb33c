//! The padding of a data segment.

ghost use Rattle.std.specs.Prelude.{◌≡◌, ◌≤◌};
ghost use Rattle.iscsi_pdu.specs.Spelling.{padded};
ghost use Rattle.iscsi_pdu.specs.declared.TheConstants.{MAX_DATA_SEGMENT_LENGTH};

/// The length of a data segment with its padding (RFC 7143, 11.1).
pub fn padded_length(n: usize) -> usize
    requires { n ≤ MAX_DATA_SEGMENT_LENGTH }
    ensures { result ≡ padded n }
{
    (n + 3) / 4 * 4
}
