//! Logical unit numbers.
ghost use Rattle.scsi_types.specs.Lun.{NamesUnit};

/// A logical unit number (SAM-5, 4.7).
#[derive(Clone, Copy, PartialEq, Eq)]
pub struct Lun;

impl Lun {
    /// The unit, 0 to 255, that eight bytes name in the first level by peripheral or flat addressing (SAM-5,
    /// 4.7.5 to 4.7.7); none where they name no unit of this array.
    pub fn parse(bytes: &[u8; 8]) -> Option<u8>
        ensures { NamesUnit bytes.now result }
    {
        if (bytes[0] == 0x00 || bytes[0] == 0x40) && bytes[2..] == [0; 6] {
            Some(bytes[1])
        } else {
            None
        }
    }
}
