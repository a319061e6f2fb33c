//! The versions of a registration file.
ghost use Rattle.std.specs.Prelude.{◌≡◌};
ghost use Rattle.aptpl_format.specs.Format.{version_bytes};

/// A version of the registration file. Both are read; a save writes the second.
#[derive(Clone, Copy, PartialEq, Eq)]
pub enum FileVersion {
    /// Each registrant has an entry.
    Version1,
    /// The two nexuses of one initiator port that are registered with one key have one entry.
    Version2,
}

impl FileVersion {
    /// The version in a root.
    pub(crate) fn bytes(self) -> [u8; 2]
        ensures { result ≡ version_bytes self }
    {
        match self {
            FileVersion::Version1 => [0, 1],
            FileVersion::Version2 => [0, 2],
        }
    }
}
