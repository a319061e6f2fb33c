//! How a command on the medium ends, as the unit that asked for it is told.
/// How a command on the medium ended.
#[derive(Clone, Copy, PartialEq, Eq)]
pub enum MediumEnd {
    /// The device served each call.
    Done,
    /// The range differs from the bytes to compare, first at this offset in bytes from its start. Nothing was
    /// written (SBC-3, COMPARE AND WRITE command).
    Miscompare(u32),
    /// A read failed. Nothing was written.
    ReadFailed,
    /// A write failed. Each block of the range is the old one or the new one.
    WriteFailed,
    /// The flush failed. No block changed.
    FlushFailed,
}
