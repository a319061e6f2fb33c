//! The two slots of a registration file.
ghost use Rattle.std.specs.Prelude.{◌≡◌};
ghost use Rattle.aptpl_format.specs.Format.{first_block, other_slot, slot_number};

/// A slot of a registration file: its place for one record. The root names one of the two, and a save writes the other.
#[derive(Clone, Copy, PartialEq, Eq)]
pub enum Slot {
    First,
    Second,
}

impl Slot {
    /// The slot's number in the root.
    pub(crate) fn number(self) -> u8
        ensures { result ≡ slot_number self }
    {
        match self {
            Slot::First => 0,
            Slot::Second => 1,
        }
    }

    /// Its first block.
    pub fn first_block(self) -> u32
        ensures { result ≡ first_block self }
    {
        match self {
            Slot::First => 1,
            Slot::Second => 34,
        }
    }

    /// The other slot.
    pub fn other(self) -> Slot
        ensures { result ≡ other_slot self }
    {
        match self {
            Slot::First => Slot::Second,
            Slot::Second => Slot::First,
        }
    }
}
