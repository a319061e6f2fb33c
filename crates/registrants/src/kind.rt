//! Types of persistent reservation.
ghost use Rattle.std.specs.Prelude.{◌≡◌};
ghost use Rattle.registrants.specs.Kind.{is_of_all_registrants, is_of_registrants, type_code, type_of};

/// The type of a persistent reservation (SPC-4, 6.15.3.4).
#[derive(Clone, Copy, PartialEq, Eq)]
pub enum ReservationType {
    WriteExclusive,
    ExclusiveAccess,
    WriteExclusiveRegistrantsOnly,
    ExclusiveAccessRegistrantsOnly,
    WriteExclusiveAllRegistrants,
    ExclusiveAccessAllRegistrants,
}

impl ReservationType {
    /// The type's code, as it stands in a CDB and in data (SPC-4, 6.15.3.4).
    pub fn code(self) -> u8
        ensures { result ≡ type_code self }
    {
        match self {
            ReservationType::WriteExclusive => 1,
            ReservationType::ExclusiveAccess => 3,
            ReservationType::WriteExclusiveRegistrantsOnly => 5,
            ReservationType::ExclusiveAccessRegistrantsOnly => 6,
            ReservationType::WriteExclusiveAllRegistrants => 7,
            ReservationType::ExclusiveAccessAllRegistrants => 8,
        }
    }

    /// The type of this code; none where no type has it.
    pub fn from_code(code: u8) -> Option<ReservationType>
        ensures { result ≡ type_of code }
    {
        match code {
            1 => Some(ReservationType::WriteExclusive),
            3 => Some(ReservationType::ExclusiveAccess),
            5 => Some(ReservationType::WriteExclusiveRegistrantsOnly),
            6 => Some(ReservationType::ExclusiveAccessRegistrantsOnly),
            7 => Some(ReservationType::WriteExclusiveAllRegistrants),
            8 => Some(ReservationType::ExclusiveAccessAllRegistrants),
            _ => None,
        }
    }

    /// Whether every registrant holds such a reservation: types 7 and 8.
    pub fn is_of_all_registrants(self) -> bool
        ensures { result ≡ is_of_all_registrants self }
    {
        matches!(
            self,
            ReservationType::WriteExclusiveAllRegistrants
                | ReservationType::ExclusiveAccessAllRegistrants
        )
    }

    /// Whether such a reservation lets the other registrants in: types 5 to 8.
    pub fn is_of_registrants(self) -> bool
        ensures { result ≡ is_of_registrants self }
    {
        !matches!(
            self,
            ReservationType::WriteExclusive | ReservationType::ExclusiveAccess
        )
    }
}
