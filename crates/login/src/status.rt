//! What a Login Request asks for, and how a login is refused.
ghost use Rattle.std.specs.Prelude.{◌≡◌};

/// What a session is for (RFC 7143, 4.3 and 13.21).
#[derive(Clone, Copy, Debug, PartialEq, Eq)]
pub enum SessionType {
    Normal,
    Discovery,
}

/// The stages (RFC 7143, 11.12.3). A login begins in one of the first two.
pub const SECURITY: u8 = 0;

pub const OPERATIONAL: u8 = 1;

pub const FULL_FEATURE: u8 = 3;

/// What a negotiation looks at in the header of a Login Request (RFC 7143, 11.12).
#[derive(Clone, Copy)]
pub struct LoginFlags {
    /// T: ready to go to the next stage.
    pub transit: bool,
    /// C: the text goes on in the next request.
    pub continues: bool,
    /// CSG: security or operational.
    pub current_stage: u8,
    /// NSG, looked at with T: operational or full feature.
    pub next_stage: u8,
    pub version_min: u8,
    /// 0, or the session that the connection is to join.
    pub tsih: u16,
}

/// Why a login is refused (RFC 7143, 11.13.5).
#[derive(Clone, Copy)]
pub enum LoginStatus {
    InitiatorError,
    AuthenticationFailure,
    NotFound,
    UnsupportedVersion,
    TooManyConnections,
    MissingParameter,
    SessionTypeNotSupported,
    SessionDoesNotExist,
    InvalidDuringLogin,
    OutOfResources,
}

impl LoginStatus {
    ghost use Rattle.login.specs.Status.{code_of};

    /// Status-Class.
    pub fn class(self) -> u8
        ensures { result ≡ (code_of self).class }
    {
        match self {
            LoginStatus::OutOfResources => 0x03,
            LoginStatus::InitiatorError
            | LoginStatus::AuthenticationFailure
            | LoginStatus::NotFound
            | LoginStatus::UnsupportedVersion
            | LoginStatus::TooManyConnections
            | LoginStatus::MissingParameter
            | LoginStatus::SessionTypeNotSupported
            | LoginStatus::SessionDoesNotExist
            | LoginStatus::InvalidDuringLogin => 0x02,
        }
    }

    /// Status-Detail.
    pub fn detail(self) -> u8
        ensures { result ≡ (code_of self).detail }
    {
        match self {
            LoginStatus::InitiatorError => 0x00,
            LoginStatus::AuthenticationFailure => 0x01,
            LoginStatus::NotFound => 0x03,
            LoginStatus::UnsupportedVersion => 0x05,
            LoginStatus::TooManyConnections => 0x06,
            LoginStatus::MissingParameter => 0x07,
            LoginStatus::SessionTypeNotSupported => 0x09,
            LoginStatus::SessionDoesNotExist => 0x0A,
            LoginStatus::InvalidDuringLogin => 0x0B,
            LoginStatus::OutOfResources => 0x02,
        }
    }
}

/// How a Login Request is refused.
#[derive(Clone, Copy)]
pub enum LoginRefusal {
    /// With this status.
    Refused(LoginStatus),
    /// Its TSIH names a session: with the status that the session layer chooses by whether that lives.
    NamesSession,
}
