//! The words of the log.
ghost use Rattle.std.specs.Prelude.{◌≡◌};
ghost use Rattle.events.specs.Words.{access_text, action_text, call_text, error_text, session_type_text, operation_text, part_text};
ghost use Rattle.events.specs.Words.{resource_text};
ghost use Rattle.events.specs.Words.{status_text, stayed_text, unusable_text, reject_text};

/// What a session is for (RFC 7143, 4.3).
#[derive(Clone, Copy)]
pub enum SessionType {
    Normal,
    Discovery,
}

/// What the array lacked where it refused a login.
#[derive(Clone, Copy)]
pub enum Cause {
    /// Nothing: the request was refused for what it said.
    Request,
    /// This unit has no room for one more session.
    NoRoom(u8),
    /// A session has each TSIH.
    NoTsih,
    /// As many sessions have begun as are counted.
    NoNumber,
    NoMemory,
}

/// Why a session ended.
#[derive(Clone, Copy)]
pub enum Why {
    /// The initiator logged out.
    Logout,
    /// The initiator closed the connection.
    Closed,
    /// The connection failed while the array read.
    InputFailed,
    /// The connection failed while the array wrote.
    OutputFailed,
    /// The same initiator port logged in again (RFC 7143, 6.3.5).
    Replaced,
    /// A PDU was rejected: the reason (RFC 7143, 11.17.1), its opcode, its Initiator Task Tag.
    Rejected(u8, u8, u32),
    /// A CmdSN left a gap (RFC 7143, 4.2.2.1).
    Gap,
    /// There was no memory for the session.
    NoMemory,
    /// Another one came, and as many as may were waiting for the end of their login already.
    PushedOut,
    /// An administrator ended it.
    ByConsole,
}

/// Why a unit stayed.
#[derive(Clone, Copy)]
pub enum Stayed {
    /// Its file could not be opened for the new owner.
    NotOpened,
    /// The states that were asked for leave no owner, or two.
    BadList,
    /// Its history has its last length.
    Gone,
}

/// An asymmetric access state of a group (SPC-4, 5.15.2.2), as the log tells it.
#[derive(Clone, Copy, PartialEq, Eq)]
pub enum Access {
    Optimized,
    NonOptimized,
    Standby,
    Unavailable,
    /// Whoever set it did not name it.
    Unnamed,
}

/// The service action of a PERSISTENT RESERVE OUT (SPC-4, 6.16.2).
#[derive(Clone, Copy)]
pub enum Action {
    Register,
    Reserve,
    Release,
    Clear,
    Preempt,
    PreemptAndAbort,
    RegisterAndIgnore,
}

/// What a command is, as far as the log tells it.
#[derive(Clone, Copy)]
pub enum Operation {
    Read,
    Write,
    CompareAndWrite,
    SynchronizeCache,
    ReserveOut,
    SetGroups,
    Other,
}

/// Sense key, additional sense code and its qualifier (SPC-4, 4.5).
#[derive(Clone, Copy)]
pub struct Sense {
    pub key: u8,
    pub code: u8,
    pub qualifier: u8,
}

/// Which file of a unit.
#[derive(Clone, Copy)]
pub enum Part {
    Disk,
    Registrations,
}

/// A call of the system on a file.
#[derive(Clone, Copy)]
pub enum Call {
    Open,
    Seek,
    Read,
    Write,
    Flush,
}

/// What may be wanting.
#[derive(Clone, Copy)]
pub enum Resource {
    Memory,
    Thread,
    Descriptor,
    Connection,
}

/// Why a file of a unit cannot be used.
#[derive(Clone, Copy)]
pub enum Unusable {
    NotThere,
    NotOpened,
    Length,
    Empty,
    TooLong,
    InUse,
    NotLocked,
    NotMade,
    NotARegistrationFile,
    Version,
    Failed,
    Forgotten,
    NoMemory,
}

impl SessionType {
    pub fn text(self) -> &'static str
        ensures { result.now ≡ session_type_text self }
    {
        match self {
            SessionType::Normal => "normal",
            SessionType::Discovery => "discovery",
        }
    }
}

impl Stayed {
    pub(crate) fn text(self) -> &'static str
        ensures { result.now ≡ stayed_text self }
    {
        match self {
            Stayed::NotOpened => "not_opened",
            Stayed::BadList => "bad_list",
            Stayed::Gone => "gone",
        }
    }
}

impl Access {
    /// The state of this code.
    pub fn of(code: u64) -> Access {
        match code {
            0 => Access::Optimized,
            1 => Access::NonOptimized,
            2 => Access::Standby,
            3 => Access::Unavailable,
            _ => Access::Unnamed,
        }
    }

    pub(crate) fn text(self) -> &'static str
        ensures { result.now ≡ access_text self }
    {
        match self {
            Access::Optimized => "0",
            Access::NonOptimized => "1",
            Access::Standby => "2",
            Access::Unavailable => "3",
            Access::Unnamed => "unnamed",
        }
    }
}

impl Action {
    pub(crate) fn text(self) -> &'static str
        ensures { result.now ≡ action_text self }
    {
        match self {
            Action::Register => "register",
            Action::Reserve => "reserve",
            Action::Release => "release",
            Action::Clear => "clear",
            Action::Preempt => "preempt",
            Action::PreemptAndAbort => "preempt_and_abort",
            Action::RegisterAndIgnore => "register_and_ignore_existing_key",
        }
    }
}

impl Operation {
    pub fn text(self) -> &'static str
        ensures { result.now ≡ operation_text self }
    {
        match self {
            Operation::Read => "read",
            Operation::Write => "write",
            Operation::CompareAndWrite => "compare_and_write",
            Operation::SynchronizeCache => "synchronize_cache",
            Operation::ReserveOut => "persistent_reserve_out",
            Operation::SetGroups => "set_target_port_groups",
            Operation::Other => "other",
        }
    }
}

impl Part {
    pub(crate) fn text(self) -> &'static str
        ensures { result.now ≡ part_text self }
    {
        match self {
            Part::Disk => "disk",
            Part::Registrations => "registrations",
        }
    }
}

impl Call {
    pub fn text(self) -> &'static str
        ensures { result.now ≡ call_text self }
    {
        match self {
            Call::Open => "open",
            Call::Seek => "seek",
            Call::Read => "read",
            Call::Write => "write",
            Call::Flush => "flush",
        }
    }
}

impl Resource {
    pub(crate) fn text(self) -> &'static str
        ensures { result.now ≡ resource_text self }
    {
        match self {
            Resource::Memory => "memory",
            Resource::Thread => "thread",
            Resource::Descriptor => "descriptor",
            Resource::Connection => "connection",
        }
    }
}

impl Unusable {
    pub(crate) fn text(self) -> &'static str
        ensures { result.now ≡ unusable_text self }
    {
        match self {
            Unusable::NotThere => "not_there",
            Unusable::NotOpened => "not_opened",
            Unusable::Length => "length_no_multiple_of_512",
            Unusable::Empty => "empty",
            Unusable::TooLong => "too_long",
            Unusable::InUse => "in_use",
            Unusable::NotLocked => "not_locked",
            Unusable::NotMade => "not_made",
            Unusable::NotARegistrationFile => "no_registration_file",
            Unusable::Version => "unknown_version",
            Unusable::Failed => "device_failed",
            Unusable::Forgotten => "forgotten_by_a_reboot",
            Unusable::NoMemory => "no_memory",
        }
    }
}

/// The words of a login's status (RFC 7143, 11.13.5).
pub(crate) fn status_text(status: u16) -> &'static str
    ensures { result.now ≡ status_text status }
{
    match status {
        0x0200 => "Initiator error",
        0x0201 => "Authentication failure",
        0x0202 => "Authorization failure",
        0x0203 => "Not found",
        0x0204 => "Target removed",
        0x0205 => "Unsupported version",
        0x0206 => "Too many connections",
        0x0207 => "Missing parameter",
        0x0208 => "Can't include in session",
        0x0209 => "Session type not supported",
        0x020A => "Session does not exist",
        0x020B => "Invalid during login",
        0x0300 => "Target error",
        0x0301 => "Service unavailable",
        0x0302 => "Out of resources",
        _ => "other",
    }
}

/// The words of a Reject's reason (RFC 7143, 11.17.1).
pub(crate) fn reject_text(reason: u8) -> &'static str
    ensures { result.now ≡ reject_text reason }
{
    match reason {
        0x04 => "Protocol Error",
        0x05 => "Command not supported",
        0x09 => "Invalid PDU field",
        _ => "other",
    }
}

/// The name of an error of the system, as Linux numbers them.
pub fn error_text(error: u32) -> &'static str
    ensures { result.now ≡ error_text error }
{
    match error {
        0 => "none",
        1 => "EPERM",
        2 => "ENOENT",
        5 => "EIO",
        6 => "ENXIO",
        9 => "EBADF",
        11 => "EAGAIN",
        12 => "ENOMEM",
        13 => "EACCES",
        16 => "EBUSY",
        19 => "ENODEV",
        20 => "ENOTDIR",
        21 => "EISDIR",
        22 => "EINVAL",
        23 => "ENFILE",
        24 => "EMFILE",
        27 => "EFBIG",
        28 => "ENOSPC",
        30 => "EROFS",
        36 => "ENAMETOOLONG",
        40 => "ELOOP",
        61 => "ENODATA",
        67 => "ENOLINK",
        84 => "EILSEQ",
        92 => "ENOPROTOOPT",
        95 => "EOPNOTSUPP",
        98 => "EADDRINUSE",
        99 => "EADDRNOTAVAIL",
        110 => "ETIMEDOUT",
        116 => "ESTALE",
        121 => "EREMOTEIO",
        122 => "EDQUOT",
        _ => "other",
    }
}
