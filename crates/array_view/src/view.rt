//! What is seen of an array at one look.

/// How often something was counted, and what that is called.
#[derive(Drop)]
pub struct NamedCount {
    pub what: &'static str,
    pub count: u64,
}

/// What is counted of commands.
#[derive(Drop)]
pub struct Commands {
    /// By their operations.
    pub operations: Vec<NamedCount>,
    pub read_bytes: u64,
    pub written_bytes: u64,
    pub good: u64,
    pub reservation_conflicts: u64,
    pub busy: u64,
    /// CHECK CONDITION by sense key, from 0 to 15.
    pub sense_keys: Vec<u64>,
    /// Those that asked for a flush before their answer, and those of them that ended with MEDIUM ERROR.
    pub flushes: u64,
    pub failed_flushes: u64,
    /// By the times that they took: of each bound, and of what is above the last one.
    pub buckets: Vec<u64>,
    /// The times that they took together.
    pub micros: u64,
}

/// A unit by a controller.
pub struct PathView {
    pub controller: u64,
    /// Its asymmetric access state (SPC-4, 5.15.2.2), as a number and in words.
    pub state: u64,
    pub state_words: &'static str,
    pub commands: Commands,
}

impl Drop for PathView {
    fn drop(self) {
        let Self {
            controller: _,
            state: _,
            state_words: _,
            commands: _,
        } = self;
    }
}

/// A registration, as READ FULL STATUS tells it (SPC-4, 6.15.5).
pub struct Registration {
    /// The InitiatorName; and as the log spells names.
    pub initiator: String,
    pub spelled: String,
    /// The ISID and the reservation key, in hexadecimal.
    pub isid: String,
    pub key: String,
    /// The group of the portals by which its nexus comes.
    pub controller: u64,
    pub is_holder: bool,
    /// The type of the reservation that it holds (SPC-4, table 56), or 0.
    pub reservation_type: u64,
}

impl Drop for Registration {
    fn drop(self) {
        let Self {
            initiator: _,
            spelled: _,
            isid: _,
            key: _,
            controller: _,
            is_holder: _,
            reservation_type: _,
        } = self;
    }
}

/// Calls of one kind on a file of a unit that failed. Times are seconds after the beginning of 1970.
#[derive(Drop)]
pub struct FailureView {
    /// `disk` or `registrations`; the call, or `hung` for one that took longer than the deadline.
    pub file: &'static str,
    pub call: &'static str,
    /// How many failed since the array's start, and how many of them are not over.
    pub count: u64,
    pub lasting: u64,
    /// Nothing of the kind has gone well since.
    pub is_now: bool,
    /// When the first one failed since all was well, when the last one did, and when it went well again.
    pub began: u64,
    pub last: u64,
    pub ended: Option<u64>,
    /// The system's error of the last one, 0 where it told none, and its name.
    pub errno: u64,
    pub error: &'static str,
}

/// A unit.
pub struct UnitView {
    pub unit: u64,
    /// The controller that owns it, 1 or 2.
    pub owner: u64,
    /// The generation of its registrations, and how many nexuses are registered.
    pub generation: u64,
    pub registrants: u64,
    /// The type of its persistent reservation (SPC-4, table 56), or 0.
    pub reservation_type: u64,
    /// Who they are. None: a command has the unit for long, or there was no memory for them.
    pub registrations: Option<Vec<Registration>>,
    /// How many entries its history has.
    pub entries: u64,
    /// By which hosts know it: the designator of type NAA and the serial number of its vital product data (SPC-4, 7.8), in hexadecimal
    /// and as text; and what dm-multipath makes of the first one.
    pub naa: String,
    pub serial: String,
    pub wwid: String,
    /// The names of its disk and of its registration file.
    pub disk: String,
    pub registration_file: String,
    /// How many blocks its disk has.
    pub blocks: u64,
    /// Its disk's health in words.
    pub health: &'static str,
    /// What may be wrong with it: 1 where it is.
    pub troubles: Vec<NamedCount>,
    /// What failed, also what is over.
    pub failures: Vec<FailureView>,
    /// Calls of the system that failed.
    pub disk_failures: Vec<NamedCount>,
    pub registration_failures: Vec<NamedCount>,
    /// How many of its files had a call that took longer than the deadline.
    pub hung: u64,
    /// For how long the oldest command is served.
    pub oldest_command_micros: u64,
    /// Bytes that were written to its disk and are not known to be flushed, and how many there may be; commands that waited for that before
    /// they wrote, and for how many microseconds together; flushes that no command asked for.
    pub unflushed_bytes: u64,
    pub unflushed_bound_bytes: u64,
    pub waited_writes: u64,
    pub waited_micros: u64,
    pub own_flushes: u64,
    pub paths: Vec<PathView>,
}

impl Drop for UnitView {
    fn drop(self) {
        let Self {
            unit: _,
            owner: _,
            generation: _,
            registrants: _,
            reservation_type: _,
            registrations: _,
            entries: _,
            naa: _,
            serial: _,
            wwid: _,
            disk: _,
            registration_file: _,
            blocks: _,
            health: _,
            troubles: _,
            failures: _,
            disk_failures: _,
            registration_failures: _,
            hung: _,
            oldest_command_micros: _,
            unflushed_bytes: _,
            unflushed_bound_bytes: _,
            waited_writes: _,
            waited_micros: _,
            own_flushes: _,
            paths: _,
        } = self;
    }
}

/// A session.
pub struct SessionView {
    /// The InitiatorName; and as the log spells names.
    pub initiator: String,
    pub spelled: String,
    /// The ISID, in hexadecimal.
    pub isid: String,
    pub tsih: u64,
    pub kind: &'static str,
    pub is_discovery: bool,
    pub controller: u64,
    pub portal: String,
    pub peer: String,
    /// Since how many seconds after the beginning of 1970.
    pub since: u64,
    /// The operation of its last command, where there was one.
    pub last_command: Option<&'static str>,
    /// For how many microseconds that one has ended.
    pub idle_micros: Option<u64>,
    pub commands: u64,
}

impl Drop for SessionView {
    fn drop(self) {
        let Self {
            initiator: _,
            spelled: _,
            isid: _,
            tsih: _,
            kind: _,
            is_discovery: _,
            controller: _,
            portal: _,
            peer: _,
            since: _,
            last_command: _,
            idle_micros: _,
            commands: _,
        } = self;
    }
}

/// A controller.
pub struct Controller {
    pub controller: u64,
    /// No unit is served by it.
    pub is_down: bool,
    pub portals: Vec<String>,
    pub sessions: u64,
    /// Those of them that are discovery sessions.
    pub discoveries: u64,
}

impl Drop for Controller {
    fn drop(self) {
        let Self {
            controller: _,
            is_down: _,
            portals: _,
            sessions: _,
            discoveries: _,
        } = self;
    }
}

/// An array.
pub struct ArrayView {
    pub version: &'static str,
    pub target: String,
    pub array: u64,
    /// Since how many seconds after the beginning of 1970 it is served, and for how many microseconds.
    pub since: u64,
    pub uptime_micros: u64,
    pub controllers: Vec<Controller>,
    pub units: Vec<UnitView>,
    pub sessions: Vec<SessionView>,
    pub logins: u64,
    pub refused_logins: Vec<NamedCount>,
    /// The longest times of the buckets of times.
    pub bounds_micros: Vec<u64>,
    /// What is wrong, a sentence each; and what is served, but by less than there is.
    pub problems: Vec<String>,
    pub degraded: Vec<String>,
}

impl Drop for ArrayView {
    fn drop(self) {
        let Self {
            version: _,
            target: _,
            array: _,
            since: _,
            uptime_micros: _,
            controllers: _,
            units: _,
            sessions: _,
            logins: _,
            refused_logins: _,
            bounds_micros: _,
            problems: _,
            degraded: _,
        } = self;
    }
}

impl PathView {
    /// Whether READ and WRITE are served by it (SPC-4, 5.15.2.4): active/optimized, or active/non-optimized.
    pub fn is_served(&self) -> bool {
        self.state < 2
    }
}

/// An access state in words.
pub fn state_words(state: u64) -> &'static str {
    match state {
        0 => "active/optimized",
        1 => "active/non-optimized",
        2 => "standby",
        3 => "unavailable",
        14 => "offline",
        15 => "transitioning",
        _ => "unknown",
    }
}
