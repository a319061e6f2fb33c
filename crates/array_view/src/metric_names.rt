//! What is measured, and by which names.

/// A metric: what it measures, its name, its type, and what it tells.
pub(crate) type Metric<T> = (T, &'static str, &'static str, &'static str);

/// What is measured of an array.
#[derive(Clone, Copy)]
pub(crate) enum OfArray {
    Build,
    Start,
    Uptime,
    Problems,
    Degraded,
    ControllersDown,
    Logins,
    RefusedLogins,
    Sessions,
    SessionCommands,
}

/// All of it, in the order of its lines.
pub(crate) static OF_ARRAY: [Metric<OfArray>; 10] = [
    (
        OfArray::Build,
        "arrayd_build_info",
        "gauge",
        "The version of the program, and the target's name.",
    ),
    (
        OfArray::Start,
        "arrayd_start_time_seconds",
        "gauge",
        "Since when after the beginning of 1970 the array is served.",
    ),
    (
        OfArray::Uptime,
        "arrayd_uptime_seconds",
        "gauge",
        "For how long the array is served.",
    ),
    (
        OfArray::Problems,
        "arrayd_problems",
        "gauge",
        "How many things are wrong; /health tells them.",
    ),
    (
        OfArray::Degraded,
        "arrayd_degraded",
        "gauge",
        "How many things are served by less than there is; /health tells them.",
    ),
    (
        OfArray::ControllersDown,
        "arrayd_controller_down",
        "gauge",
        "1 where no unit is served by the controller, else 0.",
    ),
    (
        OfArray::Logins,
        "arrayd_logins_total",
        "counter",
        "Logins that were done.",
    ),
    (
        OfArray::RefusedLogins,
        "arrayd_refused_logins_total",
        "counter",
        "Logins that were refused, by what was lacking.",
    ),
    (
        OfArray::Sessions,
        "arrayd_sessions",
        "gauge",
        "Sessions that are logged in, by what they are for.",
    ),
    (
        OfArray::SessionCommands,
        "arrayd_session_commands_total",
        "counter",
        "Commands of a session that is logged in, and is no discovery session.",
    ),
];

/// What is measured of a unit.
#[derive(Clone, Copy)]
pub(crate) enum OfUnit {
    Owner,
    Generation,
    Registrants,
    ReservationType,
    Entries,
    Bytes,
    OldestCommand,
    Disk,
    Failures,
    Hung,
    Troubles,
    Unflushed,
    UnflushedBound,
    WaitedWrites,
    WriteWaits,
    OwnFlushes,
}

/// All of it, in the order of its lines.
pub(crate) static OF_UNITS: [Metric<OfUnit>; 16] = [
    (
        OfUnit::Owner,
        "arrayd_unit_owner",
        "gauge",
        "The controller that owns the unit, 1 or 2.",
    ),
    (
        OfUnit::Generation,
        "arrayd_unit_reservation_generation",
        "gauge",
        "The generation of the unit's registrations.",
    ),
    (
        OfUnit::Registrants,
        "arrayd_unit_registrants",
        "gauge",
        "How many nexuses are registered with the unit.",
    ),
    (
        OfUnit::ReservationType,
        "arrayd_unit_reservation_type",
        "gauge",
        "The type of the unit's persistent reservation by SPC-4, or 0.",
    ),
    (
        OfUnit::Entries,
        "arrayd_unit_entries_total",
        "counter",
        "How many entries the unit's history has.",
    ),
    (
        OfUnit::Bytes,
        "arrayd_unit_size_bytes",
        "gauge",
        "How many bytes the unit has.",
    ),
    (
        OfUnit::OldestCommand,
        "arrayd_unit_oldest_command_seconds",
        "gauge",
        "For how long the unit's oldest command is served, 0 where none is.",
    ),
    (
        OfUnit::Disk,
        "arrayd_unit_info",
        "gauge",
        "The disk of the unit, and what hosts know it by.",
    ),
    (
        OfUnit::Failures,
        "arrayd_device_failures_total",
        "counter",
        "Calls of the system that failed, by the file and the call.",
    ),
    (
        OfUnit::Hung,
        "arrayd_device_hung_total",
        "counter",
        "Files of the unit a call on which took longer than the deadline.",
    ),
    (
        OfUnit::Troubles,
        "arrayd_unit_trouble",
        "gauge",
        "1 where this is so of the unit or of its disk, else 0.",
    ),
    (
        OfUnit::Unflushed,
        "arrayd_unit_unflushed_bytes",
        "gauge",
        "Bytes that were written to the unit's disk and are not flushed.",
    ),
    (
        OfUnit::UnflushedBound,
        "arrayd_unit_unflushed_bound_bytes",
        "gauge",
        "How many of these there may be before all who write much wait.",
    ),
    (
        OfUnit::WaitedWrites,
        "arrayd_unit_write_waits_total",
        "counter",
        "Commands that waited, before their unit was asked, until more was flushed.",
    ),
    (
        OfUnit::WriteWaits,
        "arrayd_unit_write_wait_seconds_total",
        "counter",
        "How long these commands waited together.",
    ),
    (
        OfUnit::OwnFlushes,
        "arrayd_unit_own_flushes_total",
        "counter",
        "Flushes of the unit's disk that no command asked for.",
    ),
];

/// What is measured of a unit by a controller.
#[derive(Clone, Copy)]
pub(crate) enum OfPath {
    State,
    Read,
    Written,
    Conflicts,
    Busy,
    Miscompares,
    Flushes,
    FailedFlushes,
    Operations,
    Statuses,
    SenseKeys,
    Times,
}

/// All of it, in the order of its lines.
pub(crate) static OF_ROUTES: [Metric<OfPath>; 12] = [
    (
        OfPath::State,
        "arrayd_path_state",
        "gauge",
        "The asymmetric access state by SPC-4: 0 active/optimized, 1 active/non-optimized, 2 standby, 3 unavailable.",
    ),
    (
        OfPath::Read,
        "arrayd_read_bytes_total",
        "counter",
        "Bytes that were read by commands that were GOOD.",
    ),
    (
        OfPath::Written,
        "arrayd_written_bytes_total",
        "counter",
        "Bytes that were written by commands that were GOOD.",
    ),
    (
        OfPath::Conflicts,
        "arrayd_reservation_conflicts_total",
        "counter",
        "Commands that ended with RESERVATION CONFLICT.",
    ),
    (
        OfPath::Busy,
        "arrayd_busy_total",
        "counter",
        "Commands that ended with BUSY.",
    ),
    (
        OfPath::Miscompares,
        "arrayd_miscompares_total",
        "counter",
        "COMPARE AND WRITE commands that found a difference.",
    ),
    (
        OfPath::Flushes,
        "arrayd_flushes_total",
        "counter",
        "SYNCHRONIZE CACHE commands, and WRITE and COMPARE AND WRITE commands with FUA.",
    ),
    (
        OfPath::FailedFlushes,
        "arrayd_failed_flushes_total",
        "counter",
        "Those of these commands that ended with MEDIUM ERROR.",
    ),
    (
        OfPath::Operations,
        "arrayd_commands_total",
        "counter",
        "Commands that were answered, by what they asked for.",
    ),
    (
        OfPath::Statuses,
        "arrayd_ended_commands_total",
        "counter",
        "Commands that were answered, by the status of SAM-5 with which they ended.",
    ),
    (
        OfPath::SenseKeys,
        "arrayd_check_conditions_total",
        "counter",
        "Commands that ended with CHECK CONDITION, by their sense key.",
    ),
    (
        OfPath::Times,
        "arrayd_command_duration_seconds",
        "histogram",
        "The time from a command's last byte to its answer.",
    ),
];
