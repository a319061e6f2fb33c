//! What is measured, in lines.

use crate::line::Amount::{Count, Micros};
use crate::line::{Amount, Label, put_help, put_sample, put_type};
use crate::metric_names::{Metric, OF_ARRAY, OF_ROUTES, OF_UNITS, OfArray, OfPath, OfUnit};
use crate::view::{ArrayView, Commands, Controller, NamedCount, PathView, SessionView, UnitView};
use std::alloc::{AllocError, Global};

/// The bounds of the buckets of times in seconds, as labels tell them.
const BOUND_TEXTS: [&str; 14] = [
    "0.00001", "0.00002", "0.00005", "0.0001", "0.00025", "0.0005", "0.001", "0.0025", "0.01",
    "0.05", "0.25", "1", "2.5", "10",
];

/// The length of a block, in bytes.
const BLOCK: u64 = 512;

/// The sense key of a COMPARE AND WRITE that found a difference (SPC-4, table 43).
const MISCOMPARE: usize = 14;

// The lines that are written. They keep whether all of them could be, and from the first failure on no more are written.
#[derive(Drop)]
struct Lines {
    text: String,
    are_whole: bool,
}

impl Lines {
    // A metric begins: what it tells, and its type.
    fn begin(&mut self, name: &str, kind: &str, words: &str) {
        self.are_whole = self.are_whole
            && put_help(&mut self.text, name, words).is_ok()
            && put_type(&mut self.text, name, kind).is_ok();
    }

    // A sample of it.
    fn put(&mut self, name: &str, labels: &[Label<'_>], amount: Amount) {
        self.are_whole = self.are_whole && put_sample(&mut self.text, name, labels, amount).is_ok();
    }
}

// The version, and the target's name.
fn build(lines: &mut Lines, name: &str, view: &ArrayView) {
    let version = Label::Word("version", view.version);
    let target = Label::Name("target", view.target.as_bytes());
    let array = Label::Number("array", view.array);
    lines.put(name, &[version, target, array], Count(1));
}

// Logins that were refused, by what was lacking.
fn refused(lines: &mut Lines, name: &str, tallies: &[NamedCount]) {
    for tally in tallies {
        lines.put(
            name,
            &[Label::Word("cause", tally.what)],
            Count(tally.count),
        );
    }
}

// The label of a controller.
fn controller_label(controller: &Controller) -> Label<'static> {
    Label::Number("controller", controller.controller)
}

// Whether each controller is down.
fn downs(lines: &mut Lines, name: &str, controllers: &[Controller]) {
    for controller in controllers {
        let is_down = Count(u64::from(controller.is_down));
        lines.put(name, &[controller_label(controller)], is_down);
    }
}

// Sessions by their controller, of which some are for discovery.
fn sessions(lines: &mut Lines, name: &str, controllers: &[Controller]) {
    for controller in controllers {
        let label = controller_label(controller);
        let (all, discoveries) = (controller.sessions, controller.discoveries);
        let normal = Label::Word("type", "normal");
        let others = Count(all.saturating_sub(discoveries));
        lines.put(name, &[label, normal], others);
        let discovery = Label::Word("type", "discovery");
        lines.put(name, &[label, discovery], Count(discoveries));
    }
}

// The labels of a session.
fn labels_of(session: &SessionView) -> [Label<'_>; 4] {
    [
        Label::Name("initiator", session.initiator.as_bytes()),
        Label::Name("isid", session.isid.as_bytes()),
        Label::Number("tsih", session.tsih),
        Label::Number("controller", session.controller),
    ]
}

// Commands of each session but the discovery sessions, which have none: whoever comes may name as many of these as he likes.
fn of_sessions(lines: &mut Lines, name: &str, sessions: &[SessionView]) {
    for session in sessions {
        if !session.is_discovery {
            lines.put(name, &labels_of(session), Count(session.commands));
        }
    }
}

// What is measured of the array, where it is one number.
fn amount_of_array(view: &ArrayView, what: OfArray) -> Option<Amount> {
    match what {
        OfArray::Start => Some(Count(view.since)),
        OfArray::Uptime => Some(Micros(view.uptime_micros)),
        OfArray::Problems => Some(Count(view.problems.len() as u64)),
        OfArray::Degraded => Some(Count(view.degraded.len() as u64)),
        OfArray::Logins => Some(Count(view.logins)),
        OfArray::Build
        | OfArray::ControllersDown
        | OfArray::RefusedLogins
        | OfArray::Sessions
        | OfArray::SessionCommands => None,
    }
}

// A metric of the array.
fn of_array(lines: &mut Lines, view: &ArrayView, metric: Metric<OfArray>) {
    let (what, name, kind, words) = metric;
    lines.begin(name, kind, words);
    if let Some(amount) = amount_of_array(view, what) {
        lines.put(name, &[], amount);
        return;
    }
    match what {
        OfArray::Build => build(lines, name, view),
        OfArray::ControllersDown => downs(lines, name, &view.controllers),
        OfArray::RefusedLogins => refused(lines, name, &view.refused_logins),
        OfArray::Sessions => sessions(lines, name, &view.controllers),
        _ => of_sessions(lines, name, &view.sessions),
    }
}

// The labels of a unit, and of it by a controller.
fn unit_label(unit: &UnitView) -> Label<'static> {
    Label::Number("unit", unit.unit)
}

fn path_label(path: &PathView) -> Label<'static> {
    Label::Number("controller", path.controller)
}

// The disk of a unit, and what hosts know it by.
fn disk(lines: &mut Lines, name: &str, unit: &UnitView) {
    let disk = Label::Name("disk", unit.disk.as_bytes());
    let naa = Label::Word("naa", unit.naa.as_str());
    let wwid = Label::Word("wwid", unit.wwid.as_str());
    let serial = Label::Word("serial", unit.serial.as_str());
    lines.put(name, &[unit_label(unit), disk, naa, wwid, serial], Count(1));
}

// The calls of a file of a unit that failed.
fn failures(lines: &mut Lines, name: &str, unit: &UnitView, file: &str, failures: &[NamedCount]) {
    for tally in failures {
        let labels = &[
            unit_label(unit),
            Label::Word("file", file),
            Label::Word("call", tally.what),
        ];
        lines.put(name, labels, Count(tally.count));
    }
}

// Those of both.
fn all_failures(lines: &mut Lines, name: &str, unit: &UnitView) {
    failures(lines, name, unit, "disk", &unit.disk_failures);
    failures(
        lines,
        name,
        unit,
        "registrations",
        &unit.registration_failures,
    );
}

// What may be wrong with a unit.
fn troubles(lines: &mut Lines, name: &str, unit: &UnitView) {
    for tally in &unit.troubles {
        let labels = &[unit_label(unit), Label::Word("trouble", tally.what)];
        lines.put(name, labels, Count(tally.count));
    }
}

// What is measured of a unit, where it is one number.
fn amount_of(unit: &UnitView, what: OfUnit) -> Option<Amount> {
    match what {
        OfUnit::Owner => Some(Count(unit.owner)),
        OfUnit::Generation => Some(Count(unit.generation)),
        OfUnit::Registrants => Some(Count(unit.registrants)),
        OfUnit::ReservationType => Some(Count(unit.reservation_type)),
        OfUnit::Entries => Some(Count(unit.entries)),
        OfUnit::Bytes => Some(Count(BLOCK.saturating_mul(unit.blocks))),
        OfUnit::OldestCommand => Some(Micros(unit.oldest_command_micros)),
        OfUnit::Hung => Some(Count(unit.hung)),
        OfUnit::Unflushed => Some(Count(unit.unflushed_bytes)),
        OfUnit::UnflushedBound => Some(Count(unit.unflushed_bound_bytes)),
        OfUnit::WaitedWrites => Some(Count(unit.waited_writes)),
        OfUnit::WriteWaits => Some(Micros(unit.waited_micros)),
        OfUnit::OwnFlushes => Some(Count(unit.own_flushes)),
        OfUnit::Disk | OfUnit::Failures | OfUnit::Troubles => None,
    }
}

// It.
fn of_unit(lines: &mut Lines, name: &str, unit: &UnitView, what: OfUnit) {
    if let Some(amount) = amount_of(unit, what) {
        lines.put(name, &[unit_label(unit)], amount);
        return;
    }
    match what {
        OfUnit::Disk => disk(lines, name, unit),
        OfUnit::Failures => all_failures(lines, name, unit),
        _ => troubles(lines, name, unit),
    }
}

// A metric of each unit.
fn of_units(lines: &mut Lines, units: &[UnitView], metric: Metric<OfUnit>) {
    let (what, name, kind, words) = metric;
    lines.begin(name, kind, words);
    for unit in units {
        of_unit(lines, name, unit, what);
    }
}

// A count of a unit by a controller, with a label more.
fn of_three(
    lines: &mut Lines,
    name: &str,
    unit: &UnitView,
    path: &PathView,
    label: Label<'_>,
    number: u64,
) {
    let labels = &[unit_label(unit), path_label(path), label];
    lines.put(name, labels, Count(number));
}

// How many commands ended with CHECK CONDITION and this sense key.
fn checks(commands: &Commands, key: usize) -> u64 {
    match commands.sense_keys.get(key) {
        Some(count) => *count,
        None => 0,
    }
}

// How many ended with CHECK CONDITION.
fn all_checks(commands: &Commands) -> u64 {
    let mut all = 0u64;
    for count in &commands.sense_keys {
        all = all.wrapping_add(*count);
    }
    all
}

// The commands of a unit by a controller, by their operations.
fn operations(lines: &mut Lines, name: &str, unit: &UnitView, path: &PathView) {
    for tally in &path.commands.operations {
        let label = Label::Word("operation", tally.what);
        of_three(lines, name, unit, path, label, tally.count);
    }
}

// Commands by the status with which they ended.
fn ends(commands: &Commands) -> [(&'static str, u64); 4] {
    [
        ("good", commands.good),
        ("check_condition", all_checks(commands)),
        ("reservation_conflict", commands.reservation_conflicts),
        ("busy", commands.busy),
    ]
}

// Those of a unit by a controller.
fn statuses(lines: &mut Lines, name: &str, unit: &UnitView, path: &PathView) {
    for (status, count) in &ends(&path.commands) {
        let label = Label::Word("status", *status);
        of_three(lines, name, unit, path, label, *count);
    }
}

// Those that ended with CHECK CONDITION, by their sense key.
fn keys(lines: &mut Lines, name: &str, unit: &UnitView, path: &PathView) {
    for (key, count) in path.commands.sense_keys.iter().enumerate() {
        let label = Label::Hex("sense_key", key as u64);
        of_three(lines, name, unit, path, label, *count);
    }
}

// The bound of a bucket of times.
fn bound_text(place: usize) -> &'static str {
    match BOUND_TEXTS.get(place) {
        Some(bound) => *bound,
        None => "+Inf",
    }
}

// The buckets of the times that commands of a unit took by a controller; returns how many commands there were.
fn buckets(lines: &mut Lines, unit: &UnitView, path: &PathView) -> u64 {
    let mut all = 0u64;
    for (place, count) in path.commands.buckets.iter().enumerate() {
        all = all.wrapping_add(*count);
        let label = Label::Word("le", bound_text(place));
        of_three(
            lines,
            "arrayd_command_duration_seconds_bucket",
            unit,
            path,
            label,
            all,
        );
    }
    all
}

// These times.
fn times(lines: &mut Lines, unit: &UnitView, path: &PathView) {
    let all = buckets(lines, unit, path);
    let labels = &[unit_label(unit), path_label(path)];
    let sum = Micros(path.commands.micros);
    lines.put("arrayd_command_duration_seconds_sum", labels, sum);
    lines.put("arrayd_command_duration_seconds_count", labels, Count(all));
}

// What is measured of a unit by a controller, where it is one number.
fn count_of(path: &PathView, what: OfPath) -> Option<u64> {
    let commands = &path.commands;
    match what {
        OfPath::State => Some(path.state),
        OfPath::Read => Some(commands.read_bytes),
        OfPath::Written => Some(commands.written_bytes),
        OfPath::Conflicts => Some(commands.reservation_conflicts),
        OfPath::Busy => Some(commands.busy),
        OfPath::Miscompares => Some(checks(commands, MISCOMPARE)),
        OfPath::Flushes => Some(commands.flushes),
        OfPath::FailedFlushes => Some(commands.failed_flushes),
        OfPath::Operations | OfPath::Statuses | OfPath::SenseKeys | OfPath::Times => None,
    }
}

// It.
fn of_path(lines: &mut Lines, name: &str, unit: &UnitView, path: &PathView, what: OfPath) {
    if let Some(count) = count_of(path, what) {
        let labels = &[unit_label(unit), path_label(path)];
        lines.put(name, labels, Count(count));
        return;
    }
    match what {
        OfPath::Operations => operations(lines, name, unit, path),
        OfPath::Statuses => statuses(lines, name, unit, path),
        OfPath::SenseKeys => keys(lines, name, unit, path),
        _ => times(lines, unit, path),
    }
}

// A metric of a unit by each controller.
fn of_paths(lines: &mut Lines, name: &str, unit: &UnitView, what: OfPath) {
    for path in &unit.paths {
        of_path(lines, name, unit, path, what);
    }
}

// A metric of each unit by each controller.
fn of_all_paths(lines: &mut Lines, units: &[UnitView], metric: Metric<OfPath>) {
    let (what, name, kind, words) = metric;
    lines.begin(name, kind, words);
    for unit in units {
        of_paths(lines, name, unit, what);
    }
}

// All metrics of units, and all of units by controllers.
fn all_of_units(lines: &mut Lines, units: &[UnitView]) {
    for metric in &OF_UNITS {
        of_units(lines, units, *metric);
    }
}

fn all_of_paths(lines: &mut Lines, units: &[UnitView]) {
    for metric in &OF_ROUTES {
        of_all_paths(lines, units, *metric);
    }
}

// Everything.
fn all(lines: &mut Lines, view: &ArrayView) {
    for metric in &OF_ARRAY {
        of_array(lines, view, *metric);
    }
    all_of_units(lines, &view.units);
    all_of_paths(lines, &view.units);
}

/// What is measured of an array, in lines.
pub fn metrics(alloc: Global, view: &ArrayView) -> Result<String, AllocError> {
    let mut lines = Lines {
        text: String::new(alloc),
        are_whole: true,
    };
    all(&mut lines, view);
    if lines.are_whole {
        Ok(lines.text)
    } else {
        Err(AllocError)
    }
}
