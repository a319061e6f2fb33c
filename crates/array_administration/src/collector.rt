//! What the window collects of the array.

use crate::administered::Administered;
use array_view::{ArrayView, Controller, PathView, Registration, SessionView, Signs, UnitView};
use command_line::Options;
use event_log::Log;
use events::SessionType;
use meters::{BOUNDS, Point, Seen, UnitHappenings};
use scsi_types::Group;
use status::Row;
use std::alloc::{AllocError, Global};
use std::net::SocketAddrV4;
use std::sync::atomic::{AtomicU64, Ordering};
use std::sync::{Arc, Wait};
use std::time::{Clock, Duration};
use window::{Collector, Seen as Shown};

/// What does not change while the array is served, as it is shown.
#[derive(Drop)]
struct Fixed {
    version: &'static str,
    target: String,
    array: u64,
    disks: Vec<String>,
    // When the clock that never goes back began, in microseconds after the beginning of 1970, as the other clock was set last.
    origin: AtomicU64,
}

/// What collects the state of the array while it is served.
pub(crate) struct ArrayCollector<R: Wait + Clock + Drop, A: Administered + Drop> {
    pub(crate) rt: R,
    pub(crate) array: Arc<A, Global>,
    fixed: Fixed,
    // When it began to be served: since the beginning of 1970, and by the clock that never goes back.
    began_1970: Duration,
    began: Duration,
}

impl<R: Wait + Clock + Drop, A: Administered + Drop> Drop for ArrayCollector<R, A> {
    fn drop(self) {
        let Self {
            rt: _,
            array: _,
            fixed: _,
            began_1970: _,
            began: _,
        } = self;
    }
}

// The parts of what is shown, each made by a call that may want memory: whether one did is told at the end.
#[derive(Drop)]
struct Parts {
    alloc: Global,
    is_wanting: bool,
}

impl Parts {
    // None yet.
    fn new(alloc: Global) -> Parts {
        Parts {
            alloc,
            is_wanting: false,
        }
    }

    // A text that was made; an empty one for want of memory.
    fn text(&mut self, made: Result<String, AllocError>) -> String {
        match made {
            Ok(text) => text,
            Err(_) => {
                self.is_wanting = true;
                String::new(self.alloc)
            }
        }
    }

    // A list likewise.
    fn list<T: Drop>(&mut self, made: Result<Vec<T>, AllocError>) -> Vec<T> {
        match made {
            Ok(list) => list,
            Err(_) => {
                self.is_wanting = true;
                Vec::new(self.alloc)
            }
        }
    }

    // Puts what was made behind a list.
    fn put<T: Drop>(&mut self, list: &mut Vec<T>, made: Result<T, AllocError>) {
        let is_put = match made {
            Ok(item) => list.push(item).is_ok(),
            Err(_) => false,
        };
        self.is_wanting = self.is_wanting || !is_put;
    }

    // What was made of them, unless memory was wanting.
    fn whole<T: Drop>(self, made: T) -> Result<T, AllocError> {
        if self.is_wanting {
            return Err(AllocError);
        }
        Ok(made)
    }
}

// What the words on the command line ask for, as it is shown.
fn fixed_by(
    alloc: Global,
    options: &Options<'_>,
    version: &'static str,
    origin: u64,
) -> Result<Fixed, AllocError> {
    let mut parts = Parts::new(alloc);
    let mut disks = Vec::new(alloc);
    for path in &options.paths {
        parts.put(&mut disks, array_view::named(alloc, path.as_bytes()));
    }
    let target = parts.text(array_view::named(alloc, options.target.as_bytes()));
    parts.whole(Fixed {
        version,
        target,
        array: u64::from(options.array),
        disks,
        origin: AtomicU64::new(origin),
    })
}

// The ways to a unit: by each controller, in which state, and with what was counted there.
fn paths_of(
    alloc: Global,
    place: usize,
    row: Row,
    seen: &Seen,
) -> Result<Vec<PathView>, AllocError> {
    let first = place.saturating_mul(2);
    let second = first.saturating_add(1);
    let (mut parts, mut paths) = (Parts::new(alloc), Vec::new(alloc));
    parts.put(
        &mut paths,
        array_view::path(alloc, 1, row.states.0, seen.counts.get(first)),
    );
    parts.put(
        &mut paths,
        array_view::path(alloc, 2, row.states.1, seen.counts.get(second)),
    );
    parts.whole(paths)
}

// The disk at a place.
fn disk_at(disks: &[String], place: usize) -> &str {
    match disks.get(place) {
        Some(disk) => disk.as_str(),
        None => "",
    }
}

// A unit as it is shown, of which something was counted. Hosts know it by the designator of type NAA and the serial number, as `identity`
// spells them, and by what dm-multipath makes of the first one.
fn unit_of(
    alloc: Global,
    place: usize,
    row: Row,
    registrations: Option<Vec<Registration>>,
    fixed: &Fixed,
    seen: &Seen,
    happened: &UnitHappenings,
) -> Result<UnitView, AllocError> {
    let mut parts = Parts::new(alloc);
    let (array, disk) = (fixed.array, disk_at(&fixed.disks, place));
    let naa = parts.text(format!(in alloc; "3000{array:08x}00{place:02x}"));
    let wwid = parts.text(format!(in alloc; "3{naa}"));
    let oldest = seen.oldest.get(place).copied().unwrap_or(0);
    let signs = Signs {
        oldest,
        silent: seen.silent.get(place).copied().unwrap_or(0),
        seen: Some(happened),
    };
    let origin = fixed.origin.load(Ordering::Relaxed);
    let unit = UnitView {
        unit: place as u64,
        owner: row.owner,
        generation: row.generation,
        registrants: row.registrants,
        registrations,
        reservation_type: row.kind,
        entries: row.entries,
        naa,
        serial: parts.text(format!(in alloc; "{array:08x}{place:02}")),
        wwid,
        disk: parts.text(String::from_str(alloc, disk)),
        registration_file: parts.text(format!(in alloc; "{disk}.reg")),
        blocks: happened.blocks,
        health: array_view::health_words(&signs),
        troubles: parts.list(array_view::trouble_tallies(alloc, &signs)),
        failures: parts.list(array_view::failure_views(alloc, origin, happened)),
        disk_failures: parts.list(array_view::failures(alloc, &happened.disk)),
        registration_failures: parts.list(array_view::failures(alloc, &happened.registrations)),
        hung: happened
            .disk_hung
            .count
            .wrapping_add(happened.registrations_hung.count),
        oldest_command_micros: oldest,
        unflushed_bytes: happened.unflushed.bytes,
        unflushed_bound_bytes: happened.unflushed.bound,
        waited_writes: happened.unflushed.waits,
        waited_micros: happened.unflushed.waited_micros,
        own_flushes: happened.unflushed.own_flushes,
        paths: parts.list(paths_of(alloc, place, row, seen)),
    };
    parts.whole(unit)
}

// Whether no unit is served by a controller.
fn is_down(units: &[UnitView], controller: u64) -> bool {
    for unit in units {
        for path in &unit.paths {
            if path.controller == controller && path.is_served() {
                return false;
            }
        }
    }
    true
}

// How many sessions came by a controller, and how many of these are for discovery.
fn count_sessions(seen: &Seen, tag: u64) -> (u64, u64) {
    let (mut sessions, mut discoveries) = (0u64, 0u64);
    for session in &seen.sessions {
        if u64::from(session.who.path.tag) == tag {
            sessions = sessions.saturating_add(1);
            if let SessionType::Discovery = session.who.kind {
                discoveries = discoveries.saturating_add(1);
            }
        }
    }
    (sessions, discoveries)
}

// A controller with its portals, and how many of these sessions came by it.
fn controller_of(
    alloc: Global,
    group: Group,
    portals: &[SocketAddrV4],
    units: &[UnitView],
    seen: &Seen,
) -> Result<Controller, AllocError> {
    let tag = u64::from(group.number());
    let (mut parts, mut addresses) = (Parts::new(alloc), Vec::new(alloc));
    for portal in portals {
        parts.put(&mut addresses, format!(in alloc; "{portal}"));
    }
    let (sessions, discoveries) = count_sessions(seen, tag);
    parts.whole(Controller {
        controller: tag,
        is_down: is_down(units, tag),
        portals: addresses,
        sessions,
        discoveries,
    })
}

// Both controllers.
fn controllers_of<A: Administered>(
    alloc: Global,
    array: &A,
    units: &[UnitView],
    seen: &Seen,
) -> Result<Vec<Controller>, AllocError> {
    let (mut parts, mut controllers) = (Parts::new(alloc), Vec::new(alloc));
    for group in &[Group::One, Group::Two] {
        let portals = array.portals(*group);
        parts.put(
            &mut controllers,
            controller_of(alloc, *group, portals, units, seen),
        );
    }
    parts.whole(controllers)
}

// The sessions that live, as they are shown.
fn sessions_of(alloc: Global, seen: &Seen) -> Result<Vec<SessionView>, AllocError> {
    let mut parts = Parts::new(alloc);
    let mut sessions = parts.list(Vec::with_capacity(alloc, seen.sessions.len()));
    for session in &seen.sessions {
        parts.put(&mut sessions, array_view::session(alloc, session));
    }
    parts.whole(sessions)
}

// The units: their rows, their registrations where they are shown, which may be missing, and what is counted of them.
fn units_of<R: Wait, A: Administered>(
    rt: &R,
    alloc: Global,
    array: &A,
    fixed: &Fixed,
    seen: &Seen,
    shown: Shown,
) -> Result<Vec<UnitView>, AllocError> {
    let (mut parts, mut units) = (Parts::new(alloc), Vec::new(alloc));
    for (place, happened) in seen.happened.units.iter().enumerate() {
        let Some(row) = array.row(rt, place) else {
            break;
        };
        // Nobody's lock is taken for what is not shown.
        let registrations = match shown {
            Shown::Status => array.registrations(alloc, place),
            Shown::Metrics | Shown::Health => None,
        };
        let unit = unit_of(alloc, place, row, registrations, fixed, seen, happened);
        parts.put(&mut units, unit);
    }
    parts.whole(units)
}

// Microseconds of a time; the greatest number where there are more.
fn micros(time: Duration) -> u64 {
    u64::try_from(time.as_micros()).unwrap_or(u64::MAX)
}

impl<R: Wait + Clock + Drop, A: Administered + Drop> ArrayCollector<R, A> {
    /// What collects the state of this array.
    pub(crate) fn new(
        rt: R,
        alloc: Global,
        options: &Options<'_>,
        version: &'static str,
        array: Arc<A, Global>,
    ) -> Result<ArrayCollector<R, A>, AllocError> {
        let began_1970 = rt.since_1970().unwrap_or(Duration::ZERO);
        let began = rt.monotonic().unwrap_or(Duration::ZERO);
        Ok(ArrayCollector {
            rt,
            array,
            fixed: fixed_by(
                alloc,
                options,
                version,
                micros(began_1970.saturating_sub(began)),
            )?,
            began_1970,
            began,
        })
    }

    /// The version of the program.
    pub(crate) fn version(&self) -> &'static str {
        self.fixed.version
    }

    // What is counted now. A log beside a window always counts.
    fn seen(&self, alloc: Global, now: Duration) -> Result<Seen, AllocError> {
        match self.array.log().meters() {
            Some(meters) => meters.look(&self.rt, alloc, now),
            None => Err(AllocError),
        }
    }
}

impl<R: Wait + Clock + Drop, A: Administered + Drop> Collector for ArrayCollector<R, A> {
    fn recent(&self, alloc: Global) -> Result<Vec<Point>, AllocError> {
        match self.array.log().meters() {
            Some(meters) => meters.recent(&self.rt, alloc),
            None => Ok(Vec::new(alloc)),
        }
    }

    fn collect(&self, alloc: Global, shown: Shown) -> Result<ArrayView, AllocError> {
        let now = self.rt.monotonic().unwrap_or(self.began);
        if let Ok(time) = self.rt.since_1970() {
            let origin = micros(time.saturating_sub(now));
            self.fixed.origin.store(origin, Ordering::Relaxed);
        }
        let seen = self.seen(alloc, now)?;
        let mut parts = Parts::new(alloc);
        let (array, log): (&A, &Log) = (&self.array, self.array.log());
        let units = parts.list(units_of(&self.rt, alloc, array, &self.fixed, &seen, shown));
        let controllers = parts.list(controllers_of(alloc, array, &units, &seen));
        let degraded = parts.list(array_view::degraded(alloc, &units, &controllers));
        let (is_stopping, is_failing) = (log.is_stopping(), log.is_failing());
        let problems = parts.list(array_view::problems(alloc, &units, is_stopping, is_failing));
        let view = ArrayView {
            version: self.fixed.version,
            target: parts.text(self.fixed.target.clone()),
            array: self.fixed.array,
            since: self.began_1970.as_secs(),
            uptime_micros: micros(now.saturating_sub(self.began)),
            controllers,
            units,
            sessions: parts.list(sessions_of(alloc, &seen)),
            logins: seen.happened.logins,
            refused_logins: parts.list(array_view::refusals(alloc, &seen.happened.refused)),
            bounds_micros: parts.list(Vec::from_slice(alloc, &BOUNDS)),
            problems,
            degraded,
        };
        parts.whole(view)
    }
}
