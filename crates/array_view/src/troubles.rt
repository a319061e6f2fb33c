//! What is wrong with an array, in sentences.

use crate::made::tallies;
use crate::view::{ArrayView, Controller, FailureView, NamedCount, PathView, UnitView};
use events::{Stamp, error_text};
use meters::{CALLS_IN_ORDER, Failures, UnitHappenings};
use std::alloc::{AllocError, Global};
use std::time::Duration;

/// A command that is served for so many microseconds waits for a disk that hangs, or that answers late.
const HANGS: u64 = 10_000_000;

/// One that is served for so many waits for a disk that is slow.
const SLOW_COMMAND: u64 = 1_000_000;

/// Where calls are counted, the place of the flushes, which is the last one.
const FLUSHES: usize = 4;

/// The system's errors where there is no room: ENOSPC, and EDQUOT.
const NO_ROOM: u64 = 28;

const NO_QUOTA: u64 = 122;

/// What is shown as the call of a failure where the disk was to be looked at.
const SEEK: &str = "seek";

/// What is shown as the file and the call of failures.
const DISK: &str = "disk";

const REGISTRATIONS: &str = "registrations";

const OPEN: &str = "open";

const FLUSH: &str = "flush";

const HUNG: &str = "hung";

/// What is shown as the name of an error of the system that has none here.
const UNNAMED: &str = "other";

/// What may be wrong with a unit.
#[derive(Clone, Copy)]
pub enum Trouble {
    /// A call on its disk took longer than the deadline, or a command waits for it and none is answered.
    Hangs,
    /// A flush of its disk failed.
    FlushesLost,
    /// Another call on its disk failed, and none went well since.
    CallsFailed,
    /// A call on its registration file took longer than the deadline.
    SavesHang,
    /// A registration could not be saved, and none was since.
    Unsaved,
    /// A command waits as long as for a disk that hangs, while others are answered.
    AnswersLate,
    /// A command waits longer for its disk than one should.
    Slow,
    /// A file of it became longer.
    Grew,
}

/// All of them, the worst first.
const ALL: [Trouble; 8] = [
    Trouble::Hangs,
    Trouble::FlushesLost,
    Trouble::CallsFailed,
    Trouble::SavesHang,
    Trouble::Unsaved,
    Trouble::AnswersLate,
    Trouble::Slow,
    Trouble::Grew,
];

impl Trouble {
    // What it is called in labels and in JSON.
    fn name(self) -> &'static str {
        match self {
            Trouble::Hangs => "hangs",
            Trouble::FlushesLost => "flushes_lost",
            Trouble::CallsFailed => "calls_failed",
            Trouble::SavesHang => "registrations_hang",
            Trouble::Unsaved => "registrations_not_saved",
            Trouble::AnswersLate => "answers_late",
            Trouble::Slow => "slow",
            Trouble::Grew => "length_changed",
        }
    }

    // A disk's health in words, where this is the worst of it.
    fn health(self) -> &'static str {
        match self {
            Trouble::Hangs => "hangs",
            Trouble::FlushesLost => "flushes are lost",
            Trouble::CallsFailed => "calls on it fail",
            Trouble::SavesHang => "well, but its registration file hangs",
            Trouble::Unsaved => "well, but registrations cannot be saved",
            Trouble::AnswersLate => "answers late",
            Trouble::Slow => "slow",
            Trouble::Grew => "well, but longer than at the start",
        }
    }

    // What is to be told of it where it is wrong, as the page of trouble says it, where this failed.
    fn sentence(self, culprit: Option<&FailureView>) -> Option<&'static str> {
        match self {
            Trouble::Hangs => Some(
                "A disk hangs: commands of its unit wait, or fail where `ARRAYD_DEADLINE` is set. Sessions that do not touch the unit \
                go on with other units.",
            ),
            Trouble::FlushesLost => Some(
                "One flush failed, so what was written since the last good one may be lost. Taking the controller down does not heal \
                it. Stop writing, mend the disk, `quit`, start; then unmount on the hosts, check, and mount.",
            ),
            Trouble::CallsFailed => Some(failed_sentence(culprit)),
            Trouble::SavesHang => Some(
                "The registration file hangs: no registration is saved until it is back, so no node can be fenced at this unit. Reads \
                and writes go on.",
            ),
            Trouble::Unsaved => Some(unsaved_sentence(culprit)),
            Trouble::AnswersLate => Some(
                "A command waits for ten seconds and more, while others are answered: hosts ask more of a disk than it does, or one place \
                of it hangs.",
            ),
            Trouble::Slow | Trouble::Grew => None,
        }
    }

    // Whether it is these calls that make it so.
    fn is_by(self, failure: &FailureView) -> bool {
        let is_of_disk = failure.file == DISK;
        let is_flush = failure.call == FLUSH;
        let is_hung = failure.call == HUNG;
        match self {
            Trouble::Hangs => is_of_disk && is_hung && failure.is_now,
            Trouble::FlushesLost => is_of_disk && is_flush,
            Trouble::CallsFailed => is_of_disk && !is_flush && !is_hung && failure.is_now,
            Trouble::SavesHang => !is_of_disk && is_hung && failure.is_now,
            Trouble::Unsaved => !is_of_disk && !is_hung && failure.is_now,
            Trouble::AnswersLate | Trouble::Slow | Trouble::Grew => false,
        }
    }
}

// Whether this error comes from a device, so that the system's log tells more: EIO, ENXIO, ENODATA, ENOLINK, EILSEQ, ETIMEDOUT, EREMOTEIO.
fn is_of_device(errno: u64) -> bool {
    matches!(errno, 5 | 6 | 61 | 67 | 84 | 110 | 121)
}

// What is to be told of calls on a disk that failed.
fn failed_sentence(culprit: Option<&FailureView>) -> &'static str {
    let (call, errno) = match culprit {
        Some(failure) => (failure.call, failure.errno),
        None => ("", 0),
    };
    match errno {
        NO_ROOM | NO_QUOTA => "The file system is full: make room.",
        0 => "The disk became shorter than at the start, or its name is another's.",
        _ if call == OPEN => {
            "Its disk was not opened for the other controller: its name is gone or is another file's, or the open itself failed."
        }
        _ if is_of_device(errno) => {
            "The disk failed. The system's log (`dmesg`) says why. Of a write that failed each block is old or new."
        }
        _ if call == SEEK => "How long its disk is could not be asked: `error` says why.",
        _ => {
            "The system refused calls on its disk: `error` says why. Of a write that failed each block is old or new."
        }
    }
}

// What is to be told of a registration that could not be saved.
fn unsaved_sentence(culprit: Option<&FailureView>) -> &'static str {
    let is_flush = match culprit {
        Some(failure) => failure.call == FLUSH,
        None => false,
    };
    if is_flush {
        "Each later save fails too, so no node can be fenced at this unit: mend the disk, tell the array `quit`, and start it again."
    } else {
        "The registration could not be saved, so it was not made. Reads and writes are not concerned."
    }
}

/// What of a unit may be wrong.
#[derive(Clone, Copy)]
pub struct Signs<'a> {
    /// For how many microseconds its oldest command is served.
    pub oldest: u64,
    /// For how many none was answered.
    pub silent: u64,
    /// What was counted of it, where it was.
    pub seen: Option<&'a UnitHappenings>,
}

// Whether of calls of these kinds, those before a place, something failed, and nothing went well since.
fn any_now(calls: &[Failures], before: usize) -> bool {
    for (place, failures) in calls.iter().enumerate() {
        if place < before && failures.is_now {
            return true;
        }
    }
    false
}

// Whether a flush failed.
fn lost(calls: &[Failures]) -> bool {
    match calls.get(FLUSHES) {
        Some(failures) => failures.count != 0,
        None => false,
    }
}

impl Signs<'_> {
    // Whether this is so by what was counted.
    fn show_counted(&self, seen: &UnitHappenings, trouble: Trouble) -> bool {
        match trouble {
            Trouble::Hangs => seen.disk_hung.is_now,
            Trouble::FlushesLost => lost(&seen.disk),
            Trouble::CallsFailed => any_now(&seen.disk, FLUSHES),
            Trouble::SavesHang => seen.registrations_hung.is_now,
            Trouble::Unsaved => any_now(&seen.registrations, seen.registrations.len()),
            Trouble::AnswersLate | Trouble::Slow => false,
            Trouble::Grew => seen.grew != 0,
        }
    }

    // Whether this is so.
    fn show(&self, trouble: Trouble) -> bool {
        let is_long = match trouble {
            Trouble::Hangs => self.oldest >= HANGS && self.silent >= HANGS,
            Trouble::AnswersLate => self.oldest >= HANGS && self.silent < HANGS,
            Trouble::Slow => self.oldest >= SLOW_COMMAND && self.oldest < HANGS,
            _ => false,
        };
        match self.seen {
            Some(seen) => is_long || self.show_counted(seen, trouble),
            None => is_long,
        }
    }
}

/// What may be wrong with a unit: 1 where it is.
pub fn trouble_tallies(alloc: Global, signs: &Signs<'_>) -> Result<Vec<NamedCount>, AllocError> {
    let counts = ALL.map(|trouble| u64::from(signs.show(trouble)));
    tallies(alloc, &ALL.map(Trouble::name), &counts)
}

/// A disk's health in words.
pub fn health_words(signs: &Signs<'_>) -> &'static str {
    for trouble in &ALL {
        if signs.show(*trouble) {
            return trouble.health();
        }
    }
    "well"
}

// Failures as they are shown, by a clock that began so many microseconds after the beginning of 1970.
fn failure_view(
    origin: u64,
    file: &'static str,
    call: &'static str,
    failures: &Failures,
) -> FailureView {
    let second = |micros: u64| origin.saturating_add(micros) / 1_000_000;
    FailureView {
        file,
        call,
        count: failures.count,
        lasting: failures.lasting,
        is_now: failures.is_now,
        began: second(failures.began),
        last: second(failures.last),
        ended: if failures.is_now {
            None
        } else {
            Some(second(failures.ended))
        },
        errno: u64::from(failures.error),
        error: error_text(failures.error),
    }
}

// Notes calls of a kind on a file that failed, where there were any.
fn note_failures(
    views: &mut Vec<FailureView>,
    origin: u64,
    file: &'static str,
    call: &'static str,
    failures: &Failures,
) -> Result<(), AllocError> {
    if failures.count != 0 {
        views.push(failure_view(origin, file, call, failures))?;
    }
    Ok(())
}

// Notes those of each kind.
fn note_calls(
    views: &mut Vec<FailureView>,
    origin: u64,
    file: &'static str,
    calls: &[Failures],
) -> Result<(), AllocError> {
    for (call, failures) in CALLS_IN_ORDER.iter().zip(calls) {
        note_failures(views, origin, file, call.text(), failures)?;
    }
    Ok(())
}

// Notes those of both files, and behind them those that took longer than the deadline.
fn note_all(
    views: &mut Vec<FailureView>,
    origin: u64,
    seen: &UnitHappenings,
) -> Result<(), AllocError> {
    note_calls(views, origin, DISK, &seen.disk)?;
    note_calls(views, origin, REGISTRATIONS, &seen.registrations)?;
    note_failures(views, origin, DISK, HUNG, &seen.disk_hung)?;
    note_failures(views, origin, REGISTRATIONS, HUNG, &seen.registrations_hung)
}

/// What failed of a unit, also what is over, by a clock that began so many microseconds after the beginning of 1970.
pub fn failure_views(
    alloc: Global,
    origin: u64,
    seen: &UnitHappenings,
) -> Result<Vec<FailureView>, AllocError> {
    let mut views = Vec::new(alloc);
    note_all(&mut views, origin, seen)?;
    Ok(views)
}

// Puts a moment behind a text.
fn put_second(text: &mut String, what: &str, second: u64) -> Result<(), AllocError> {
    text.push_str(what)?;
    Stamp::of(Duration::from_secs(second)).put(text)
}

// Puts an error behind a text: its name, and the number of one that has none.
fn put_error(text: &mut String, failure: &FailureView) -> Result<(), AllocError> {
    let (error, errno) = (failure.error, failure.errno);
    write!(text, " error={error}")?;
    if error == UNNAMED {
        write!(text, " errno={errno}")?;
    }
    Ok(())
}

// Puts what failed behind a sentence, by the words of the log: how often, of what is not over.
fn put_failure(text: &mut String, failure: &FailureView) -> Result<(), AllocError> {
    let (call, count) = (failure.call, failure.lasting);
    write!(text, " call={call}")?;
    put_error(text, failure)?;
    write!(text, " count={count}")?;
    put_second(text, " began=", failure.began)?;
    put_second(text, " last=", failure.last)
}

// Sentences that are noted, and whether all of them could be.
#[derive(Drop)]
struct Sentences {
    alloc: Global,
    noted: Vec<String>,
    are_all: bool,
}

impl Sentences {
    fn new(alloc: Global) -> Sentences {
        Sentences {
            alloc,
            noted: Vec::new(alloc),
            are_all: true,
        }
    }

    fn note(&mut self, sentence: Result<String, AllocError>) {
        match sentence {
            Ok(sentence) => self.are_all = self.are_all && self.noted.push(sentence).is_ok(),
            Err(_) => self.are_all = false,
        }
    }

    fn end(self) -> Result<Vec<String>, AllocError> {
        if self.are_all {
            Ok(self.noted)
        } else {
            Err(AllocError)
        }
    }
}

// A sentence about the unit of this number, and what failed.
fn of_failure(
    alloc: Global,
    number: u64,
    sentence: &str,
    culprit: Option<&FailureView>,
) -> Result<String, AllocError> {
    let mut text = format!(in alloc; "unit {number}: {sentence}")?;
    if let Some(failure) = culprit {
        put_failure(&mut text, failure)?;
    }
    Ok(text)
}

// Notes a sentence for each call that makes this so of a unit: how many.
fn note_culprits(problems: &mut Sentences, unit: &UnitView, trouble: Trouble) -> usize {
    let mut count = 0usize;
    for failure in &unit.failures {
        if trouble.is_by(failure)
            && let Some(sentence) = trouble.sentence(Some(failure))
        {
            problems.note(of_failure(problems.alloc, unit.unit, sentence, Some(failure)));
            count = count.saturating_add(1);
        }
    }
    count
}

// Notes that this is wrong with a unit, where something is to be told of it.
fn note_trouble(problems: &mut Sentences, unit: &UnitView, trouble: Trouble) {
    if note_culprits(problems, unit, trouble) == 0
        && let Some(sentence) = trouble.sentence(None)
    {
        problems.note(of_failure(problems.alloc, unit.unit, sentence, None));
    }
}

// Notes what is wrong with a unit.
fn of_unit(problems: &mut Sentences, unit: &UnitView) {
    if unit.owner != 1 && unit.owner != 2 {
        let sentence = "no controller owns it";
        problems.note(of_failure(problems.alloc, unit.unit, sentence, None));
    }
    for (trouble, tally) in ALL.iter().zip(&unit.troubles) {
        if tally.count != 0 {
            note_trouble(problems, unit, *trouble);
        }
    }
}

/// What is wrong with these units, with an array that ends, and with a log that cannot be written, a sentence each.
pub fn problems(
    alloc: Global,
    units: &[UnitView],
    is_stopping: bool,
    log_fails: bool,
) -> Result<Vec<String>, AllocError> {
    let mut problems = Sentences::new(alloc);
    if is_stopping {
        problems.note(format!(in alloc; "The array ends: it takes no command in any more."));
    }
    if log_fails {
        problems.note(format!(in alloc; "The log cannot be written."));
    }
    for unit in units {
        of_unit(&mut problems, unit);
    }
    problems.end()
}

// Whether a controller is down.
fn is_down(controllers: &[Controller], number: u64) -> bool {
    for controller in controllers {
        if controller.controller == number {
            return controller.is_down;
        }
    }
    false
}

// Notes a path to a unit by which it is not served, though its controller serves others.
fn note_path(degraded: &mut Sentences, unit: u64, path: &PathView) {
    let (controller, state) = (path.controller, path.state_words);
    degraded.note(format!(in degraded.alloc;
        "unit {unit} is not served by controller {controller}: {state}"
    ));
}

// Notes the paths to a unit by which it is not served, but for those of a controller that is down.
fn note_paths(degraded: &mut Sentences, unit: &UnitView, controllers: &[Controller]) {
    for path in &unit.paths {
        if !path.is_served() && !is_down(controllers, path.controller) {
            note_path(degraded, unit.unit, path);
        }
    }
}

// Notes a controller that is down.
fn note_down(degraded: &mut Sentences, controller: &Controller) {
    if controller.is_down {
        let number = controller.controller;
        degraded.note(format!(in degraded.alloc;
            "controller {number} is down: no unit is served by it"
        ));
    }
}

/// What is served, but by less than there is, a sentence each.
pub fn degraded(
    alloc: Global,
    units: &[UnitView],
    controllers: &[Controller],
) -> Result<Vec<String>, AllocError> {
    let mut degraded = Sentences::new(alloc);
    for controller in controllers {
        note_down(&mut degraded, controller);
    }
    for unit in units {
        note_paths(&mut degraded, unit, controllers);
    }
    degraded.end()
}

// Puts lines behind a text, each with this front.
fn put_lines(text: &mut String, front: &str, lines: &[String]) -> Result<(), AllocError> {
    for line in lines {
        writeln!(text, "{front}{line}")?;
    }
    Ok(())
}

// Puts a line for each thing that is wrong, and for each that is degraded; `ok`, where nothing is.
fn put_health(text: &mut String, view: &ArrayView) -> Result<(), AllocError> {
    put_lines(text, "", &view.problems)?;
    put_lines(text, "degraded: ", &view.degraded)?;
    if text.is_empty() {
        text.push_str("ok\n")?;
    }
    Ok(())
}

/// What is answered to who asks whether an array is well: `ok`, or a line for each thing that is wrong, and for each that is degraded.
pub fn health(alloc: Global, view: &ArrayView) -> Result<String, AllocError> {
    let mut text = String::new(alloc);
    put_health(&mut text, view)?;
    Ok(text)
}
