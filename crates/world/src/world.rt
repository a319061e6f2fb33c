//! The world.
ghost use Rattle.std.specs.Prelude.{◌≡◌, ◌<◌, ◌&&◌, [], ℕ, All, IfOk, MatchOption, OnOk, OnErr, if◌then◌else◌, length, slice_get, take};
ghost use Rattle.unit_state.specs.Serials.{IsOpening};
ghost use Rattle.world.specs.Records.{sent};
ghost use Rattle.world.specs.Traffic.{IsAgain, IsHanded, IsTakenBack, closed, collected, flush_ended, given, is_idle, new_job};
ghost use Rattle.world.specs.Traffic.{no_traffic, posted, taken};
ghost use Rattle.world.specs.Worlds.{AllHappen, Happens, IsCountAt, IsCountOf, Stands, opening_of};
ghost use Rattle.world.specs.declared.event.Event.TheVariants as events;

use crate::event::Event;
use crate::late::handed;
use crate::note::Note;
use crate::records::{Records, Way};
use crate::session::{Session, Stage};
use block_file::{Blocks, Opener};
use scsi_types::{Asked, Group, NoMemory, PortName};
use std::alloc::Global;
use std::marker::Model;
use unit_events::{Bytes, Job, attach_unit, detach_unit, move_unit, reset_unit, serve_unit};
use unit_state::Unit;

/// Units by their places, the sessions that attached to them, the desks of both groups, and what was submitted and collected.
#[derive(Drop)]
pub struct World<B: Blocks, F: Blocks, O: Opener<B>> {
    alloc: Global,
    units: Vec<Unit<B, F, O>>,
    records: Records,
}

impl<B: Blocks, F: Blocks, O: Opener<B>> Model for World<B, F, O> {
    ghost use Rattle.world.specs.Records.{traffic_of};
    ghost use Rattle.world.specs.Worlds.{WorldValue};

    ghost Value = { WorldValue B F O };

    ghost view = { λ w. record { units = w.units.items; traffic = traffic_of w.records } };
}

// The item at a place of a list.
fn item_at<T>(items: &[T], place: usize) -> Option<&T>
    ensures { MatchOption result (slice_get items.now place ≡ None) (λ x. slice_get items.now place ≡ Some x.now) }
{
    items.get(place)
}

// What a session hands in for a command that it was asked.
fn new_job(
    alloc: Global,
    by_group: Group,
    asked: Asked,
    bytes: &Bytes,
    is_late: bool,
) -> Result<Job, NoMemory>
    ensures { IfOk result (λ job. IsHanded is_late (new_job by_group asked bytes.now) job) }
{
    let job = Job {
        by_group,
        asked,
        bytes: bytes.copy(alloc)?,
        is_second: false,
        late: None,
    };
    Ok(handed(job, is_late))
}

impl<B: Blocks, F: Blocks, O: Opener<B>> World<B, F, O> {
    /// A world of these units, of which nothing was asked yet. Refused, they are dropped.
    pub fn new(alloc: Global, units: Vec<Unit<B, F, O>>) -> Result<World<B, F, O>, NoMemory>
        requires { All (λ u. IsOpening u.control) units.items }
        ensures value { IfOk result (λ w. w ≡ record { units = units.items; traffic = no_traffic }) }
        ensures stands { IfOk result (λ w. Stands (O.claims && B.claims) B.contents B.failures O.opens_failed F.failures
            (opening_of B.contents units.items) (λ place. []) w) }
    {
        let records = Records::new(alloc)?;
        Ok(World {
            alloc,
            units,
            records,
        })
    }

    /// The unit at a place.
    pub fn unit(&self, place: usize) -> Option<&Unit<B, F, O>>
        ensures { MatchOption result (slice_get self.now.units place ≡ None)
            (λ u. slice_get self.now.units place ≡ Some u.now) }
    {
        item_at(&self.units, place)
    }

    /// The sessions, in the order in which they attached.
    pub fn sessions(&self) -> &[Session]
        ensures { result.now ≡ self.now.traffic.sessions }
    {
        &self.records.sessions
    }

    /// What was submitted and collected, in this order.
    pub fn notes(&self) -> &[Note]
        ensures { result.now ≡ self.now.traffic.notes }
    {
        &self.records.notes
    }

    // How many entries the unit at a place has had.
    fn count_at(&self, place: usize) -> u64
        ensures { IsCountAt self.now place result }
    {
        match self.unit(place) {
            Some(unit) => unit.row().entries,
            None => 0,
        }
    }

    // How many entries the unit of a session has had.
    fn count_of(&self, session: usize) -> u64
        ensures { IsCountOf self.now session result }
    {
        match self.records.session(session) {
            Some(one) => self.count_at(one.place),
            None => 0,
        }
    }

    // A session attaches to the unit at a place.
    fn attach(&mut self, place: usize, port: &PortName, group: Group) -> Result<(), NoMemory>
        ensures done { OnOk result (Happens (O.claims && B.claims) B.contents B.failures O.opens_failed F.failures
            (events.Attach place port.now group) self.old self.new) }
        ensures err { OnErr result (self.new ≡ self.old) }
    {
        let port = port.copy(self.alloc)?;
        self.records.make_room()?;
        let Some(unit) = self.units.get_mut(place) else {
            return Ok(());
        };
        if let Some(id) = attach_unit(unit, port, group) {
            self.records.attach(place, id);
        }
        Ok(())
    }

    // A session ends.
    fn detach(&mut self, session: usize)
        ensures { Happens (O.claims && B.claims) B.contents B.failures O.opens_failed F.failures
            (events.Detach session) self.old self.new }
    {
        let Some(one) = self.records.session(session) else {
            return;
        };
        let (place, id) = (one.place, one.id);
        let Some(unit) = self.units.get_mut(place) else {
            return;
        };
        detach_unit(unit, id);
    }

    // A session resets its unit.
    fn reset(&mut self, session: usize)
        ensures { Happens (O.claims && B.claims) B.contents B.failures O.opens_failed F.failures
            (events.Reset session) self.old self.new }
    {
        let Some(one) = self.records.session(session) else {
            return;
        };
        let (place, id) = (one.place, one.id);
        let Some(unit) = self.units.get_mut(place) else {
            return;
        };
        reset_unit(unit, id);
    }

    // The unit at a place moves.
    fn move_to(&mut self, place: usize, list: &Bytes)
        ensures { Happens (O.claims && B.claims) B.contents B.failures O.opens_failed F.failures
            (events.Move place list.now) self.old self.new }
    {
        let Some(unit) = self.units.get_mut(place) else {
            return;
        };
        move_unit(unit, list.as_slice());
    }

    // A lane has the unit of a session serve its command.
    fn serve(&mut self, session: usize)
        ensures { Happens (O.claims && B.claims) B.contents B.failures O.opens_failed F.failures
            (events.Serve session) self.old self.new }
    {
        let Some(one) = self.records.session(session) else {
            return;
        };
        let Stage::InLane(job) = &one.stage else {
            return;
        };
        let Some(unit) = self.units.get_mut(one.place) else {
            return;
        };
        let end = serve_unit(unit, self.alloc, one.id, one.next, job);
        self.records.end(session, end);
    }

    // A lane takes the first job of a desk.
    fn take(&mut self, group: Group)
        ensures units { self.new.units ≡ self.old.units }
        ensures traffic { self.new.traffic ≡ taken self.old.traffic group }
    {
        self.records.take(group);
    }

    // A lane posts the answer of a session's command.
    fn post(&mut self, session: usize)
        ensures units { self.new.units ≡ self.old.units }
        ensures traffic { self.new.traffic
            ≡ given self.old.traffic (slice_get self.old.traffic.sessions session) (λ x. posted self.old.traffic session x) }
    {
        self.records.post(session);
    }

    // A session collects its answer.
    fn collect(&mut self, session: usize) -> Result<(), NoMemory>
        ensures units { self.new.units ≡ self.old.units }
        ensures traffic { OnOk result ((count : ℕ) × IsCountOf self.old session count × (self.new.traffic
            ≡ given self.old.traffic (slice_get self.old.traffic.sessions session)
            (λ x. collected count self.old.traffic session x))) }
        ensures err { OnErr result (self.new ≡ self.old) }
    {
        self.records.make_room()?;
        let count = self.count_of(session);
        self.records.collect(session, count);
        Ok(())
    }

    // The flush behind a session's command ends.
    fn end_flush(&mut self, session: usize, is_done: bool) -> Result<(), NoMemory>
        ensures units { self.new.units ≡ self.old.units }
        ensures traffic { OnOk result ((count : ℕ) × IsCountOf self.old session count × (self.new.traffic
            ≡ given self.old.traffic (slice_get self.old.traffic.sessions session)
            (λ x. flush_ended count self.old.traffic session x is_done))) }
        ensures err { OnErr result (self.new ≡ self.old) }
    {
        self.records.make_room()?;
        let count = self.count_of(session);
        self.records.end_flush(self.alloc, session, count, is_done);
        Ok(())
    }

    // A session whose command came to Moved sends it once more.
    fn submit_again(&mut self, session: usize, way: Way, is_late: bool) -> Result<(), NoMemory>
        ensures units { self.new.units ≡ self.old.units }
        ensures traffic { OnOk result ((count : ℕ) × IsCountOf self.old session count
            × MatchOption (slice_get self.old.traffic.sessions session) (self.new.traffic ≡ self.old.traffic)
            (λ x. IsAgain (sent way count) is_late self.old.traffic session x self.new.traffic)) }
        ensures err { OnErr result (self.new ≡ self.old) }
    {
        self.records.make_room()?;
        let count = self.count_of(session);
        self.records.submit_again(session, count, way, is_late);
        Ok(())
    }

    // A session sends a command.
    fn submit(&mut self, session: usize, way: Way, job: Job) -> Result<(), NoMemory>
        ensures units { self.new.units ≡ self.old.units }
        ensures traffic { OnOk result ((count : ℕ) × IsCountOf self.old session count × (self.new.traffic
            ≡ given self.old.traffic (slice_get self.old.traffic.sessions session)
            (λ x. if is_idle x.stage then sent way count self.old.traffic session x job else self.old.traffic))) }
        ensures err { OnErr result (self.new ≡ self.old) }
    {
        self.records.make_room()?;
        let count = self.count_of(session);
        self.records.submit(session, count, way, job);
        Ok(())
    }

    // A session's worker takes its job back from the desk.
    fn take_back(&mut self, session: usize)
        ensures units { self.new.units ≡ self.old.units }
        ensures traffic { MatchOption (slice_get self.old.traffic.sessions session) (self.new.traffic ≡ self.old.traffic)
            (λ x. IsTakenBack self.old.traffic session x self.new.traffic) }
    {
        self.records.take_back(session);
    }

    // The desk of a group closes.
    fn close(&mut self, group: Group)
        ensures units { self.new.units ≡ self.old.units }
        ensures traffic { self.new.traffic ≡ closed self.old.traffic group }
    {
        self.records.close(group);
    }

    // One event.
    fn step(&mut self, event: &Event) -> Result<(), NoMemory>
        ensures done { OnOk result (Happens (O.claims && B.claims) B.contents B.failures O.opens_failed F.failures
            (event.now) self.old self.new) }
        ensures err { OnErr result (self.new ≡ self.old) }
    {
        match event {
            Event::Attach { place, port, group } => return self.attach(*place, port, *group),
            Event::Detach { session } => self.detach(*session),
            Event::Reset { session } => self.reset(*session),
            Event::Move { place, list } => self.move_to(*place, list),
            Event::Submit {
                session,
                by_group,
                asked,
                bytes,
                is_late,
            } => {
                let job = new_job(self.alloc, *by_group, *asked, bytes, *is_late)?;
                return self.submit(*session, Way::Desk, job);
            }
            Event::SubmitAgain { session, is_late } => {
                return self.submit_again(*session, Way::Desk, *is_late);
            }
            Event::Begin {
                session,
                by_group,
                asked,
                bytes,
                is_late,
            } => {
                let job = new_job(self.alloc, *by_group, *asked, bytes, *is_late)?;
                return self.submit(*session, Way::Hand, job);
            }
            Event::BeginAgain { session, is_late } => {
                return self.submit_again(*session, Way::Hand, *is_late);
            }
            Event::TakeBack { session } => self.take_back(*session),
            Event::Close { group } => self.close(*group),
            Event::Take { group } => self.take(*group),
            Event::Serve { session } => self.serve(*session),
            Event::Post { session } => self.post(*session),
            Event::Collect { session } => return self.collect(*session),
            Event::EndFlush { session, is_done } => return self.end_flush(*session, *is_done),
        }
        Ok(())
    }

    /// These events, one behind the other. Refused for want of memory, a beginning of them has happened. Whatever histories
    /// the units have had, they then have histories that these steps lead to, and over all that has happened since the units
    /// opened each history is legal, each reply is that of its own command's entry, or of a command whose flush came
    /// behind it and which, as it was asked, could stand in the place of its entry; no serial of a session has two entries, a command
    /// that ended without a reply has none, and what a session submits behind a reply comes later.
    pub fn run(&mut self, events: &[Event]) -> Result<(), NoMemory>
        ensures done { OnOk result (AllHappen (O.claims && B.claims) B.contents B.failures O.opens_failed F.failures
            events.now self.old self.new) }
        ensures err { OnErr result ((done : ℕ) × (done < length events.now)
            × AllHappen (O.claims && B.claims) B.contents B.failures O.opens_failed F.failures
            (take done events.now) self.old self.new) }
    {
        for event in events {
            self.step(event)?;
        }
        Ok(())
    }
}
