//! All of a unit but its devices.
ghost use Rattle.std.specs.Prelude.{◌≡◌, ◌<◌, ◌≤◌, ◌↔◌, length, [], ◌∷◌, true, false, IfOk};
ghost use Rattle.std.specs.Prelude.{OnErr, IsErr, IsFalse, IsTrue};
ghost use Rattle.unit_control.specs.Places.{IsPlaceOf};
ghost use Rattle.unit_control.specs.State.{preferred};

use crate::records::{LastSave, same_record};
use crate::row::UnitRow;
use crate::sessions::{
    Attached, MOST_SESSIONS, News, Sender, SessionId, count_command_at, end, hear_all, place_of,
    replace, staying, tell_at, tell_others,
};
use access_states::AccessMap;
use aptpl_file::SaveFault;
use attentions::Pending;
use reservations::{Access, PrEnd, PrOut, Record, Registry, Telling};
use scsi_types::{Group, NoMemory, Place, PortName, UnitAttention};
use std::alloc::Global;
use std::marker::Model;
use std::mem;
use thiserror::Error;

/// The last count of entries: there no entry joins.
pub const LAST_COUNT: u64 = 18_446_744_073_709_551_615;

/// Why a session is not attached.
#[derive(Clone, Copy, Debug, Error)]
pub enum AttachFault {
    /// 64 sessions of other nexuses are attached, or the history has its last length.
    #[error("too many sessions")]
    TooManySessions,
}

/// The session is not attached, or the history has its last length.
#[derive(Clone, Copy, Debug, Error)]
#[error("the session is gone")]
pub struct Gone;

/// Where a command goes.
#[derive(Clone, Copy)]
pub enum Route {
    /// To nobody: it is not the next of a session that is attached.
    Gone,
    /// To this group, which owns the unit.
    Moved(Group),
    /// To the unit: the place of its session.
    At(usize),
}

/// All of a unit but its devices: who is attached and what each is to be told, who is registered, and what state each
/// target port group is in.
pub struct Control {
    place: Place,
    total: u32,
    access: AccessMap,
    registry: Registry,
    save: LastSave,
    // What was being saved, where that is undecided; else room for it.
    landed: Registry,
    sessions: Vec<Attached>,
    count: u64,
}

impl Drop for Control {
    fn drop(self) {
        let Self {
            place: _,
            total: _,
            access: _,
            registry: _,
            save: _,
            landed: _,
            sessions: _,
            count: _,
        } = self;
    }
}

impl Model for Control {
    ghost use Rattle.std.specs.Prelude.{All, ◌≤◌, vec_capacity};
    ghost use Rattle.unit_control.specs.Saving.{is_doubtful, records_left};
    ghost use Rattle.unit_control.specs.Sessions.{HasCountedSerial};
    ghost use Rattle.unit_control.specs.State.{ControlValue};

    ghost Value = { ControlValue };

    ghost view = { λ u. record {
      place = u.place;
      total = u.total;
      access = u.access;
      registry = u.registry;
      lasting = records_left u.registry u.save u.landed;
      doubt = is_doubtful u.save;
      sessions = u.sessions.items;
      count = u.count;
    } };

    ghost invariant = { λ u. All (HasCountedSerial u.count) u.sessions.items × (64 ≤ vec_capacity u.sessions) };
}

impl Control {
    ghost use Rattle.unit_control.specs.State.{opening_control, tell};
    ghost use Rattle.unit_control.specs.Entry.{Attach, Detach, Reset, HasRoom, IsAttached, control_after};
    ghost use Rattle.unit_control.specs.Entry.{count_command, count_one};
    ghost use Rattle.unit_control.specs.Groups.{with_access};
    ghost use Rattle.unit_control.specs.Places.{Stays, StaysAll};
    ghost use Rattle.unit_control.specs.Refusal.{is_let};
    ghost use Rattle.aptpl_file.specs.Lasts.{left_by_fault};
    ghost use Rattle.reservations.specs.Notice.{tellings};
    ghost use Rattle.registrants.specs.Registry.{to_last};
    ghost use Rattle.reservations.specs.Table.{Done};
    ghost use Rattle.reservations.specs.Table.{HasEffect};
    ghost use Rattle.unit_control.specs.Reserve.{after_effect, effect_by};
    ghost use Rattle.unit_control.specs.Saving.{with_doubt};
    ghost use Rattle.unit_control.specs.Route.{IsRouteOf};
    ghost use Rattle.unit_control.specs.Row.{row_of};
    ghost use Rattle.unit_control.specs.Sessions.{first_pending, sender_of};

    /// As a unit of so many blocks opens: its preferred group owns it, what lasted is registered, and no session is
    /// attached.
    pub fn new(alloc: Global, place: Place, total: u32, lasted: Record) -> Result<Control, NoMemory>
        ensures { IfOk result (λ c. c ≡ opening_control place total lasted) }
    {
        let sessions = Vec::with_capacity(alloc, MOST_SESSIONS)?;
        let registry = Registry::from_record(alloc, lasted)?;
        let landed = Registry::new(alloc)?;
        Ok(Control {
            place,
            total,
            access: AccessMap::opening(preferred(place.unit as usize)),
            registry,
            save: LastSave::Done,
            landed,
            sessions,
            count: 0,
        })
    }

    /// Attaches a session of this nexus, and ends one that it had. Takes no memory.
    pub fn attach(&mut self, port: PortName, group: Group) -> Result<SessionId, AttachFault>
        ensures room { IsErr result ↔ (HasRoom self.old (record { port = port; group = group }) → ⊥) }
        ensures had { IfOk result (λ id. HasRoom self.old (record { port = port; group = group })) }
        ensures id { IfOk result (λ id. id ≡ self.old.count) }
        ensures after { IfOk result (λ id. self.new
            ≡ control_after self.old (Attach (record { port = port; group = group }))) }
        ensures total { self.new.total ≡ self.old.total }
        ensures lasting { self.new.lasting ≡ self.old.lasting }
        ensures err { OnErr result (self.new ≡ self.old) }
    {
        if self.count == LAST_COUNT || staying(&self.sessions, &port, group) >= MOST_SESSIONS {
            return Err(AttachFault::TooManySessions);
        }
        let id = self.count;
        let next = 1;
        let pending = Pending::power_on();
        replace(
            &mut self.sessions,
            Attached {
                id,
                port,
                group,
                next,
                pending,
            },
        );
        self.count += 1;
        Ok(id)
    }

    /// Ends a session. Takes no memory.
    pub fn detach(&mut self, session: SessionId) -> Result<(), Gone>
        ensures gone { IsErr result ↔ (IsAttached self.old session → ⊥) }
        ensures was { IfOk result (λ done. IsAttached self.old session) }
        ensures after { IfOk result (λ done. self.new ≡ control_after self.old (Detach session)) }
        ensures total { self.new.total ≡ self.old.total }
        ensures lasting { self.new.lasting ≡ self.old.lasting }
        ensures err { OnErr result (self.new ≡ self.old) }
    {
        self.find(session)?;
        end(&mut self.sessions, session);
        self.count += 1;
        Ok(())
    }

    /// Tells every other session of a reset that this session asked for. Takes no memory.
    pub fn reset(&mut self, session: SessionId) -> Result<(), Gone>
        ensures gone { IsErr result ↔ (IsAttached self.old session → ⊥) }
        ensures was { IfOk result (λ done. IsAttached self.old session) }
        ensures after { IfOk result (λ done. self.new ≡ control_after self.old (Reset session)) }
        ensures total { self.new.total ≡ self.old.total }
        ensures lasting { self.new.lasting ≡ self.old.lasting }
        ensures err { OnErr result (self.new ≡ self.old) }
    {
        self.find(session)?;
        tell_others(&mut self.sessions, Some(session), News::Reset);
        self.count += 1;
        Ok(())
    }

    /// Where a session is, if it is attached and the history has room.
    fn find(&self, session: SessionId) -> Result<usize, Gone>
        ensures gone { IsErr result ↔ (IsAttached self.now session → ⊥) }
        ensures place { IfOk result (IsPlaceOf self.now.sessions session) }
        ensures attached { IfOk result (λ at. IsAttached self.now session) }
        ensures room { IfOk result (λ at. self.now.count < LAST_COUNT) }
    {
        let Some(at) = place_of(&self.sessions, session) else {
            return Err(Gone);
        };
        if self.count == LAST_COUNT {
            return Err(Gone);
        }
        Ok(at)
    }

    /// Where a command of a session goes that comes by this group.
    pub fn route(&self, session: SessionId, serial: u64, by: Group) -> Route
        ensures { IsRouteOf self.now session serial by result }
    {
        let Ok(at) = self.find(session) else {
            return Route::Gone;
        };
        if self.sessions[at].next != serial {
            return Route::Gone;
        }
        let owner = self.access.owner();
        if by != owner {
            return Route::Moved(owner);
        }
        Route::At(at)
    }

    /// What the status board shows of it.
    pub fn row(&self) -> UnitRow
        ensures { result ≡ row_of self.now }
    {
        UnitRow {
            entries: self.count,
            owner: self.access.owner(),
            states: [self.access.state(Group::One), self.access.state(Group::Two)],
            generation: self.registry.generation(),
            registrants: self.registry.registrant_count(),
            kind: match self.registry.reserved_type() {
                None => 0,
                Some(kind) => kind.code(),
            },
        }
    }

    /// The place of the unit.
    pub fn place(&self) -> Place
        ensures { result ≡ self.now.place }
    {
        self.place
    }

    /// How many blocks the unit has.
    pub fn total(&self) -> u32
        ensures { result ≡ self.now.total }
    {
        self.total
    }

    /// Whether the history has its last length.
    pub fn is_full(&self) -> bool
        ensures { IsTrue result ↔ (LAST_COUNT ≤ self.now.count) }
    {
        self.count == LAST_COUNT
    }

    /// The access state of each group.
    pub fn access(&self) -> &AccessMap
        ensures { result.now ≡ self.now.access }
    {
        &self.access
    }

    /// The group that the unit prefers.
    pub fn preferred(&self) -> Group
        ensures { result ≡ preferred self.now.place.unit }
    {
        preferred(self.place.unit as usize)
    }

    /// The group by which a session's commands come.
    pub fn group(&self, sender: Sender) -> Group
        requires { IsPlaceOf self.now.sessions sender.session sender.at }
        ensures { result ≡ (sender_of self.now.sessions sender.session).group }
    {
        self.sessions[sender.at].group
    }

    /// Who is registered, and who holds the reservation.
    pub fn registry(&self) -> &Registry
        ensures { result.now ≡ self.now.registry }
    {
        &self.registry
    }

    /// Whether the reservation lets a session do this.
    pub fn allows(&self, sender: Sender, access: Access) -> bool
        requires { IsPlaceOf self.now.sessions sender.session sender.at }
        ensures { result ≡ is_let self.now (sender_of self.now.sessions sender.session) access }
    {
        let attached = &self.sessions[sender.at];
        self.registry.allows(&attached.port, attached.group, access)
    }

    /// The attention that a session is told next.
    pub fn first(&self, sender: Sender) -> Option<UnitAttention>
        requires { IsPlaceOf self.now.sessions sender.session sender.at }
        ensures { result ≡ first_pending self.now.sessions sender.session }
    {
        self.sessions[sender.at].pending.first()
    }

    /// Tells a session its first attention, which is pending no more.
    pub fn tell(&mut self, sender: Sender)
        requires { IsPlaceOf self.old.sessions sender.session sender.at }
        ensures told { self.new ≡ tell self.old sender.session }
        ensures lasting { self.new.lasting ≡ self.old.lasting }
        ensures stays { Stays self.old self.new sender.session sender.at }
    {
        tell_at(&mut self.sessions, sender.at);
    }

    /// What a PERSISTENT RESERVE OUT of a session makes of the registry, in a registry of its own. Takes no memory.
    pub fn attempt(&self, scratch: &mut Registry, sender: Sender, asked: PrOut) -> PrEnd
        requires { IsPlaceOf self.now.sessions sender.session sender.at }
        ensures { HasEffect result (effect_by self.now sender.session asked) self.now.registry scratch.new }
    {
        let attached = &self.sessions[sender.at];
        scratch.set(&self.registry);
        scratch.out(&attached.port, attached.group, asked)
    }

    /// Whether the record to last of such a registry is to be saved before it is in force: not where a crash leaves just
    /// that already, and the last save did not fail.
    pub fn is_to_save(&self, scratch: &Registry) -> bool
        ensures needed { IsTrue result → self.now.lasting ≡ to_last scratch.now ∷ [] → self.now.doubt ≡ true }
        ensures saved { IsFalse result → (self.now.lasting ≡ to_last scratch.now ∷ []) × (self.now.doubt ≡ false) }
    {
        match self.save {
            LastSave::Done => !same_record(&self.registry.lasting(), &scratch.lasting()),
            LastSave::Failed | LastSave::Undecided => true,
        }
    }

    /// A save of the record to last of such a registry has failed. Takes no memory.
    pub fn fail(&mut self, fault: SaveFault, scratch: &mut Registry)
        ensures ever { 0 < length self.old.lasting }
        ensures failed { self.new ≡ with_doubt self.old (left_by_fault fault self.old.lasting (to_last scratch.old)) }
        ensures stays { StaysAll self.old self.new }
    {
        match fault {
            SaveFault::OldRoot => {
                if matches!(self.save, LastSave::Done) {
                    self.save = LastSave::Failed;
                }
            }
            SaveFault::IdleSlot => self.save = LastSave::Failed,
            SaveFault::NewRoot => {
                mem::swap(&mut self.landed, scratch);
                self.save = LastSave::Undecided;
            }
        }
    }

    /// Puts a registry in force, the record to last of which is what a crash leaves, and tells who is to hear of it. Takes
    /// no memory.
    pub fn put_in_force(&mut self, scratch: &mut Registry, telling: &Telling)
        ensures in_force { self.new
            ≡ after_effect self.old (Done scratch.old (tellings telling.now self.old.registry.registrants)) }
        ensures stays { StaysAll self.old self.new }
    {
        hear_all(&mut self.sessions, &self.registry, telling);
        mem::swap(&mut self.registry, scratch);
        self.save = LastSave::Done;
    }

    /// Puts these access states in the place of those that are there. Where the state of a group is another, every session
    /// hears of it but the one that asked for it.
    pub fn set_access(&mut self, by: Option<SessionId>, access: AccessMap)
        ensures changed { self.new ≡ with_access self.old by access }
        ensures lasting { self.new.lasting ≡ self.old.lasting }
        ensures stays { StaysAll self.old self.new }
    {
        let change = self.access.change_to(&access);
        self.access = access;
        if change.changed[0] || change.changed[1] {
            tell_others(&mut self.sessions, by, News::AccessChange);
        }
    }

    /// Counts an entry that is no command.
    pub fn count_one(&mut self)
        requires { self.old.count < LAST_COUNT }
        ensures counted { self.new ≡ count_one self.old }
        ensures total { self.new.total ≡ self.old.total }
        ensures lasting { self.new.lasting ≡ self.old.lasting }
    {
        self.count += 1;
    }

    /// Counts one command more of a session.
    pub fn count_command(&mut self, sender: Sender)
        requires place { IsPlaceOf self.old.sessions sender.session sender.at }
        requires room { self.old.count < LAST_COUNT }
        ensures counted { self.new ≡ count_command self.old sender.session }
        ensures total { self.new.total ≡ self.old.total }
        ensures lasting { self.new.lasting ≡ self.old.lasting }
    {
        count_command_at(&mut self.sessions, sender.at);
        self.count += 1;
    }
}

/// The group that the unit of a number prefers: the units of even number prefer the first (SPC-4, 5.15.2.1).
pub fn preferred(unit: usize) -> Group
    ensures { result ≡ preferred unit }
{
    if unit % 2 == 0 {
        Group::One
    } else {
        Group::Two
    }
}
