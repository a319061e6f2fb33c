//! The sessions that are attached to a unit.
ghost use Rattle.std.specs.Prelude.{◌≡◌, ◌<◌, ◌++◌, ◌-◌, ◌^◌, [], ◌∷◌, length, map, slice_get, None, IfSome};
ghost use Rattle.std.specs.Prelude.{MatchOption};
ghost use Rattle.std.specs.Prelude.{vec_capacity};
ghost use Rattle.unit_control.specs.Places.{IsChangedAt, IsPlaceOf};
ghost use Rattle.unit_control.specs.Sessions.{ended, is_of, nexus_of, of_others, one_command_more};
ghost use Rattle.unit_control.specs.Sessions.{session_of, report_first, without};
ghost use Rattle.reservations.specs.Notice.{tellings};
ghost use Rattle.unit_control.specs.Groups.{tell_news};
ghost use Rattle.unit_control.specs.Reserve.{all_heard, hear};

use attentions::Pending;
use reservations::{Registry, Telling};
use scsi_types::{Group, PortName, UnitAttention};

/// A session's id: the place of its attach among the unit's entries.
pub type SessionId = u64;

/// The most sessions that are attached to a unit.
pub const MOST_SESSIONS: usize = 64;

/// A session that is attached: its nexus, the serial of its next command, and what it is to be told.
#[derive(Drop)]
pub struct Attached {
    pub id: SessionId,
    pub port: PortName,
    pub group: Group,
    pub next: u64,
    pub pending: Pending,
}

/// The session that sends a command: its id, and its place among those that are attached.
#[derive(Clone, Copy)]
pub struct Sender {
    pub session: SessionId,
    pub at: usize,
}

/// The place of a session.
pub fn place_of(sessions: &[Attached], id: SessionId) -> Option<usize>
    ensures { MatchOption result (session_of sessions.now id ≡ None) (λ at. IsPlaceOf sessions.now id at) }
{
    for (at, attached) in sessions.iter().enumerate() {
        if attached.id == id {
            return Some(at);
        }
    }
    None
}

/// Counts one command more of the session at a place.
pub fn count_command_at(sessions: &mut Vec<Attached>, at: usize)
    requires place { at < length sessions.old.items }
    requires room { IfSome (slice_get sessions.old.items at) (λ a. a.next < 2 ^ 64 - 1) }
    ensures counted { IsChangedAt one_command_more sessions.old.items at sessions.new.items }
    ensures capacity { vec_capacity sessions.new ≡ vec_capacity sessions.old }
{
    let attached = &mut sessions[at];
    attached.next += 1;
}

/// Tells the session at a place what it is to be told next.
pub fn tell_at(sessions: &mut Vec<Attached>, at: usize)
    requires { at < length sessions.old.items }
    ensures told { IsChangedAt report_first sessions.old.items at sessions.new.items }
    ensures capacity { vec_capacity sessions.new ≡ vec_capacity sessions.old }
{
    let attached = &mut sessions[at];
    let _ = attached.pending.take();
}

/// Ends the session of an id.
pub fn end(sessions: &mut Vec<Attached>, id: SessionId)
    ensures items { sessions.new.items ≡ ended sessions.old.items id }
    ensures capacity { vec_capacity sessions.new ≡ vec_capacity sessions.old }
{
    sessions.retain(|attached| attached.id != id);
}

/// What the others hear of a session, or of the array.
#[derive(Clone, Copy)]
pub enum News {
    /// A reset: they are told of nothing before it.
    Reset,
    /// A change of access states, behind what they are to be told already.
    AccessChange,
}

/// Tells every session but the one that asked for it.
pub fn tell_others(sessions: &mut Vec<Attached>, by: Option<SessionId>, news: News)
    ensures items { sessions.new.items ≡ map (of_others (tell_news news) by) sessions.old.items }
    ensures capacity { vec_capacity sessions.new ≡ vec_capacity sessions.old }
{
    for attached in sessions.iter_mut() {
        hear_news(attached, by, news);
    }
}

fn hear_news(attached: &mut Attached, by: Option<SessionId>, news: News)
    ensures { attached.new ≡ of_others (tell_news news) by attached.old }
{
    if by != Some(attached.id) {
        match news {
            News::Reset => attached.pending.replace_all(UnitAttention::PowerOn),
            News::AccessChange => attached
                .pending
                .establish(UnitAttention::AccessStateChanged),
        }
    }
}

/// Tells each session what is told to its nexus, behind what it is to be told already: by a PERSISTENT RESERVE OUT that
/// found this registry.
pub fn hear_all(sessions: &mut Vec<Attached>, found: &Registry, telling: &Telling)
    ensures items { sessions.new.items ≡ all_heard (tellings telling.now found.now.registrants) sessions.old.items }
    ensures capacity { vec_capacity sessions.new ≡ vec_capacity sessions.old }
{
    for attached in sessions.iter_mut() {
        hear(attached, found, telling);
    }
}

fn hear(attached: &mut Attached, found: &Registry, telling: &Telling)
    ensures { attached.new ≡ hear (tellings telling.now found.now.registrants) attached.old }
{
    if let Some(code) = found.told(telling, &attached.port, attached.group) {
        attached.pending.establish(code);
    }
}

/// Whether a session is that of a nexus.
fn has_nexus(attached: &Attached, port: &PortName, group: Group) -> bool
    ensures { result ≡ is_of (record { port = port.now; group = group }) attached.now }
{
    attached.group == group && attached.port.same(port)
}

/// How many sessions stay where a nexus attaches: all but its own.
pub fn staying(sessions: &[Attached], port: &PortName, group: Group) -> usize
    ensures { result ≡ length (without (record { port = port.now; group = group }) sessions.now) }
{
    let mut stay = 0;
    for attached in sessions {
        if !has_nexus(attached, port, group) {
            stay += 1;
        }
    }
    stay
}

/// Puts a new session in the place of the one that its nexus had. Takes no memory.
pub fn replace(sessions: &mut Vec<Attached>, new: Attached)
    requires room { length (without (nexus_of new) sessions.old.items) < vec_capacity sessions.old }
    ensures items { sessions.new.items ≡ without (nexus_of new) sessions.old.items ++ new ∷ [] }
    ensures capacity { vec_capacity sessions.new ≡ vec_capacity sessions.old }
{
    sessions.retain(|attached| !has_nexus(attached, &new.port, new.group));
    sessions.push_reserved(new);
}
