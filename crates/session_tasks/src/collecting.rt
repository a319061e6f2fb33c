//! The commands that wait for their data (RFC 7143, 11.7 and 11.8).
ghost use Rattle.std.specs.Prelude.{◌≡◌, ◌<◌, ◌≤◌, ◌+◌, ◌++◌, ℕ, ◌∷◌, ◌↔◌, List, [], length, take, nat_le, nat_lt, not, vec_capacity};
ghost use Rattle.std.specs.Prelude.{IsTrue, IfOk, IfSome, MatchOption, Result, Some, None};
ghost use Rattle.scsi_types.specs.Cdb.{need_of};
ghost use Rattle.scsi_types.specs.declared.command.Command.{Command};
ghost use Rattle.scsi_types.specs.declared.command.CdbFault.{CdbFault};
ghost use Rattle.std.specs.List.{list_any, count_by, filter, find};
ghost use Rattle.session_rules.specs.Tasks.{Collecting, has_tag};
ghost use Rattle.session_rules.specs.Drops.{drops};
ghost use Rattle.session_rules.specs.TaskManagement.{drops_one};
ghost use Rattle.session_rules.specs.Window.{wrap};
ghost use Rattle.session_rules.specs.Collecting.{Continues, HasToCollect, is_immediate, shrinks_window};
ghost use Rattle.session_tasks.specs.Slots.{StandsAt, IsAskedBy, IsFinished, NeedIs, begun, fed, waits, r2t_for};

use crate::task_management::drops;
use iscsi_pdu::{DataOut, Numbers, R2t, ScsiCommand, TaskManagementRequest};
use scsi_types::{Asked, NoMemory};
use std::alloc::Global;
use std::marker::Model;

/// The most commands that wait at once: as many as the window has, and an immediate one.
pub const MOST_WAITING: usize = 33;

/// The most buffers that are kept for commands to come.
const MOST_SPARES: usize = 4;

/// What an R2T is sent with: its numbers, its Target Transfer Tag, and the length that a burst has at most.
#[derive(Clone, Copy)]
pub struct R2tWith {
    pub numbers: Numbers,
    pub transfer_tag: u32,
    pub burst: u32,
}

// The R2T for what a command needs behind the bytes that have come (RFC 7143, 11.8).
fn r2t(command: &ScsiCommand, need: u32, came: usize, count: u32, with: R2tWith) -> R2t
    requires { came < need }
    ensures { result ≡ r2t_for command.now need came count with }
{
    R2t {
        lun: command.lun,
        task_tag: command.task_tag,
        transfer_tag: with.transfer_tag,
        numbers: with.numbers,
        r2t_sn: count,
        offset: came as u32,
        desired_length: with.burst.min(need - came as u32),
    }
}

/// A command that waits for data: an R2T is outstanding.
#[derive(Drop)]
pub struct WaitingCommand {
    command: ScsiCommand,
    asked: Asked,
    need: u32,
    bytes: Vec<u8>,
    outstanding: R2t,
    r2t_count: u32,
    data_sn: u32,
}

impl Model for WaitingCommand {
    ghost use Rattle.std.specs.Prelude.{Some, length, vec_capacity};
    ghost use Rattle.session_rules.specs.Tasks.{Collecting};
    ghost use Rattle.session_tasks.specs.Slots.{IsSlot};

    ghost Value = { Collecting };

    ghost view = { λ s. record {
      command = s.command;
      bytes = s.bytes.items;
      outstanding = Some s.outstanding;
      r2t_count = s.r2t_count;
      data_sn = s.data_sn;
    } };

    ghost invariant = { λ s. IsSlot s.command s.asked s.need (length s.bytes.items) (vec_capacity s.bytes) s.outstanding };
}

impl WaitingCommand {
    /// A command that has to collect so many bytes into this buffer, which has room for them, with its immediate data and
    /// its first R2T.
    pub fn begin(
        buffer: Vec<u8>,
        command: ScsiCommand,
        asked: Asked,
        need: u32,
        immediate: &[u8],
        with: R2tWith,
    ) -> WaitingCommand
        requires empty { buffer.items ≡ [] }
        requires room { need ≤ vec_capacity buffer }
        requires asked { IsAskedBy command asked }
        requires need { need ≡ need_of asked }
        requires collects { HasToCollect command need (length immediate.now) }
        ensures { result ≡ begun command need immediate.now with }
    {
        let mut bytes = buffer;
        match bytes.extend_from_slice(immediate) {
            Ok(()) => {}
            Err(_) => unreachable!(),
        }
        let outstanding = r2t(&command, need, bytes.len(), 0, with);
        WaitingCommand {
            command,
            asked,
            need,
            bytes,
            outstanding,
            r2t_count: 1,
            data_sn: 0,
        }
    }

    /// What its CDB asks for.
    pub fn asked(&self) -> Asked
        ensures { IsAskedBy self.now.command result }
    {
        self.asked
    }

    /// How many bytes it needs.
    pub fn need(&self) -> u32
        ensures { NeedIs self.now.command result }
    {
        self.need
    }

    /// The R2T that is outstanding.
    pub fn outstanding(&self) -> R2t
        ensures { self.now.outstanding ≡ Some result }
    {
        self.outstanding
    }

    /// Whether a Data-Out continues the R2T that is outstanding.
    pub fn continues(&self, header: &DataOut, bytes: &[u8]) -> bool
        ensures { IsTrue result ↔ Continues self.now header.now bytes.now }
    {
        let end = u64::from(self.outstanding.offset) + u64::from(self.outstanding.desired_length);
        header.transfer_tag == self.outstanding.transfer_tag
            && header.data_sn == self.data_sn
            && header.offset as usize == self.bytes.len()
            && u64::from(header.offset) + bytes.len() as u64 <= end
    }

    // One Data-Out more.
    fn feed(&mut self, header: &DataOut, bytes: &[u8])
        requires { Continues self.old header.now bytes.now }
        ensures fed { self.new ≡ fed self.old bytes.now }
        ensures asked { (asked : Result Command CdbFault) × IsAskedBy self.old.command asked }
    {
        match self.bytes.extend_from_slice(bytes) {
            Ok(()) => {}
            Err(_) => unreachable!(),
        }
        self.data_sn = self.data_sn.wrapping_add(1);
    }

    /// How many bytes have come.
    pub fn len(&self) -> usize
        ensures { result ≡ length self.now.bytes }
    {
        self.bytes.len()
    }

    /// Whether all has come that the R2T asks for.
    pub fn is_filled(&self) -> bool
        ensures { IfSome self.now.outstanding
            (λ r. result ≡ nat_le (r.offset + r.desired_length) (length self.now.bytes)) }
    {
        let end = u64::from(self.outstanding.offset) + u64::from(self.outstanding.desired_length);
        end <= self.bytes.len() as u64
    }

    // The next R2T, for more of the data.
    fn next_r2t(&mut self, with: R2tWith) -> R2t
        requires { (need : ℕ) × NeedIs self.old.command need × (length self.old.bytes < need) }
        ensures waits { self.new ≡ waits self.old.command self.old.bytes result (wrap (self.old.r2t_count + 1)) }
        ensures r2t { (need : ℕ) → NeedIs self.old.command need
            → result ≡ r2t_for self.old.command need (length self.old.bytes) self.old.r2t_count with }
        ensures fits { self.old.r2t_count < 4294967296 }
    {
        self.outstanding = r2t(
            &self.command,
            self.need,
            self.bytes.len(),
            self.r2t_count,
            with,
        );
        self.r2t_count = self.r2t_count.wrapping_add(1);
        self.data_sn = 0;
        self.outstanding
    }

    /// The command, what its CDB asks for, how much it needs, and the data that came.
    pub fn finish(self) -> Collected
        ensures { IsFinished self result }
    {
        Collected {
            command: self.command,
            asked: self.asked,
            need: self.need,
            bytes: self.bytes,
        }
    }
}

/// A command with its data.
#[derive(Drop)]
pub struct Collected {
    pub command: ScsiCommand,
    pub asked: Asked,
    pub need: u32,
    pub bytes: Vec<u8>,
}

/// The commands that wait for their data, in the order in which they came, in memory that was taken once. Some buffers of
/// those that wait no more are kept for others, so that most take none.
#[derive(Drop)]
pub struct WaitingCommands {
    slots: Vec<WaitingCommand>,
    spares: Vec<Vec<u8>>,
}

impl Model for WaitingCommands {
    ghost use Rattle.std.specs.Prelude.{◌≤◌, List, length, vec_capacity};
    ghost use Rattle.session_rules.specs.Tasks.{Collecting};
    ghost use Rattle.session_tasks.specs.declared.collecting.TheConstants.{MOST_SPARES, MOST_WAITING};

    ghost Value = { List Collecting };

    ghost view = { λ s. s.slots.items };

    ghost invariant = { λ s. (length s.slots.items ≤ MOST_WAITING) × (MOST_WAITING ≤ vec_capacity s.slots)
        × (MOST_SPARES ≤ vec_capacity s.spares) };
}

impl WaitingCommands {
    /// None, with all the memory for them but that of their data.
    pub fn new(alloc: Global) -> Result<WaitingCommands, NoMemory>
        ensures { IfOk result (λ w. w ≡ []) }
    {
        Ok(WaitingCommands {
            slots: Vec::with_capacity(alloc, MOST_WAITING)?,
            spares: Vec::with_capacity(alloc, MOST_SPARES)?,
        })
    }

    /// An empty buffer with room for so many bytes: the one that was kept last, if it has room. A smaller one goes.
    pub fn buffer(&mut self, alloc: Global, need: u32) -> Result<Vec<u8>, NoMemory>
        ensures same { self.new ≡ self.old }
        ensures empty { IfOk result (λ b. b.items ≡ []) }
        ensures room { IfOk result (λ b. need ≤ vec_capacity b) }
    {
        let Some(spare) = self.spares.pop() else {
            return Ok(Vec::with_capacity(alloc, need as usize)?);
        };
        if spare.capacity() < need as usize {
            return Ok(Vec::with_capacity(alloc, need as usize)?);
        }
        let mut buffer = spare;
        buffer.clear();
        Ok(buffer)
    }

    /// Keeps the buffer of a command that waits no more for another, unless enough are kept.
    pub fn keep(&mut self, buffer: Vec<u8>)
        ensures { self.new ≡ self.old }
    {
        if self.spares.len() < MOST_SPARES {
            match self.spares.push(buffer) {
                Ok(()) => {}
                Err(_) => unreachable!(),
            }
        }
    }

    /// Gives the buffers back that are kept.
    pub fn rest(&mut self)
        ensures { self.new ≡ self.old }
    {
        self.spares.clear();
    }

    /// Whether one more has a place.
    pub fn has_room(&self) -> bool
        ensures { result ≡ nat_lt (length self.now) MOST_WAITING }
    {
        self.slots.len() < MOST_WAITING
    }

    /// Whether an immediate one waits.
    pub fn has_immediate(&self) -> bool
        ensures { result ≡ list_any is_immediate self.now }
    {
        self.slots.iter().any(|slot| slot.command.immediate)
    }

    /// How many numbered ones wait.
    pub fn numbered(&self) -> u32
        ensures count { result ≡ count_by shrinks_window self.now }
        ensures most { result ≤ length self.now }
    {
        let mut count = 0;
        for i in 0..self.slots.len() {
            if !self.slots[i].command.immediate {
                count += 1;
            }
        }
        count
    }

    /// Whether one with this Initiator Task Tag waits.
    pub fn has(&self, tag: u32) -> bool
        ensures { result ≡ list_any (has_tag tag) self.now }
    {
        self.slots.iter().any(|slot| slot.command.task_tag == tag)
    }

    /// Where the first with this Initiator Task Tag stands.
    pub fn position(&self, tag: u32) -> Option<usize>
        ensures { MatchOption result (find (has_tag tag) self.now ≡ None)
            (λ i. (this : Collecting) × StandsAt self.now i this × (find (has_tag tag) self.now ≡ Some this)) }
    {
        for i in 0..self.slots.len() {
            if self.slots[i].command.task_tag == tag {
                return Some(i);
            }
        }
        None
    }

    /// Drops those that a request for task management drops: whether there are any.
    pub fn drop_by(&mut self, request: &TaskManagementRequest) -> bool
        ensures any { result ≡ drops_one request.now self.old }
        ensures kept { self.new ≡ filter (λ c. not (drops request.now c.command)) self.old }
    {
        let any = self.slots.iter().any(|slot| drops(request, &slot.command));
        self.slots.retain(|slot| !drops(request, &slot.command));
        any
    }

    /// One more, behind the others.
    pub fn push(&mut self, command: WaitingCommand)
        requires { length self.old < MOST_WAITING }
        ensures { self.new ≡ self.old ++ command ∷ [] }
    {
        match self.slots.push(command) {
            Ok(()) => {}
            Err(_) => unreachable!(),
        }
    }

    /// The one that stands there.
    pub fn at(&self, at: usize) -> &WaitingCommand
        requires { at < length self.now }
        ensures { StandsAt self.now at result.now }
    {
        &self.slots[at]
    }

    /// One Data-Out more for the one that stands there.
    pub fn feed_at(&mut self, at: usize, header: &DataOut, bytes: &[u8])
        requires { (this : Collecting) × StandsAt self.old at this × Continues this header.now bytes.now }
        ensures fed { (this : Collecting) → (s : StandsAt self.old at this)
            → self.new ≡ s.front ++ (fed this bytes.now ∷ s.back) }
        ensures asked { (this : Collecting) → StandsAt self.old at this
            → (asked : Result Command CdbFault) × IsAskedBy this.command asked }
    {
        self.slots[at].feed(header, bytes);
    }

    /// The next R2T of the one that stands there.
    pub fn next_r2t_at(&mut self, at: usize, with: R2tWith) -> R2t
        requires { (this : Collecting) × StandsAt self.old at this
            × ((need : ℕ) × NeedIs this.command need × (length this.bytes < need)) }
        ensures waits { (this : Collecting) → (s : StandsAt self.old at this)
            → self.new ≡ s.front ++ (waits this.command this.bytes result (wrap (this.r2t_count + 1)) ∷ s.back) }
        ensures r2t { (this : Collecting) → StandsAt self.old at this → (need : ℕ) → NeedIs this.command need
            → result ≡ r2t_for this.command need (length this.bytes) this.r2t_count with }
        ensures fits { (this : Collecting) → StandsAt self.old at this → this.r2t_count < 4294967296 }
    {
        self.slots[at].next_r2t(with)
    }

    /// Takes the one that stands there away.
    pub fn remove(&mut self, at: usize) -> WaitingCommand
        requires { at < length self.old }
        ensures removed { (this : Collecting) → (s : StandsAt self.old at this)
            → (result ≡ this) × (self.new ≡ s.front ++ s.back) }
        ensures room { length self.new < MOST_WAITING }
    {
        self.slots.remove(at)
    }
}
