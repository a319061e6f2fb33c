//! What a thread of a preparer is asked, and what it does.
ghost use Rattle.std.specs.Prelude.{◌≡◌, [], true, IsTrue};
ghost use Rattle.std.specs.Arc.{arc_value};
ghost use Rattle.timed_calls.specs.Back.{had_come_back};

use crate::ahead::{Ahead, Hint, HintKind};
use block_file::BLOCK_LENGTH;
use disk_preparer::{Beside, BlockMemory, Node, Preparer};
use events::Call;
use std::alloc::{AllocError, Global};
use std::marker::{Model, PhantomData};
use std::sync::{Arc, Wait};
use std::time::{Clock, Duration};
use timed_calls::{Asked, Runner, Watch, left};

/// What nobody asked, before or behind an answer, may take this part of the time that a call may take.
const PART_FOR_OTHERS: u32 = 16;

/// At most so many bytes are read ahead behind one answer.
const MOST_AHEAD: usize = 524_288;

/// What a preparer is asked.
#[derive(Clone, Copy)]
pub(crate) enum PreparerCall {
    /// That so many blocks from this one on be in the system's memory.
    Fetch(u64, u16),
    /// That the pages be there of which a write of so many blocks from this one on changes a part.
    FetchEdges(u64, u16),
    /// A read from this block on, of as many as the memory has bytes for, and whether somebody has looked that they take time.
    Read(u64, bool),
    /// A flush.
    Flush,
}

/// What a thread of a preparer is asked under this number and gives back: what is wanted, the memory of a read, and whether a flush was
/// done.
#[derive(Drop)]
pub(crate) struct PreparerRequest<P: Preparer> {
    serial: u64,
    wanted: PreparerCall,
    // Whose flush it is.
    disk: Node,
    is_flushed: bool,
    pub(crate) memory: Option<BlockMemory>,
    of: PhantomData<P>,
}

impl<P: Preparer> Model for PreparerRequest<P> {
    ghost use Rattle.std.specs.Prelude.{◌≡◌, Bool, true, ℕ};
    ghost use Rattle.disk_preparer.specs.declared.Node.{Node};

    ghost Value = { Bool × Node × ℕ };

    ghost view = { λ f. (f.is_flushed, f.disk, f.serial) };

    ghost invariant = { λ f. f.is_flushed ≡ true → P.has_flushed f.disk };
}

impl<P: Preparer> PreparerRequest<P> {
    // One that is not done yet.
    pub(crate) fn of(serial: u64, wanted: PreparerCall, disk: Node) -> PreparerRequest<P>
        ensures { result.2 ≡ serial }
    {
        PreparerRequest {
            serial,
            wanted,
            disk,
            is_flushed: false,
            memory: None,
            of: PhantomData,
        }
    }

    // One that reads, into this memory.
    pub(crate) fn reading(
        serial: u64,
        wanted: PreparerCall,
        disk: Node,
        bytes: Vec<u8>,
    ) -> PreparerRequest<P>
        ensures { result.2 ≡ serial }
    {
        PreparerRequest {
            serial,
            wanted,
            disk,
            is_flushed: false,
            memory: Some(BlockMemory::fresh(bytes)),
            of: PhantomData,
        }
    }

    // Whether a flush of this disk was done.
    pub(crate) fn has_flushed(&self, disk: Node) -> bool
        ensures { IsTrue result → P.has_flushed disk }
    {
        self.is_flushed && self.disk.is(disk)
    }
}

impl<P: Preparer> Asked for PreparerRequest<P> {
    ghost serial = { λ f. f.2 };

    ghost given = { λ f. [] };

    fn serial(&self) -> u64 {
        self.serial
    }

    fn call(&self) -> Call {
        match self.wanted {
            PreparerCall::Flush => Call::Flush,
            PreparerCall::Fetch(..) | PreparerCall::FetchEdges(..) | PreparerCall::Read(..) => {
                Call::Read
            }
        }
    }
}

/// A preparer, as one of its threads has it.
#[derive(Drop)]
pub(crate) struct PreparerRunner<R: Wait + Clock + Drop, P: Preparer> {
    rt: R,
    preparer: Arc<P, Global>,
    disk: Node,
    watch: Arc<Watch, Global>,
    ahead: Arc<Ahead, Global>,
    // The hints that came along with what was asked last.
    hints: Vec<Hint>,
    // When that was asked; none where the clock failed.
    begun: Option<Duration>,
    // The first block, where it was a read.
    own: Option<u64>,
    // Whether the disk was told of all the hints.
    has_told: bool,
    // Whether there is something to read ahead behind the answer.
    has_more: bool,
    ghost of_disk: { P.disk (arc_value preparer) ≡ disk },
    ghost watched: { (arc_value watch).node ≡ disk },
}

// Reads blocks by a preparer beside the device, behind such a look at how many of its writes had come back. The stamp of the file's own
// preparer goes by the writes that ended in the file; a device with a deadline counts those that came back. So that stamp is replaced by
// the look. What was not read stays mere memory.
#[tactic(auto, using(timed_calls::specs::Back::a_read_behind_a_look_says))]
fn read_behind<P: Preparer>(
    preparer: &P,
    beside: Beside,
    bytes: Vec<u8>,
    is_looked_at: bool,
) -> Option<BlockMemory>
    requires { had_come_back beside.disk beside.writes }
{
    let memory = preparer.read(beside.first, bytes, is_looked_at)?;
    match memory.beside {
        Some(read) if memory.holds(beside.disk, beside.first, read.writes) => {
            Some(BlockMemory::read(memory.bytes, beside))
        }
        _ => Some(BlockMemory::fresh(memory.bytes)),
    }
}

// The first block of what is read.
fn first_of(wanted: PreparerCall) -> Option<u64> {
    match wanted {
        PreparerCall::Read(first, _) => Some(first),
        _ => None,
    }
}

impl<R: Wait + Clock + Drop, P: Preparer> PreparerRunner<R, P> {
    /// The preparer of this disk; `ahead` has the hints of calls that are to come.
    pub(crate) fn new(
        rt: R,
        alloc: Global,
        preparer: Arc<P, Global>,
        disk: Node,
        watch: Arc<Watch, Global>,
        ahead: Arc<Ahead, Global>,
    ) -> Result<PreparerRunner<R, P>, AllocError>
        requires disk { P.disk (arc_value preparer) ≡ disk }
        requires watched { (arc_value watch).node ≡ disk }
    {
        Ok(PreparerRunner {
            rt,
            preparer,
            disk,
            watch,
            ahead,
            hints: Ahead::no_hints(alloc)?,
            begun: None,
            own: None,
            has_told: false,
            has_more: false,
        })
    }

    // Whether this hint is a read other than the one that is asked.
    fn is_next(&self, hint: Hint) -> bool {
        hint.kind == HintKind::Read && Some(hint.first) != self.own
    }

    // Whether there is time for what nobody waits for.
    fn has_time(&self) -> bool {
        match self.begun {
            Some(begun) => left(&self.rt, begun, self.watch.patience() / PART_FOR_OTHERS).is_some(),
            None => false,
        }
    }

    // Notes the reads among the hints as coming: whether there are any.
    fn announce(&self) -> bool {
        let mut is_any = false;
        for hint in &self.hints {
            if self.is_next(*hint) {
                self.ahead.comes(hint.first);
                is_any = true;
            }
        }
        is_any
    }

    // Passes the hints on to the disk while there is time: whether all were.
    fn tell(&self) -> bool {
        for hint in &self.hints {
            if !self.has_time() {
                return false;
            }
            match hint.kind {
                HintKind::Edges => self.preparer.advise_edges(hint.first, hint.blocks),
                HintKind::Fetch | HintKind::Read => self.preparer.advise(hint.first, hint.blocks),
            }
        }
        true
    }

    // Takes the hints and passes them on, before what is wanted is done: whether it is at work then. A flush takes none, and reads nothing
    // ahead.
    fn listen(&mut self, wanted: PreparerCall) -> bool {
        self.hints.clear();
        self.has_more = false;
        if matches!(wanted, PreparerCall::Flush) {
            return false;
        }
        self.ahead.begin_work();
        self.begun = self.rt.monotonic().ok();
        self.own = first_of(wanted);
        self.ahead.take_hints(&self.rt, &mut self.hints);
        self.has_more = self.announce();
        self.has_told = self.tell();
        true
    }

    // The disk has given what was asked for behind all that it was told, and so the pages of the hints, too.
    fn arrive(&self) {
        for hint in &self.hints {
            if hint.kind == HintKind::Edges && self.has_told {
                self.ahead.arrives(hint.first);
            }
        }
    }

    // Reads blocks that are wanted soon, and looks how long that takes, where it is asked to. False: they are not read.
    fn read_ahead(&self, hint: Hint, is_looked_at: bool) -> bool {
        let Some((place, bytes)) = self.ahead.begin(BLOCK_LENGTH * usize::from(hint.blocks)) else {
            return false;
        };
        let (disk, writes) = (self.disk, self.watch.writes());
        let beside = Beside {
            disk,
            first: hint.first,
            writes,
        };
        match read_behind(&*self.preparer, beside, bytes, is_looked_at) {
            Some(memory) => {
                self.ahead.end(place, hint.first, memory);
                true
            }
            None => false,
        }
    }

    // Reads ahead. What is too much for one answer goes along with what is asked next. The first run is looked at: while the disk counts
    // as fast it is told of nothing, so each run takes the time of a disk that is slow, and whoever takes what comes from here never looks.
    fn read_on(&self) {
        let mut room = MOST_AHEAD;
        let mut is_first = true;
        for hint in &self.hints {
            if !self.is_next(*hint) {
                continue;
            }
            let length = BLOCK_LENGTH * usize::from(hint.blocks);
            let (may_read, fits) = (self.ahead.may_read_now(length), length <= room);
            room = room.saturating_sub(length);
            if may_read && fits && self.has_time() && self.read_ahead(*hint, is_first) {
                is_first = false;
                continue;
            }
            self.ahead.stays_away(hint.first);
            if may_read && !fits {
                self.ahead.keep(&self.rt, *hint);
            }
        }
    }

    // Flushes, and tells the watch of a flush that is done.
    fn flush(&self) -> bool
        ensures { IsTrue result → P.has_flushed self.now.disk }
    {
        let written = self.watch.written();
        let is_flushed = self.preparer.flush();
        if is_flushed {
            self.watch.has_flushed(written);
        }
        is_flushed
    }

    // Does what is wanted, but for a read, which has memory: whether a flush was done.
    fn does(&self, wanted: PreparerCall) -> bool
        ensures { IsTrue result → P.has_flushed self.now.disk }
    {
        match wanted {
            PreparerCall::Fetch(first, blocks) => self.preparer.fetch(first, blocks),
            PreparerCall::FetchEdges(first, blocks) => self.preparer.fetch_edges(first, blocks),
            PreparerCall::Flush => return self.flush(),
            PreparerCall::Read(..) => {}
        }
        false
    }
}

impl<R: Wait + Clock + Drop, P: Preparer> Runner<PreparerRequest<P>> for PreparerRunner<R, P> {
    fn run(&mut self, request: PreparerRequest<P>) -> PreparerRequest<P> {
        let (serial, wanted) = (request.serial, request.wanted);
        let is_at_work = self.listen(wanted);
        let memory = match (wanted, request.memory) {
            (PreparerCall::Read(first, is_looked_at), Some(memory)) => {
                self.preparer.read(first, memory.bytes, is_looked_at)
            }
            _ => None,
        };
        let is_flushed = self.does(wanted);
        self.arrive();
        // else it is at work until it has read ahead
        if is_at_work && !self.has_more {
            self.ahead.end_work();
        }
        PreparerRequest {
            serial,
            wanted,
            disk: self.disk,
            is_flushed,
            memory,
            of: PhantomData,
        }
    }

    fn has_more(&self) -> bool {
        self.has_more
    }

    fn go_on(&mut self) {
        self.read_on();
        self.ahead.end_work();
    }
}
