//! A preparer whose calls have a deadline.
ghost use Rattle.std.specs.Prelude.{◌≡◌, true, IfOk, IfSome, IsTrue, length};
ghost use Rattle.std.specs.Arc.{arc_value};
ghost use Rattle.timed_calls.specs.Back.{had_come_back};

use crate::ahead::{Ahead, Hint, HintKind, has_edges};
use crate::preparer_request::{PreparerCall, PreparerRequest, PreparerRunner};
use disk_preparer::{Account, Beside, BlockMemory, Node, Preparer};
use std::alloc::Global;
use std::io;
use std::sync::atomic::{AtomicUsize, Ordering};
use std::sync::{Arc, Mutex, MutexGuard, Wait};
use std::thread::Threads;
use std::time::{Clock, Duration};
use timed_calls::{Asker, FOR_REQUESTS, Watch};

/// So many calls that fetch blocks are made at a time, and so many flushes.
const THREADS: usize = 16;

/// So many bytes are read beside the device, and fewer only where somebody looks. The way to a thread and back is dearer than the wait
/// for these under the lock.
const MUCH: usize = 32768;

/// A preparer whose calls are made by threads of its own, as many at a time as there are.
pub struct DeadlinedPreparer<R: Wait + Clock + Drop, P: Preparer> {
    rt: R,
    preparer: Arc<P, Global>,
    node: Node,
    watch: Arc<Watch, Global>,
    fetchers: Vec<Mutex<Asker<R, PreparerRequest<P>>>>,
    flushers: Vec<Mutex<Asker<R, PreparerRequest<P>>>>,
    turns: AtomicUsize,
    ahead: Arc<Ahead, Global>,
    ghost watched: { (arc_value watch).node ≡ node },
}

impl<R: Wait + Clock + Drop, P: Preparer> Drop for DeadlinedPreparer<R, P> {
    fn drop(self) {
        let Self {
            rt: _,
            preparer: _,
            node: _,
            watch: _,
            fetchers: _,
            flushers: _,
            turns: _,
            ahead: _,
        } = self;
    }
}

// Starts threads for the calls of a preparer.
fn askers<
    R: Threads + Wait + Clock + Clone + Drop + Send + 'static,
    P: Preparer + Send + Sync + 'static,
>(
    rt: &R,
    alloc: Global,
    preparer: &Arc<P, Global>,
    disk: Node,
    watch: &Arc<Watch, Global>,
    ahead: &Arc<Ahead, Global>,
) -> io::Result<Vec<Mutex<Asker<R, PreparerRequest<P>>>>>
    requires disk { P.disk (arc_value preparer.now) ≡ disk }
    requires watched { (arc_value watch.now).node ≡ disk }
{
    let mut askers = Vec::with_capacity(alloc, THREADS)?;
    for number in 0..THREADS {
        let served = PreparerRunner::new(
            rt.clone()?,
            alloc,
            Arc::try_clone(preparer)?,
            disk,
            Arc::try_clone(watch)?,
            Arc::try_clone(ahead)?,
        )?;
        let request = PreparerRequest::of(0, PreparerCall::Flush, disk);
        let looks = if number == 0 {
            FOR_REQUESTS
        } else {
            FOR_REQUESTS / 40
        };
        askers.push(Mutex::new(Asker::start_looking(rt, alloc, served, request, watch, looks)?))?;
    }
    Ok(askers)
}

impl<
    R: Threads + Wait + Clock + Clone + Drop + Send + 'static,
    P: Preparer + Send + Sync + 'static,
> DeadlinedPreparer<R, P> {
    /// Starts the threads of the preparer of this disk.
    pub fn start(
        rt: &R,
        alloc: Global,
        preparer: P,
        disk: Node,
        watch: &Arc<Watch, Global>,
    ) -> io::Result<DeadlinedPreparer<R, P>>
        requires disk { P.disk preparer ≡ disk }
        requires watched { (arc_value watch.now).node ≡ disk }
        ensures { IfOk result (λ p. p.node ≡ disk) }
    {
        let preparer = Arc::new(alloc, preparer)?;
        let ahead = Arc::new(alloc, Ahead::new(alloc)?)?;
        let fetchers = askers(rt, alloc, &preparer, disk, watch, &ahead)?;
        let flushers = askers(rt, alloc, &preparer, disk, watch, &ahead)?;
        Ok(DeadlinedPreparer {
            rt: rt.clone()?,
            preparer,
            node: disk,
            watch: Arc::try_clone(watch)?,
            fetchers,
            flushers,
            turns: AtomicUsize::new(0),
            ahead,
        })
    }
}

// Has a thread do what is wanted: whether a flush was done.
fn ask_by<R: Wait + Clock + Drop, P: Preparer>(
    asker: &mut Asker<R, PreparerRequest<P>>,
    wanted: PreparerCall,
    disk: Node,
) -> bool
    ensures { IsTrue result → P.has_flushed disk }
{
    let Some((turn, _request)) = asker.take() else {
        return false;
    };
    let request = PreparerRequest::of(turn.serial, wanted, disk);
    let Some(answered) = asker.ask(turn, request) else {
        return false;
    };
    let is_flushed = answered.has_flushed(disk);
    asker.keep(answered);
    is_flushed
}

impl<R: Wait + Clock + Drop, P: Preparer> DeadlinedPreparer<R, P> {
    // One who asks and has nothing to do, or one for whom others wait too; none where there is none.
    fn free<'a>(
        &'a self,
        askers: &'a [Mutex<Asker<R, PreparerRequest<P>>>],
    ) -> Option<MutexGuard<'a, Asker<R, PreparerRequest<P>>>> {
        if askers.is_empty() {
            return None;
        }
        // The first ones, which were busy last, do not sleep yet.
        for asker in askers {
            if let Some(free) = asker.try_lock()
                && !free.goes_on()
            {
                return Some(free);
            }
        }
        let turn = self.turns.fetch_add(1, Ordering::Relaxed) % askers.len();
        Some(askers[turn].lock(&self.rt))
    }

    // What is wanted from this block on, behind a look at how many writes have come back.
    fn look(&self, first: u64) -> Beside
        ensures { had_come_back result.disk result.writes }
    {
        let (disk, writes) = (self.node, self.watch.writes());
        Beside {
            disk,
            first,
            writes,
        }
    }

    // Has a thread fetch blocks.
    fn ask_fetcher(&self, wanted: PreparerCall) {
        if let Some(mut asker) = self.free(&self.fetchers) {
            ask_by(&mut asker, wanted, self.node);
        }
    }
}

// Has a thread read blocks of this disk beside its device. None: the memory is gone.
fn read_by<R: Wait + Clock + Drop, P: Preparer>(
    asker: &mut Asker<R, PreparerRequest<P>>,
    wanted: PreparerCall,
    bytes: Vec<u8>,
    disk: Node,
) -> Option<BlockMemory> {
    let (turn, _request) = asker.take()?;
    let request = PreparerRequest::reading(turn.serial, wanted, disk, bytes);
    let answered = asker.ask(turn, request)?;
    let mut answered = answered;
    let memory = answered.memory.take();
    asker.keep(answered);
    memory
}

// Has a thread read blocks beside the device, behind such a look, which stands for its stamp. None: the memory is gone.
#[tactic(auto, using(timed_calls::specs::Back::a_read_behind_a_look_says))]
fn read_behind<R: Wait + Clock + Drop, P: Preparer>(
    asker: &mut Asker<R, PreparerRequest<P>>,
    beside: Beside,
    bytes: Vec<u8>,
    is_looked_at: bool,
) -> Option<BlockMemory>
    requires { had_come_back beside.disk beside.writes }
    ensures { IfSome result (λ memory. length memory.bytes.items ≡ length bytes.items) }
{
    let count = bytes.len();
    let wanted = PreparerCall::Read(beside.first, is_looked_at);
    let memory = read_by(asker, wanted, bytes, beside.disk)?;
    if memory.bytes.len() != count {
        return None;
    }
    match memory.beside {
        Some(read) if memory.holds(beside.disk, beside.first, read.writes) => {
            Some(BlockMemory::read(memory.bytes, beside))
        }
        _ => Some(BlockMemory::fresh(memory.bytes)),
    }
}

impl<R: Wait + Clock + Drop, P: Preparer> Preparer for DeadlinedPreparer<R, P> {
    ghost may_flush = { P.may_flush };

    ghost disk = { λ p. p.node };

    ghost has_flushed = { P.has_flushed };

    // What waits together is read together, however fast the disk is.
    fn wants_hints(&self) -> bool {
        true
    }

    fn advise(&self, first: u64, blocks: u16) {
        let kind = if self.ahead.pays(blocks) {
            HintKind::Read
        } else if self.preparer.wants_hints() {
            HintKind::Fetch
        } else {
            return;
        };
        self.ahead.keep(&self.rt, Hint::of(kind, first, blocks));
    }

    fn advise_edges(&self, first: u64, blocks: u16) {
        if has_edges(first, blocks) && self.preparer.wants_hints() {
            let hint = Hint::of(HintKind::Edges, first, blocks);
            self.ahead.keep(&self.rt, hint);
        }
    }

    // To look costs the way to a thread that sleeps. So while the disk counts as fast, it is looked at only where the device has kept
    // somebody waiting: now and then, and at once where a read has taken long.
    fn wants(&self, serial: u64) -> bool {
        self.preparer.wants_hints()
            || self.watch.has_lagged()
            || self.preparer.wants(serial) && self.watch.has_slept()
    }

    fn fetch(&self, first: u64, blocks: u16) {
        self.ask_fetcher(PreparerCall::Fetch(first, blocks));
    }

    fn fetch_edges(&self, first: u64, blocks: u16) {
        if has_edges(first, blocks) && !self.ahead.take_arrived(first) {
            self.ask_fetcher(PreparerCall::FetchEdges(first, blocks));
        }
    }

    fn read(&self, first: u64, bytes: Vec<u8>, is_looked_at: bool) -> Option<BlockMemory> {
        let memory = self.ahead.exchange(self.look(first), bytes);
        let is_left = !is_looked_at
            && memory.bytes.len() < MUCH
            && !self.ahead.has_others(&self.rt);
        if memory.beside.is_some() || is_left {
            return Some(memory);
        }
        match self.free(&self.fetchers) {
            Some(mut asker) => {
                read_behind(&mut asker, self.look(first), memory.bytes, is_looked_at)
            }
            None => Some(memory),
        }
    }

    fn flushes(&self) -> bool {
        self.preparer.flushes()
    }

    fn flush(&self) -> bool {
        match self.free(&self.flushers) {
            Some(mut asker) => ask_by(&mut asker, PreparerCall::Flush, self.node),
            None => false,
        }
    }

    // These call no file.
    fn let_in(&self, bytes: u64, account: &mut Account, patience: Duration) {
        if !self.watch.is_hung() {
            self.preparer
                .let_in(bytes, account, patience.min(self.watch.patience()));
        }
    }

    fn await_flush(&self, among: u64) -> bool {
        self.preparer.await_flush(among)
    }

    fn close(&self) {
        self.preparer.close();
    }
}
