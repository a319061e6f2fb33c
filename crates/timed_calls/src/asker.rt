//! One who asks a thread, and waits for the answer.
ghost use Rattle.std.specs.Prelude.{◌≡◌, ◌+◌, IfOk, IfSome, Some, false};
ghost use Rattle.std.specs.Arc.{arc_value};

use crate::handing::{Asked, AskingEnd, ends};
use crate::waiting::{Looks, Runner};
use crate::watch::Watch;
use events::Call;
use std::alloc::Global;
use std::sync::atomic::Ordering;
use std::sync::{Arc, Wait};
use std::thread::{Builder, JoinHandle, Threads};
use std::time::{Clock, Duration};
use std::{io, mem};

/// So many bytes has the stack of the thread.
const STACK: usize = 256 * 1024;

/// How often one who asked looks for the answer before it sleeps, and the thread for what is asked: some 20 and 80 microseconds.
const FOR_ANSWERS: u32 = 10_000;

pub const FOR_REQUESTS: u32 = 40_000;

/// A read for which one has slept so many microseconds came from a slow disk.
const LONG: u64 = 500;

/// The right to ask once, under this number.
#[derive(Drop)]
pub struct Turn {
    pub serial: u64,
}

/// One who asks, by a thread of its own. The request is the right to ask: whoever has waited for one in vain has none until it comes back.
pub struct Asker<R: Wait + Clock + Drop, E: Asked> {
    rt: R,
    end: AskingEnd<E>,
    watch: Arc<Watch, Global>,
    looks: Looks,
    request: Option<E>,
    // The number of what was asked last.
    asked: u64,
    // Whether a call that was given up has come back, of which nobody was told.
    is_late: bool,
}

impl<R: Wait + Clock + Drop, E: Asked> Drop for Asker<R, E> {
    fn drop(self) {
        let Self {
            rt: _,
            mut end,
            watch: _,
            looks: _,
            request: _,
            asked: _,
            is_late: _,
        } = self;
        end.close();
    }
}

impl<R: Threads + Wait + Clock + Clone + Drop + Send + 'static, E: Asked + Send + 'static> Asker<
    R,
    E,
> {
    /// Starts the thread that runs what is asked, by this request, of a file that is watched.
    pub fn start<W: Runner<E> + Drop + Send + 'static>(
        rt: &R,
        alloc: Global,
        runner: W,
        request: E,
        watch: &Arc<Watch, Global>,
    ) -> io::Result<Asker<R, E>>
        ensures { IfOk result (λ a. arc_value a.watch ≡ arc_value watch.now) }
    {
        Asker::start_looking(rt, alloc, runner, request, watch, FOR_REQUESTS)
    }

    /// The same; the thread looks so often for what is asked before it sleeps.
    pub fn start_looking<W: Runner<E> + Drop + Send + 'static>(
        rt: &R,
        alloc: Global,
        runner: W,
        request: E,
        watch: &Arc<Watch, Global>,
        most: u32,
    ) -> io::Result<Asker<R, E>>
        ensures { IfOk result (λ a. arc_value a.watch ≡ arc_value watch.now) }
    {
        let (end, mut theirs) = ends(alloc)?;
        let (watch, watched) = (Arc::try_clone(watch)?, Arc::try_clone(watch)?);
        let (mine, other) = (rt.clone()?, rt.clone()?);
        let mut runner = runner;
        let work = move || theirs.serve(&other, &watched, &mut runner, most);
        let _thread: JoinHandle<()> = Builder::new().stack_size(STACK).spawn(rt, work)?;
        Ok(Asker {
            rt: mine,
            end,
            watch,
            looks: Looks::up_to(FOR_ANSWERS),
            request: Some(request),
            asked: 0,
            is_late: false,
        })
    }
}

impl<R: Wait + Clock + Drop, E: Asked> Asker<R, E> {
    /// What all share that ask calls of the file.
    pub fn watch(&self) -> &Watch {
        &self.watch
    }

    /// Whether the thread still has something to do behind an answer.
    pub fn goes_on(&self) -> bool {
        self.end.handover.goes_on.load(Ordering::Acquire)
    }

    /// Takes the request in hand, to say what is asked, and the right to ask it under the next number. None: a call of the file hangs.
    pub fn take(&mut self) -> Option<(Turn, E)>
        ensures next { IfSome result (λ t. (t.0.serial ≡ self.old.asked + 1) × (self.new.asked ≡ self.old.asked + 1)) }
    {
        if self.watch.is_hung() {
            return None;
        }
        let serial = self.asked.checked_add(1)?;
        let request = match self.request.take() {
            Some(request) => request,
            None => {
                let late = self.end.take()?;
                self.is_late = true;
                late
            }
        };
        self.asked = serial;
        Some((Turn { serial }, request))
    }

    /// Whether a call that was given up has come back; it is told once.
    pub fn has_come_late(&mut self) -> bool
        ensures told { result ≡ self.old.is_late }
        ensures once { (self.new.is_late ≡ false) × (self.new.request ≡ self.old.request) × (self.new.asked ≡ self.old.asked) }
    {
        mem::replace(&mut self.is_late, false)
    }

    /// Keeps the request for the next time.
    pub fn keep(&mut self, request: E)
        ensures { (self.new.request ≡ Some request) × (self.new.asked ≡ self.old.asked) }
    {
        self.request = Some(request);
    }

    // Tells of a read for which one has slept since then, where that was long.
    fn note_long(&self, call: Call, began: Duration) {
        if let Call::Read = call
            && let Ok(now) = self.rt.monotonic()
            && now.saturating_sub(began) >= Duration::from_micros(LONG)
        {
            self.watch.lag();
        }
    }

    // Whether it is answered in time, while one sleeps. Else it hangs, from now on until it comes back.
    fn is_done(&mut self, serial: u64, call: Call) -> bool
        ensures known { self.new.end.seat.me ≡ self.old.end.seat.me }
        ensures same { (self.new.request ≡ self.old.request) × (self.new.asked ≡ self.old.asked) }
    {
        self.watch.sleep();
        let began = self.rt.monotonic().unwrap_or(Duration::MAX);
        if self
            .end
            .is_answered_in_time(&self.rt, &self.watch, serial, call)
        {
            self.note_long(call, began);
            return true;
        }
        self.watch.hang(&self.rt, call);
        if self.end.give_up() {
            return false;
        }
        self.watch.come_back(&self.rt, call);
        true
    }

    /// Asks, by the right to it, and waits for the answer to this and to nothing before: it has this number, and what it was given to be
    /// written is what was given now. None: it has not come in time; then there is no request until it comes.
    pub fn ask(&mut self, turn: Turn, request: E) -> Option<E>
        requires { E.serial request ≡ turn.serial }
        ensures answered { IfSome result (λ e. (E.serial e ≡ E.serial request) × (E.given e ≡ E.given request)) }
        ensures same { (self.new.request ≡ self.old.request) × (self.new.asked ≡ self.old.asked) }
    {
        if !self.end.holds() {
            return None;
        }
        let (serial, call) = (turn.serial, request.call());
        let looks = self.looks.next();
        let is_soon = self.end.is_done_soon(request, looks);
        self.looks.learn(looks, is_soon);
        if !is_soon && !self.is_done(serial, call) {
            return None;
        }
        self.end.take()
    }
}
