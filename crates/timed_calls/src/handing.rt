//! Where one who asks and a thread hand a request to each other. It lies in a slot; a word says whose turn it is, and so who may take it.
//! Both know what the request says of itself that was handed over last. So what comes back is the answer to it and to nothing else.
ghost use Rattle.std.specs.Prelude.{◌≡◌, true, false, IfSome};
ghost use Rattle.std.specs.Arc.{arc_value};
ghost use Rattle.timed_calls.specs.Handing.{Kept, alone, asker, thread, is_asked_at, is_back_at, Takes, TakesBack, HandsOver, Gives, IsOut};

use atomic_table::{Play, Refused, Seat, Split, Table, TableRule};
use events::Call;
use std::alloc::{AllocError, Global};
use std::collections::LinkedList;
use std::sync::atomic::{AtomicBool, AtomicU64};
use std::sync::{Arc, Wait};
use std::time::Duration;

/// Whose turn it is: the request is asked, and who asked looks for the answer.
pub const ASKED: u64 = 1;

/// It is asked, and who asked sleeps.
pub const AWAITED: u64 = 2;

/// It is answered, or was never asked.
pub const ANSWERED: u64 = 3;

/// The same, and the thread sleeps.
pub const RESTING: u64 = 4;

/// Nobody asks any more.
pub const OVER: u64 = 5;

/// It is asked, and who asked has given it up.
pub const LATE: u64 = 6;

/// The word of the turn stands among others, so that it has a cache line of its own.
pub const TURN: usize = 8;

/// What a thread is asked and gives back.
pub trait Asked: Drop {
    ghost use Rattle.std.specs.Prelude.{ℕ, List};

    /// The number of its asking, among those of whoever asked.
    ghost serial: { Self → ℕ };

    /// The bytes that it was given to write.
    ghost given: { Self → List ℕ };

    fn serial(&self) -> u64
        ensures { result ≡ serial self.now };

    /// Which call it is.
    fn call(&self) -> Call;
}

/// What is known of the request at one end. No value of it is made.
pub struct Known {
    // 0: nobody has the other end; 1: who asks; 2: the thread.
    pub role: u64,
    // Whether this end has it.
    pub holds: bool,
    // Its number and its bytes.
    pub serial: u64,
    pub given: LinkedList<u8>,
}

/// The rule of the word and the slot.
pub struct Handing;

impl<E: Asked> TableRule<Option<E>, Known, ()> for Handing {
    ghost holds = { λ _. Kept E.serial E.given };

    ghost first = { λ _. alone };
}

// The second end begins.
struct Begins;

impl Split<Known> for Begins {
    ghost left = { λ k. asker };

    ghost right = { λ k. thread };
}

// The turn changes, or is looked at, and the request stays where it is.
struct Stays;

impl<E> Play<Option<E>, Known> for Stays {
    ghost then = { λ st m n w. w ≡ m };
}

// The thread takes what is asked.
struct TakesAsked;

impl<E: Asked> Play<Option<E>, Known> for TakesAsked {
    ghost then = { Takes E.serial E.given };
}

// Who asked takes what has come back.
struct TakesAnswer;

impl<E: Asked> Play<Option<E>, Known> for TakesAnswer {
    ghost then = { TakesBack E.serial E.given };
}

// Who asks hands it over.
struct Asks;

impl<E: Asked> Play<Option<E>, Known> for Asks {
    ghost then = { HandsOver E.serial E.given };
}

// The thread hands it back.
struct Answers;

impl<E> Play<Option<E>, Known> for Answers {
    ghost then = { Gives };
}

/// The handover between the two.
pub struct Handover<E: Asked> {
    table: Table<Option<E>, Known, (), Handing, Global>,
    // Whether the thread has something to do behind its answer.
    pub goes_on: AtomicBool,
    // The number of the request at which the thread is, or was last.
    pub begun: AtomicU64,
    ghost sized: { (table.shared.table_id.words ≡ 16) × (table.shared.table_id.slots ≡ 1) },
}

impl<E: Asked> Drop for Handover<E> {
    fn drop(self) {
        let Self {
            table: _,
            goes_on: _,
            begun: _,
        } = self;
    }
}

impl<E: Asked> Handover<E> {
    /// Whose turn it is.
    pub fn turn(&self) -> u64 {
        self.table.shared.peek(TURN)
    }

    /// Sleeps while it is this one's turn, for no longer than that.
    pub fn sleep_for<R: Wait>(&self, rt: &R, turn: u32, time: Duration) {
        self.table.shared.park_timeout(rt, TURN, turn, time);
    }

    /// Sleeps while it is this one's turn.
    pub fn sleep<R: Wait>(&self, rt: &R, turn: u32) {
        self.table.shared.park(rt, TURN, turn);
    }

    /// Wakes whoever sleeps.
    pub fn wake(&self) {
        self.table.shared.wake_one(TURN);
    }
}

/// The end of one who asks.
pub struct AskingEnd<E: Asked> {
    pub handover: Arc<Handover<E>, Global>,
    seat: Seat<Option<E>, Known>,
    holds: bool,
    ghost of: { seat.table_id ≡ (arc_value handover).table.shared.table_id },
    ghost role: { seat.me.0.role ≡ 1 },
    ghost known: { seat.me.0.holds ≡ holds },
    ghost slot: { IsOut holds seat.me.1 },
}

/// The end of the thread.
pub struct ServingEnd<E: Asked> {
    pub handover: Arc<Handover<E>, Global>,
    seat: Seat<Option<E>, Known>,
    holds: bool,
    ghost of: { seat.table_id ≡ (arc_value handover).table.shared.table_id },
    ghost role: { seat.me.0.role ≡ 2 },
    ghost known: { seat.me.0.holds ≡ holds },
    ghost slot: { IsOut holds seat.me.1 },
}

impl<E: Asked> Drop for AskingEnd<E> {
    fn drop(self) {
        let Self {
            handover: _,
            seat: _,
            holds: _,
        } = self;
    }
}

impl<E: Asked> Drop for ServingEnd<E> {
    fn drop(self) {
        let Self {
            handover: _,
            seat: _,
            holds: _,
        } = self;
    }
}

/// Both ends of a handover. Nothing is asked yet.
pub fn ends<E: Asked>(alloc: Global) -> Result<(AskingEnd<E>, ServingEnd<E>), AllocError> {
    let mut slots = Vec::with_capacity(alloc, 1)?;
    slots.push(None)?;
    let words = [0, 0, 0, 0, 0, 0, 0, 0, ANSWERED, 0, 0, 0, 0, 0, 0, 0];
    let (table, mut first) = match Table::new(alloc, &words, slots, &()) {
        Ok(made) => made,
        Err(Refused { slots: _ }) => return Err(AllocError),
    };
    let second = table.shared.split_seat::<Begins>(&mut first);
    let handover = Handover {
        table,
        goes_on: AtomicBool::new(false),
        begun: AtomicU64::new(0),
    };
    let handover = Arc::new(alloc, handover)?;
    let other = Arc::try_clone(&handover)?;
    let mut asking = AskingEnd {
        handover,
        seat: first,
        holds: false,
    };
    // The slot is this end's, until something is asked.
    let _ = asking.take();
    let serving = ServingEnd {
        handover: other,
        seat: second,
        holds: false,
    };
    Ok((asking, serving))
}

// Whether the request is asked, and the thread's to take.
fn is_asked(turn: u64) -> bool
    ensures { result ≡ is_asked_at turn }
{
    turn == ASKED || turn == AWAITED || turn == LATE
}

// Whether it is back, and whoever asks may take it.
fn is_back(turn: u64) -> bool
    ensures { result ≡ is_back_at turn }
{
    turn == ANSWERED || turn == RESTING
}

impl<E: Asked> AskingEnd<E> {
    /// Takes the request, where it is back.
    pub fn take(&mut self) -> Option<E>
        ensures taken { IfSome result (λ e. self.new.holds ≡ true
            × E.serial e ≡ self.old.seat.me.0.serial × E.given e ≡ self.old.seat.me.0.given) }
    {
        if self.holds {
            return None;
        }
        let shared = &self.handover.table.shared;
        if !is_back(shared.load::<TakesAnswer>(&mut self.seat, TURN)) {
            return None;
        }
        self.holds = true;
        shared.exchange(&mut self.seat, 0, None)
    }

    /// Whether the slot is this end's, so that a request can be handed over.
    pub fn holds(&self) -> bool
        ensures { result ≡ self.now.holds }
    {
        self.holds
    }

    /// Hands a request over: whether the thread sleeps.
    pub fn hand_over(&mut self, request: E) -> bool
        requires { self.old.holds ≡ true }
        ensures known { (self.new.seat.me.0.serial ≡ E.serial request) × (self.new.seat.me.0.given ≡ E.given request) }
    {
        let shared = &self.handover.table.shared;
        let _ = shared.exchange(&mut self.seat, 0, Some(request));
        self.holds = false;
        shared.swap::<Asks>(&mut self.seat, TURN, ASKED) == RESTING
    }

    /// Makes the turn this one, where it is still that: whether it was. What is known stays.
    pub fn change(&mut self, from: u64, to: u64) -> bool
        requires { is_back_at to ≡ false }
        ensures { self.new.seat.me ≡ self.old.seat.me }
    {
        if self.holds {
            return false;
        }
        let shared = &self.handover.table.shared;
        shared.compare_exchange::<Stays>(&mut self.seat, TURN, from, to) == from
    }

    /// Nobody asks any more.
    pub fn close(&mut self) {
        let shared = &self.handover.table.shared;
        shared.store::<Stays>(&mut self.seat, TURN, OVER);
        shared.wake_all(TURN);
    }
}

impl<E: Asked> ServingEnd<E> {
    /// Takes the request, where it is asked.
    pub fn take(&mut self) -> Option<E>
        ensures taken { IfSome result (λ e. self.new.holds ≡ true
            × E.serial e ≡ self.new.seat.me.0.serial × E.given e ≡ self.new.seat.me.0.given) }
    {
        if self.holds {
            return None;
        }
        let shared = &self.handover.table.shared;
        if !is_asked(shared.load::<TakesAsked>(&mut self.seat, TURN)) {
            return None;
        }
        self.holds = true;
        shared.exchange(&mut self.seat, 0, None)
    }

    /// Hands it back, with the same number and the same bytes to write: whose turn it was.
    pub fn hand_back(&mut self, request: E) -> u64
        requires holds { self.old.holds ≡ true }
        requires same { (E.serial request ≡ self.old.seat.me.0.serial) × (E.given request ≡ self.old.seat.me.0.given) }
    {
        let shared = &self.handover.table.shared;
        let _ = shared.exchange(&mut self.seat, 0, Some(request));
        self.holds = false;
        shared.swap::<Answers>(&mut self.seat, TURN, ANSWERED)
    }

    /// Makes the turn this one, where it is still that.
    pub fn change(&mut self, from: u64, to: u64)
        requires turn { is_asked_at to ≡ false }
    {
        if self.holds {
            return;
        }
        let shared = &self.handover.table.shared;
        shared.compare_exchange::<Stays>(&mut self.seat, TURN, from, to);
    }
}
