//! How one who asks and a thread wait for each other at the ends of a handover.
ghost use Rattle.std.specs.Prelude.{◌≡◌, true};

use crate::handing::{
    ANSWERED, ASKED, AWAITED, Asked, AskingEnd, Handover, LATE, OVER, RESTING, ServingEnd,
};
use crate::spent::Spent;
use crate::watch::Watch;
use events::Call;
use std::hint::spin_loop;
use std::sync::Wait;
use std::sync::atomic::Ordering;
use std::time::{Clock, Duration};

/// After it has looked in vain so often in a row, a side sleeps at once so often, and then tries again.
const IN_VAIN: u32 = 3;

const AT_ONCE: u32 = 64;

/// What a thread does with a request.
pub trait Runner<E: Asked> {
    /// The answer has the number of its asking, and what was given to be written is what was.
    fn run(&mut self, request: E) -> E
        ensures { (E.serial result ≡ E.serial request) × (E.given result ≡ E.given request) };

    /// Whether it has something to do behind its answer, for which nobody waits but who asks it next.
    fn has_more(&self) -> bool {
        false
    }

    /// Does that.
    fn go_on(&mut self) {}
}

// How often one side looks for the other one before it sleeps. Where that has no processor it comes too late, and to look only keeps
// it from the one that is used for that.
#[derive(Drop)]
pub struct Looks {
    most: u32,
    in_vain: u32,
}

impl Looks {
    // So often at most.
    pub fn up_to(most: u32) -> Looks {
        Looks { most, in_vain: 0 }
    }

    // How often this time.
    pub fn next(&mut self) -> u32 {
        if self.in_vain < IN_VAIN {
            return self.most;
        }
        self.in_vain = if self.in_vain < IN_VAIN + AT_ONCE {
            self.in_vain + 1
        } else {
            IN_VAIN - 1
        };
        0
    }

    // Whether the other side came while one looked so often.
    pub fn learn(&mut self, looks: u32, came: bool) {
        if looks > 0 {
            self.in_vain = if came {
                0
            } else {
                self.in_vain.saturating_add(1)
            };
        }
    }
}

// How much of a time is left that began then.
pub fn left<R: Clock>(rt: &R, begun: Duration, patience: Duration) -> Option<Duration> {
    let Ok(now) = rt.monotonic() else {
        return None;
    };
    let left = patience.saturating_sub(now.saturating_sub(begun));
    if left.is_zero() { None } else { Some(left) }
}

impl<E: Asked> Handover<E> {
    // Whether it is answered while one looks so often.
    fn is_answered_soon(&self, looks: u32) -> bool {
        for _ in 0..looks {
            match self.turn() {
                ASKED | AWAITED => spin_loop(),
                _ => return true,
            }
        }
        false
    }

    // Whether the thread is at this request, or still at something of its own behind the answer before.
    fn is_at(&self, serial: u64) -> bool {
        self.begun.load(Ordering::Acquire) == serial || self.goes_on.load(Ordering::Acquire)
    }

    // Whether something is asked while the thread looks so often; none where it is not known yet.
    fn is_asked_soon(&self, looks: u32) -> Option<bool> {
        for _ in 0..looks {
            match self.turn() {
                ASKED | AWAITED | LATE => return Some(true),
                OVER => return Some(false),
                _ => spin_loop(),
            }
        }
        None
    }
}

impl<E: Asked> AskingEnd<E> {
    // Whether this request, which is this call, is answered in its time, asleep. A clock that cannot be read ends the wait.
    pub fn is_answered_in_time<R: Wait + Clock>(
        &mut self,
        rt: &R,
        watch: &Watch,
        serial: u64,
        call: Call,
    ) -> bool
        ensures { self.new.seat.me ≡ self.old.seat.me }
    {
        let Some(mut spent) = Spent::none(rt, watch) else {
            return false;
        };
        for _ in rt.forever() {
            match self.handover.turn() {
                ASKED => {
                    self.change(ASKED, AWAITED);
                }
                AWAITED => {
                    let is_at_it = self.handover.is_at(serial);
                    if spent.is_all(watch, call) {
                        return false;
                    }
                    self.handover.sleep_for(rt, AWAITED as u32, spent.nap());
                    if !spent.go_on(rt, watch, call, is_at_it) {
                        return false;
                    }
                }
                _ => return true,
            }
        }
        unreachable!()
    }

    // Gives a request up: whether it was not answered yet. Its thread then tells the watch when it comes back.
    pub fn give_up(&mut self) -> bool
        ensures { self.new.seat.me ≡ self.old.seat.me }
    {
        self.change(ASKED, AWAITED);
        self.change(AWAITED, LATE)
    }

    // Hands a request to the thread, and looks for the answer so often; whether it has come by then.
    pub fn is_done_soon(&mut self, request: E, looks: u32) -> bool
        requires { self.old.holds ≡ true }
        ensures known { (self.new.seat.me.0.serial ≡ E.serial request) × (self.new.seat.me.0.given ≡ E.given request) }
    {
        if self.hand_over(request) {
            self.handover.wake();
        }
        self.handover.is_answered_soon(looks)
    }
}

impl<E: Asked> ServingEnd<E> {
    // Waits until something is asked. False: nobody asks any more.
    fn is_asked<R: Wait>(&mut self, rt: &R, looks: &mut Looks) -> bool {
        let most = looks.next();
        let soon = self.handover.is_asked_soon(most);
        looks.learn(most, soon.is_some());
        if let Some(is_asked) = soon {
            return is_asked;
        }
        for _ in rt.forever() {
            match self.handover.turn() {
                ASKED | AWAITED | LATE => return true,
                OVER => return false,
                RESTING => self.handover.sleep(rt, RESTING as u32),
                _ => self.change(ANSWERED, RESTING),
            }
        }
        unreachable!()
    }

    // Hands a request back. The call that was given up has come back with it.
    fn answer<R: Wait + Clock>(&mut self, rt: &R, watch: &Watch, request: E)
        requires holds { self.old.holds ≡ true }
        requires same { (E.serial request ≡ self.old.seat.me.0.serial) × (E.given request ≡ self.old.seat.me.0.given) }
    {
        let call = request.call();
        match self.hand_back(request) {
            AWAITED => self.handover.wake(),
            OVER => self.change(ANSWERED, OVER),
            LATE => watch.come_back(rt, call),
            _ => {}
        }
    }

    // Runs this request, and hands it back. One that was given up before the thread came to it is not run.
    fn run<R: Wait + Clock, W: Runner<E>>(
        &mut self,
        rt: &R,
        watch: &Watch,
        runner: &mut W,
        request: E,
    )
        requires holds { self.old.holds ≡ true }
        requires same { (E.serial request ≡ self.old.seat.me.0.serial) × (E.given request ≡ self.old.seat.me.0.given) }
    {
        if self.handover.turn() == LATE {
            self.answer(rt, watch, request);
            return;
        }
        self.handover
            .begun
            .store(request.serial(), Ordering::Release);
        let done = runner.run(request);
        let has_more = runner.has_more();
        self.handover.goes_on.store(has_more, Ordering::Release);
        self.answer(rt, watch, done);
        if has_more {
            runner.go_on();
            self.handover.goes_on.store(false, Ordering::Release);
        }
    }

    // Runs what is asked, until nobody asks any more.
    pub fn serve<R: Wait + Clock, W: Runner<E>>(
        &mut self,
        rt: &R,
        watch: &Watch,
        runner: &mut W,
        most: u32,
    ) {
        let mut looks = Looks::up_to(most);
        for _ in rt.forever() {
            if !self.is_asked(rt, &mut looks) {
                break;
            }
            if let Some(request) = self.take() {
                self.run(rt, watch, runner, request);
            }
        }
    }
}
