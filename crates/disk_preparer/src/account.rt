//! What a session has written to a disk of late.

/// So many microseconds a session makes up for.
const LATE: u64 = 50_000;

/// What a session has written to a disk of late, in bytes. It has one command at a time, so what it wrote before has ended when
/// it writes again.
#[derive(Clone, Copy)]
pub struct Account {
    // What the disk was not told of yet.
    untold: u64,
    // How many flushes had begun; what was written since the last one of them, and between that and the one before.
    round: u64,
    now: u64,
    before: u64,
    // Whether the disk counts this session among those that write much, in this round.
    is_counted: bool,
    // When its turn comes, in microseconds.
    turn: u64,
}

impl Account {
    /// Of a session that has written nothing.
    pub const fn new() -> Account {
        Account {
            untold: 0,
            round: 0,
            now: 0,
            before: 0,
            is_counted: false,
            turn: 0,
        }
    }

    /// What the disk is to be told of, where it is so much; else nothing.
    pub fn told(&mut self, least: u64) -> u64 {
        if self.untold < least {
            return 0;
        }
        let told = self.untold;
        self.untold = 0;
        told
    }

    /// The session writes so many bytes, when so many flushes of the disk have begun.
    pub fn writes(&mut self, round: u64, bytes: u64) {
        if self.round != round {
            self.before = if self.round.wrapping_add(1) == round {
                self.now
            } else {
                0
            };
            self.now = 0;
            self.round = round;
            self.is_counted = false;
        }
        self.untold = self.untold.saturating_add(bytes);
        self.now = self.now.saturating_add(bytes);
    }

    /// What it has written since the last flush but one began.
    pub fn recent(&self) -> u64 {
        self.now.saturating_add(self.before)
    }

    /// Whether the disk has yet to count it among those that write much.
    pub fn is_new(&mut self) -> bool {
        let is_new = !self.is_counted;
        self.is_counted = true;
        is_new
    }

    /// For how many microseconds its turn is ahead, behind a write that takes so many of them. Where it has slept longer than it was to,
    /// it makes up for some of that.
    pub fn ahead(&mut self, now: u64, cost: u64) -> u64 {
        self.turn = self.turn.max(now.saturating_sub(LATE)).saturating_add(cost);
        self.turn.saturating_sub(now)
    }
}
