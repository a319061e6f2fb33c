//! What whoever reaches a portal may make as many of as he likes, connections that end without a login, logins that are refused, or
//! discovery sessions: of a spell, a line tells each of the first ones, and one more how many others there were. What hosts do that are in
//! is told likewise, but for more of it.

/// So many seconds a spell lasts.
const SPELL: u64 = 60;

/// Of so many such ends of a spell a line each tells.
const LINES: u64 = 32;

/// Of so many deeds of hosts that are in.
const LINES_OF_HOSTS: u64 = 1000;

/// The ends of the spell that lasts.
#[derive(Drop)]
pub struct Strangers {
    // Of so many a line each tells.
    most: u64,
    // When it began, in seconds; how many lines tell of it, and of how many ends none does.
    began: u64,
    told: u64,
    untold: u64,
}

impl Strangers {
    // Of no spell; of so many of each a line tells.
    const fn up_to(most: u64) -> Strangers {
        Strangers {
            most,
            began: 0,
            told: 0,
            untold: 0,
        }
    }

    /// Of no spell.
    pub const fn none() -> Strangers {
        Strangers::up_to(LINES)
    }

    /// The same, of what hosts do that are in.
    pub const fn of_hosts() -> Strangers {
        Strangers::up_to(LINES_OF_HOSTS)
    }

    /// Whether the spell is over at this second, also where the clock was set back.
    fn is_over(&self, now: u64) -> bool {
        now < self.began || now - self.began >= SPELL
    }

    /// A connection ends so at this second: whether a line tells of it alone.
    pub fn is_told(&mut self, now: u64) -> bool {
        if self.is_over(now) && self.untold == 0 {
            self.began = now;
            self.told = 0;
        }
        if self.told < self.most {
            self.told = self.told.saturating_add(1);
            return true;
        }
        self.untold = self.untold.saturating_add(1);
        false
    }

    /// Of how many ends a line tells together at this second, where the spell is over, or the log ends: of none else.
    pub fn sum(&mut self, now: u64, is_last: bool) -> u64 {
        if self.untold == 0 || !(is_last || self.is_over(now)) {
            return 0;
        }
        let sum = self.untold;
        self.began = now;
        self.told = 0;
        self.untold = 0;
        sum
    }
}
