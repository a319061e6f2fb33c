//! The connections whose login is not over, and those of discovery sessions, which whoever comes may begin as many of as he likes.
ghost use Rattle.std.specs.Prelude.{◌≡◌, ◌+◌, IfSome};

use live_sessions::Connection;
use scsi_types::NoMemory;
use std::alloc::Global;
use std::cell::Cell;
use std::marker::Model;
use std::sync::{Mutex, Wait};

/// So many connections wait for the end of their login, or are those of discovery sessions. Where one more comes, the one that came first
/// is closed: so nobody shuts hosts out by connections that do not log in.
const LOGINS: usize = 128;

/// So many threads serve such connections, with those whose connection was closed; where one more would be needed, it is closed at once.
const THREADS: u64 = 256;

// A connection, of a number that no other has.
#[derive(Drop)]
struct Waiting<C> {
    number: u64,
    connection: C,
}

/// The connections whose login is not over, and those of discovery sessions, the one that came first in front. Contracts see how many
/// there are, and how many threads serve them.
#[derive(Drop)]
pub struct Logins<C> {
    waiting: Vec<Waiting<C>>,
    threads: u64,
    // How many have come.
    begun: u64,
}

impl<C> Model for Logins<C> {
    ghost use Rattle.std.specs.Prelude.{◌≤◌, length};
    ghost use Rattle.portal.specs.Logins.{LoginsValue, most_logins, most_threads};

    ghost Value = { LoginsValue };

    ghost view = { λ l. record { waiting = length l.waiting.items; threads = l.threads } };

    ghost invariant = { λ l. (length l.waiting.items ≤ most_logins) × (l.threads ≤ most_threads) };
}

impl<C> Logins<C> {
    /// None has come. There is room for all that may wait.
    pub fn none(alloc: Global) -> Result<Logins<C>, NoMemory> {
        Ok(Logins {
            waiting: Vec::with_capacity(alloc, LOGINS)?,
            threads: 0,
            begun: 0,
        })
    }

    /// A connection has come, and has a thread: its number. None: it is closed at once.
    pub fn admit(&mut self, connection: C) -> Option<u64>
    where
        C: Connection + Drop,
        ensures { IfSome result (λ _. self.new.threads ≡ self.old.threads + 1) }
    {
        if self.threads >= THREADS {
            return None;
        }
        if self.waiting.len() >= LOGINS {
            self.waiting.remove(0).connection.shut();
        }
        let number = self.begun;
        self.waiting.push(Waiting { number, connection }).ok()?;
        self.begun = number.wrapping_add(1);
        self.threads += 1;
        Some(number)
    }

    /// Whether the connection with this number was closed, since another one came.
    fn has_shut(&self, number: u64) -> bool {
        !self.waiting.iter().any(|one| one.number == number)
    }

    /// The login of the connection with this number is over, or its thread ends.
    pub fn leave(&mut self, number: u64)
    where
        C: Drop,
    {
        self.waiting.retain(|one| one.number != number);
        self.threads = self.threads.saturating_sub(1);
    }
}

/// The place of a connection among those whose login is not over, until it leaves it.
#[derive(Drop)]
pub(crate) struct LoginPlace<'a, R: Wait, C: Drop> {
    rt: &'a R,
    logins: &'a Mutex<Logins<C>>,
    number: Cell<Option<u64>>,
}

impl<'a, R: Wait, C: Drop> LoginPlace<'a, R, C> {
    // That of the connection with this number.
    pub(crate) fn new(
        rt: &'a R,
        logins: &'a Mutex<Logins<C>>,
        number: u64,
    ) -> LoginPlace<'a, R, C> {
        LoginPlace {
            rt,
            logins,
            number: Cell::new(Some(number)),
        }
    }

    // Whether it was lost to a connection that came later.
    pub(crate) fn is_lost(&self) -> bool {
        match self.number.get() {
            Some(number) => self.logins.lock(self.rt).has_shut(number),
            None => false,
        }
    }

    // The login is over, or the thread ends.
    pub(crate) fn leave(&self) {
        if let Some(number) = self.number.replace(None) {
            self.logins.lock(self.rt).leave(number);
        }
    }
}
