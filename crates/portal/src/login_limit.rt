//! The one deadline of a login.

use crate::logins::LoginPlace;
use crate::observer::Observer;
use live_sessions::Connection;
use session::{Source, Unread};
use std::sync::Wait;
use std::time::{Clock, Duration};

/// A source whose connection ends where its login is not over in time, however often bytes come until then.
pub struct LimitedSource<'a, R: Wait + Clock, S, C: Connection + Drop> {
    inner: S,
    rt: &'a R,
    connection: &'a C,
    place: &'a LoginPlace<'a, R, C>,
    observer: &'a Observer<'a, R>,
    // By the clock, where it tells anything.
    began: Option<Duration>,
    // In seconds.
    limit: u64,
}

impl<R: Wait + Clock, S: Drop, C: Connection + Drop> Drop for LimitedSource<'_, R, S, C> {
    fn drop(self) {
        let Self {
            inner: _,
            rt: _,
            connection: _,
            place: _,
            observer: _,
            began: _,
            limit: _,
        } = self;
    }
}

impl<'a, R: Wait + Clock, S, C: Connection + Drop> LimitedSource<'a, R, S, C> {
    /// The source of a connection whose login begins now, and has so many seconds. Behind it the connection leaves this place, unless it is
    /// that of a discovery session, as this one is told who looks at it.
    pub fn new(
        inner: S,
        rt: &'a R,
        connection: &'a C,
        place: &'a LoginPlace<'a, R, C>,
        observer: &'a Observer<'a, R>,
        limit: u64,
    ) -> LimitedSource<'a, R, S, C> {
        LimitedSource {
            inner,
            rt,
            connection,
            place,
            observer,
            began: rt.monotonic().ok(),
            limit,
        }
    }

    // How many seconds are left, begun ones with them.
    fn left(&self) -> u64 {
        match (self.began, self.rt.monotonic()) {
            (Some(began), Ok(now)) => self
                .limit
                .saturating_sub(now.saturating_sub(began).as_secs()),
            _ => self.limit,
        }
    }

    // The next read of the login waits for what is left of its time; where nothing is, the connection ends.
    fn hurry(&self) {
        match self.left() {
            0 => self.connection.shut(),
            left => self.connection.limit(left),
        }
    }
}

impl<R: Wait + Clock, S: Source, C: Connection + Drop> Source for LimitedSource<'_, R, S, C> {
    ghost left = { λ s. S.left s.inner };

    ghost failures = { λ s. S.failures s.inner };

    fn read_some(&mut self, buf: &mut [u8], may_be_silent: bool) -> Result<usize, Unread> {
        // Only a login may not be silent.
        if !may_be_silent {
            self.hurry();
        } else if !self.observer.is_discovery() {
            self.place.leave();
        }
        self.inner.read_some(buf, may_be_silent)
    }
}
