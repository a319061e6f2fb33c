//! The time of a line.

use std::alloc::AllocError;
use std::fmt::{self, Display, Formatter};
use std::time::{Clock, Duration};

/// How many seconds a day has.
const DAY: u64 = 86400;

/// A moment, in Coordinated Universal Time, by the Gregorian calendar.
#[derive(Clone, Copy)]
pub struct Stamp {
    year: u64,
    month: u64,
    day: u64,
    second_of_day: u64,
    micros: u32,
}

impl Stamp {
    /// The moment that it is; the beginning of 1970, where the clock cannot be read.
    pub fn now(rt: &impl Clock) -> Stamp {
        Stamp::of(rt.since_1970().unwrap_or(Duration::ZERO))
    }

    /// The moment so long after the beginning of 1970.
    pub fn of(since_1970: Duration) -> Stamp {
        let seconds = since_1970.as_secs();
        let (year, month, day) = date_of(seconds / DAY);
        Stamp {
            year,
            month,
            day,
            second_of_day: seconds % DAY,
            micros: since_1970.subsec_micros(),
        }
    }

    // Its hour, minute and second.
    fn time(&self) -> (u64, u64, u64) {
        let minute = self.second_of_day / 60;
        (minute / 60, minute % 60, self.second_of_day % 60)
    }

    /// Puts it behind a text, to the second.
    pub fn put(&self, text: &mut String) -> Result<(), AllocError> {
        let (hour, minute, second) = self.time();
        let (year, month, day) = (self.year, self.month, self.day);
        write!(text, "{year:04}-{month:02}-{day:02}T")?;
        write!(text, "{hour:02}:{minute:02}:{second:02}Z")
    }
}

// The year, month and day so many days after the beginning of 1970. A year is counted from March on, so that the day that some
// years have more is their last; 400 of them have 146097 days.
fn date_of(days: u64) -> (u64, u64, u64) {
    let days = days.saturating_add(719468);
    let day = days % 146097;
    let year = (day - day / 1460 + day / 36524 - day / 146096) / 365;
    let day = day.saturating_sub(365 * year + year / 4 - year / 100);
    let month = (5 * day + 2) / 153;
    let year = year.saturating_add(days / 146097 * 400);
    let day = day.saturating_sub((153 * month + 2) / 5) + 1;
    if month < 10 {
        (year, month + 3, day)
    } else {
        (year.saturating_add(1), month - 9, day)
    }
}

impl Display for Stamp {
    fn fmt<W: fmt::Write>(&self, f: &mut Formatter<W>) -> fmt::Result {
        let (hour, minute, second) = self.time();
        let (year, month, day, micros) = (self.year, self.month, self.day, self.micros);
        write!(f, "time={year:04}-{month:02}-{day:02}T")?;
        write!(f, "{hour:02}:{minute:02}:{second:02}.{micros:06}Z")
    }
}
