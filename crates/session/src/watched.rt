//! What counts the failures of a reader or a writer of `std`.
ghost use Rattle.std.specs.Prelude.{◌≡◌};
ghost use Rattle.session.specs.Watched.{WatchedValue};

use session_stream::{Failed, Sink, Source, Unread};
use std::io::{ErrorKind, Read, Write};
use std::marker::Model;

/// A reader or a writer of `std`, and how often it has failed.
///
/// A signal that interrupts a call is no failure: the call is made again. Any other error is one, and so
/// are a `write` that takes none of the bytes it is given, and 2^64 - 1 calls that did not finish it. Where a read waits for
/// a time alone, that nothing came until then is none, if its caller lets it be silent.
#[derive(Drop)]
pub struct Watched<S> {
    inner: S,
    waits_for_a_time: bool,
    failed: u64,
}

impl<S> Model for Watched<S> {
    ghost Value = { WatchedValue S };

    ghost view = { λ s. record { inner = s.inner; failed = s.failed } };
}

impl<S> Watched<S> {
    /// Counts the failures of this reader or writer from here on.
    pub fn new(inner: S) -> Self
        ensures { result ≡ record { inner = inner; failed = 0 } }
    {
        Watched {
            inner,
            waits_for_a_time: false,
            failed: 0,
        }
    }

    /// The same of a reader whose reads wait for a time alone, as those of a socket that was told so.
    pub fn timed(inner: S) -> Self
        ensures { result ≡ record { inner = inner; failed = 0 } }
    {
        Watched {
            inner,
            waits_for_a_time: true,
            failed: 0,
        }
    }

    /// Gives the reader or writer back.
    pub fn into_inner(self) -> S
        ensures { result ≡ self.inner }
    {
        self.inner
    }
}

impl<R: Read> Source for Watched<R> {
    ghost left = { λ s. R.remaining s.inner };

    ghost failures = { λ s. s.failed };

    fn read_some(&mut self, buf: &mut [u8], may_be_silent: bool) -> Result<usize, Unread> {
        for _ in 0..u64::MAX {
            match self.inner.read(buf) {
                Ok(n) => return Ok(n),
                Err(e) => {
                    if may_be_silent && self.waits_for_a_time && e.kind() == ErrorKind::WouldBlock {
                        return Err(Unread::Silence);
                    }
                    if e.kind() != ErrorKind::Interrupted {
                        self.failed = self.failed.saturating_add(1);
                        return Err(Unread::Failed);
                    }
                }
            }
        }
        self.failed = self.failed.saturating_add(1);
        Err(Unread::Failed)
    }
}

impl<W: Write> Sink for Watched<W> {
    ghost held = { λ s. W.contents s.inner };

    ghost failures = { λ s. s.failed };

    fn write_whole(&mut self, bytes: &[u8]) -> Result<(), Failed> {
        let mut sent = 0;
        for _ in 0..u64::MAX {
            if sent >= bytes.len() {
                return Ok(());
            }
            match self.inner.write(&bytes[sent..]) {
                Ok(0) => {
                    self.failed = self.failed.saturating_add(1);
                    return Err(Failed);
                }
                Ok(n) => sent += n,
                Err(e) => {
                    if e.kind() != ErrorKind::Interrupted {
                        self.failed = self.failed.saturating_add(1);
                        return Err(Failed);
                    }
                }
            }
        }
        self.failed = self.failed.saturating_add(1);
        Err(Failed)
    }
}
