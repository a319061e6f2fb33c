//! What a session's bytes tell who runs the array: the Login Request that came first, and when bytes come and answers leave.
ghost use Rattle.std.specs.Prelude.{◌≡◌, ◌<◌, length};

use crate::observer::Observer;
use session::{Failed, Sink, Source, Unread};
use std::alloc::Global;
use std::sync::Wait;
use std::time::Clock;

/// How many of the bytes that come first are kept.
const FIRST: usize = 4096;

/// The length of a header segment (RFC 7143, 11.2.1).
const BHS: usize = 48;

/// A source of which the first bytes are kept, and which tells when bytes come.
#[derive(Drop)]
pub struct KeptSource<'a, R: Wait + Clock, S> {
    inner: S,
    first: Vec<u8>,
    observer: &'a Observer<'a, R>,
}

impl<'a, R: Wait + Clock, S> KeptSource<'a, R, S> {
    /// A source, of which bytes are kept where the log is on and there is memory.
    pub fn new(alloc: Global, inner: S, observer: &'a Observer<'a, R>) -> KeptSource<'a, R, S> {
        let room = if observer.log.is_on() { FIRST } else { 0 };
        let first = Vec::with_capacity(alloc, room).unwrap_or(Vec::new(alloc));
        KeptSource {
            inner,
            first,
            observer,
        }
    }

    // Keeps bytes as far as there is room.
    fn keep(&mut self, bytes: &[u8])
        ensures { self.new.inner ≡ self.old.inner }
    {
        let room = self.first.capacity().saturating_sub(self.first.len());
        if room != 0 {
            let _ = self
                .first
                .extend_from_slice(&bytes[..room.min(bytes.len())]);
        }
    }

    /// The ISID and the InitiatorName of the first Login Request, as far as they were kept.
    pub fn initiator(&self) -> (u64, &[u8]) {
        login_in(&self.first)
    }
}

impl<R: Wait + Clock, S: Source> Source for KeptSource<'_, R, S> {
    ghost left = { λ h. S.left h.inner };

    ghost failures = { λ h. S.failures h.inner };

    fn read_some(&mut self, buf: &mut [u8], may_be_silent: bool) -> Result<usize, Unread> {
        let count = self.inner.read_some(buf, may_be_silent)?;
        self.observer.came();
        self.keep(&buf[..count]);
        Ok(count)
    }
}

// The six bytes of an ISID as a number.
fn isid_in(bytes: &[u8]) -> u64 {
    let mut isid = 0u64;
    for byte in bytes {
        isid = (isid << 8) | u64::from(*byte);
    }
    isid
}

// The ISID and the InitiatorName of a Login Request that stands in front of these bytes.
fn login_in(bytes: &[u8]) -> (u64, &[u8]) {
    if bytes.len() < BHS || bytes[0] & 0x3F != 0x03 {
        return (0, &[]);
    }
    (isid_in(&bytes[8..14]), name_in(&bytes[BHS..]))
}

// What stands behind `InitiatorName=` in a text (RFC 7143, 6.1).
fn name_in(text: &[u8]) -> &[u8] {
    for pair in text.split(|byte| *byte == 0) {
        if let Some(name) = pair.strip_prefix(b"InitiatorName=") {
            return name;
        }
    }
    &[]
}

/// A sink that tells when answers leave.
#[derive(Drop)]
pub struct ObservedSink<'a, R: Wait + Clock, K> {
    inner: K,
    observer: &'a Observer<'a, R>,
}

impl<'a, R: Wait + Clock, K> ObservedSink<'a, R, K> {
    /// A sink at which somebody looks.
    pub fn new(inner: K, observer: &'a Observer<'a, R>) -> ObservedSink<'a, R, K> {
        ObservedSink { inner, observer }
    }
}

impl<R: Wait + Clock, K: Sink> Sink for ObservedSink<'_, R, K> {
    ghost held = { λ s. K.held s.inner };

    ghost failures = { λ s. K.failures s.inner };

    fn write_whole(&mut self, bytes: &[u8]) -> Result<(), Failed> {
        self.observer.sends();
        self.inner.write_whole(bytes)
    }
}
