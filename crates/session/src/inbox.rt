//! The bytes that came and are not consumed yet, and how more come.
ghost use Rattle.std.specs.Prelude.{◌≡◌, ℕ, ◌+◌, ◌-◌, ◌<◌, ◌≤◌, List, [], length, take, drop, true, Err, IfOk, OnErr};
ghost use Rattle.std.specs.Io.KnownBytes.{Keeps};
ghost use Rattle.session_stream.specs.Source.{CountedRead};
ghost use Rattle.session_stream.specs.declared.source.Unread.TheVariants.{Silence};
ghost use Rattle.session.specs.Inbox.{Filled, Waits};

use iscsi_pdu::LONGEST_PDU;
use session_stream::{Source, Unread};
use std::alloc::{AllocError, Global};
use std::marker::Model;

/// The most bytes of the memory: room for three PDUs of the longest and most of a fourth, so that reads take much at once.
pub const INBOX_CAPACITY: usize = 262144;

/// Where what came reaches so far into the memory, consumed or not, there is to be more of it: a host that writes much sends the next bytes
/// soon, and without room for them those that wait would move before each read.
const MUCH_AT_ONCE: usize = 32768;

/// Bytes that came and are not consumed yet. Their memory, with room for one PDU, is allocated at the beginning; where much comes at once,
/// more is, if there is any.
#[derive(Drop)]
pub struct Inbox {
    alloc: Global,
    bytes: Vec<u8>,
    start: usize,
    filled: usize,
}

impl Model for Inbox {
    ghost Value = { List ℕ };

    ghost view = { λ s. drop s.start (take s.filled s.bytes.items) };

    ghost invariant = { λ s. Waits s.start s.filled s.bytes.items };
}

impl Inbox {
    /// An empty inbox.
    pub fn new(alloc: Global) -> Result<Inbox, AllocError>
        ensures { IfOk result (λ b. b ≡ []) }
    {
        Ok(Inbox {
            alloc,
            bytes: vec![in alloc; 0; LONGEST_PDU]?,
            start: 0,
            filled: 0,
        })
    }

    /// The bytes that wait, in the order they came.
    pub fn bytes(&self) -> &[u8]
        ensures { result.now ≡ self.now }
    {
        &self.bytes[self.start..self.filled]
    }

    /// Takes the first `n` bytes off. No byte is copied.
    pub fn consume(&mut self, n: usize)
        requires { n ≤ length self.old }
        ensures { self.new ≡ drop n self.old }
    {
        self.start += n;
    }

    /// Gives memory back while nothing comes.
    pub fn rest(&mut self)
        requires { length self.old < LONGEST_PDU }
        ensures { self.new ≡ self.old }
    {
        if self.bytes.len() > LONGEST_PDU {
            self.renew(LONGEST_PDU);
        }
    }

    // Moves the bytes that wait into other memory, of so many bytes, where it is to be had.
    fn renew(&mut self, capacity: usize)
        requires few { length self.old < LONGEST_PDU }
        requires capacity { (LONGEST_PDU ≤ capacity) × (capacity ≤ INBOX_CAPACITY) }
        ensures { self.new ≡ self.old }
    {
        let waiting = self.filled - self.start;
        let Ok(mut bytes) = Vec::with_capacity(self.alloc, capacity) else {
            return;
        };
        let Ok(()) = bytes.extend_from_slice(&self.bytes[self.start..self.filled]) else {
            return;
        };
        let Ok(()) = bytes.resize(capacity, 0) else {
            return;
        };
        self.bytes = bytes;
        self.start = 0;
        self.filled = waiting;
    }

    /// One read, behind the bytes that wait: how many came. `Ok(0)` is the end of the input.
    ///
    /// In the larger memory there is mostly room for a whole PDU behind the bytes that wait, so they move to the front but rarely.
    pub fn fill<S: Source>(&mut self, source: &mut S, may_be_silent: bool) -> Result<usize, Unread>
        requires { length self.old < LONGEST_PDU }
        ensures ok { IfOk result (λ n. Filled (S.left source.old) (S.left source.new) self.old self.new n) }
        ensures err { OnErr result ((self.new ≡ self.old) × Keeps (S.left source.old) (S.left source.new)) }
        ensures failures { CountedRead (S.failures source.old) (S.failures source.new) result }
        ensures silence { result ≡ Err Silence → may_be_silent ≡ true }
        ensures bound { length self.new ≤ INBOX_CAPACITY }
    {
        if self.filled >= MUCH_AT_ONCE && self.bytes.len() < INBOX_CAPACITY {
            self.renew(INBOX_CAPACITY);
        }
        let waiting = self.filled - self.start;
        let bytes = self.bytes.as_mut_slice();
        self.start = make_room(bytes, self.start, self.filled);
        self.filled = self.start + waiting;
        let n = read_behind(source, bytes, self.start, self.filled, may_be_silent)?;
        self.filled += n;
        Ok(n)
    }
}

// Moves the bytes from `start` to `filled` to the front where no whole PDU has room behind them, unless they lie there. Returns where they
// start then.
fn make_room(bytes: &mut [u8], start: usize, filled: usize) -> usize
    requires within { (start ≤ filled) × (filled ≤ length bytes.old) }
    requires few { filled - start < length bytes.old }
    ensures moved { drop result (take (result + (filled - start)) bytes.new) ≡ drop start (take filled bytes.old) }
    ensures room { result + (filled - start) < length bytes.old }
{
    if start == filled {
        return 0;
    }
    if start == 0 || bytes.len() - filled >= LONGEST_PDU {
        return start;
    }
    let waiting = filled - start;
    if waiting <= start {
        let (front, back) = bytes.split_at_mut(start);
        front[..waiting].copy_from_slice(&back[..waiting]);
        return 0;
    }
    // Source and destination overlap: byte by byte, which takes longer.
    bytes.copy_within(start..filled, 0);
    0
}

// One read into all the room behind the bytes from `start` to `filled`.
fn read_behind<S: Source>(
    source: &mut S,
    bytes: &mut [u8],
    start: usize,
    filled: usize,
    may_be_silent: bool,
) -> Result<usize, Unread>
    requires { (start ≤ filled) × (filled < length bytes.old) }
    ensures fits { IfOk result (λ n. filled + n ≤ length bytes.old) }
    ensures ok { IfOk result (λ n. Filled (S.left source.old) (S.left source.new)
        (drop start (take filled bytes.old)) (drop start (take (filled + n) bytes.new)) n) }
    ensures err { OnErr result ((drop start (take filled bytes.new) ≡ drop start (take filled bytes.old))
        × Keeps (S.left source.old) (S.left source.new)) }
    ensures failures { CountedRead (S.failures source.old) (S.failures source.new) result }
    ensures silence { result ≡ Err Silence → may_be_silent ≡ true }
{
    source.read_some(&mut bytes[filled..], may_be_silent)
}
