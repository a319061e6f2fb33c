//! Standard input, which ends where an administrator has ended the array by the control socket.

use event_log::Log;
use libc::STDIN_FILENO;
use libc::net::{POLLIN, poll};
use libc::types::pollfd;
use meters::Meters;
use std::io::{self, BufRead, Read};

/// For so many milliseconds is waited for a byte, before it is looked whether the array was ended.
const BETWEEN: i32 = 200;

/// A reader of standard input, at its end as soon as an administrator has ended the array.
#[derive(Drop)]
pub struct Attended<'a, I: Drop> {
    inner: I,
    log: &'a Log,
    // So many bytes were read that nobody has taken yet.
    held: usize,
}

// Whether the array was ended before anything is to be read.
fn has_ended(meters: &Meters) -> bool {
    for _ in 0..u64::MAX {
        if meters.has_quit() {
            return true;
        }
        let mut input = [pollfd {
            fd: STDIN_FILENO,
            events: POLLIN,
            revents: 0,
        }];
        if poll(&mut input, BETWEEN) > 0 {
            break;
        }
    }
    false
}

impl<'a, I: Drop> Attended<'a, I> {
    /// The reader of standard input, of the array to whose log this is a hand.
    pub fn new(inner: I, log: &'a Log) -> Attended<'a, I> {
        Attended {
            inner,
            log,
            held: 0,
        }
    }

    // Whether the array was ended.
    fn was_ended(&self) -> bool {
        match self.log.meters() {
            Some(meters) => has_ended(meters),
            None => false,
        }
    }
}

impl<I: BufRead + Drop> Attended<'_, I> {
    // Whether nothing is to be read any more. Bytes that came with others are there, so nothing is waited for then.
    fn is_over(&mut self) -> bool {
        if self.held > 0 {
            return false;
        }
        if self.was_ended() {
            return true;
        }
        match self.inner.fill_buf() {
            Ok(bytes) => self.held = bytes.len(),
            Err(_) => return false,
        }
        self.held == 0
    }
}

impl<I: Read + Drop> Read for Attended<'_, I> {
    fn read(&mut self, buf: &mut [u8]) -> io::Result<usize> {
        if self.was_ended() {
            return Ok(0);
        }
        self.inner.read(buf)
    }
}

impl<I: BufRead + Drop> BufRead for Attended<'_, I> {
    fn fill_buf(&mut self) -> io::Result<&[u8]> {
        if self.is_over() {
            return Ok(&[]);
        }
        self.inner.fill_buf()
    }

    fn consume(&mut self, amount: usize) {
        self.held = self.held.saturating_sub(amount);
        self.inner.consume(amount);
    }
}
