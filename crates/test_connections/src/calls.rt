//! A reader and a writer whose calls move as many bytes as they are told, and fail where they are told.
use std::alloc::Global;
use std::io;
use std::io::{ErrorKind, Read, Write};

/// How calls are answered: the first with at most so many bytes, each later one with at most so many, and the call
/// of this number, counted from 1, with this error.
#[derive(Clone, Copy, Debug)]
pub struct Calls {
    pub first: usize,
    pub later: usize,
    pub fail_at: u64,
    pub kind: ErrorKind,
}

/// All bytes at once, with no failure.
pub const WHOLE: Calls = Calls {
    first: 1_000_000,
    later: 1_000_000,
    fail_at: 0,
    kind: ErrorKind::Other,
};

/// One byte a call, with no failure.
pub const ONE_BYTE: Calls = Calls {
    first: 1,
    later: 1,
    fail_at: 0,
    kind: ErrorKind::Other,
};

/// A reader of these bytes.
#[derive(Drop)]
pub struct FakeReader<'a> {
    rest: &'a [u8],
    most: usize,
    calls: u64,
    how: Calls,
}

impl<'a> FakeReader<'a> {
    /// A reader of these bytes that answers its calls so.
    pub fn new(bytes: &'a [u8], how: Calls) -> Self {
        FakeReader {
            rest: bytes,
            most: how.first,
            calls: 0,
            how,
        }
    }
}

impl<'a> Read for FakeReader<'a> {
    fn read(&mut self, buf: &mut [u8]) -> io::Result<usize> {
        self.calls = self.calls.wrapping_add(1);
        if self.calls == self.how.fail_at {
            return Err(io::Error::from(self.how.kind));
        }
        let n = self.most.min(buf.len()).min(self.rest.len());
        let (came, rest) = self.rest.split_at(n);
        buf[..n].copy_from_slice(came);
        self.rest = rest;
        self.most = self.how.later;
        Ok(n)
    }
}

/// A writer that keeps what it takes, and how many bytes each call brings.
#[derive(Drop)]
pub struct FakeWriter {
    bytes: Vec<u8>,
    sizes: Vec<usize>,
    most: usize,
    calls: u64,
    how: Calls,
}

impl FakeWriter {
    /// A writer that answers its calls so.
    pub fn new(alloc: Global, how: Calls) -> Self {
        FakeWriter {
            bytes: Vec::new(alloc),
            sizes: Vec::new(alloc),
            most: how.first,
            calls: 0,
            how,
        }
    }

    /// What it took.
    pub fn into_bytes(self) -> Vec<u8> {
        self.bytes
    }

    /// What it took, and how many bytes each call brought.
    pub fn into_parts(self) -> (Vec<u8>, Vec<usize>) {
        (self.bytes, self.sizes)
    }
}

impl Write for FakeWriter {
    fn write(&mut self, buf: &[u8]) -> io::Result<usize> {
        self.sizes.push(buf.len())?;
        self.calls = self.calls.wrapping_add(1);
        if self.calls == self.how.fail_at {
            return Err(io::Error::from(self.how.kind));
        }
        let n = self.most.min(buf.len());
        self.bytes.extend_from_slice(&buf[..n])?;
        self.most = self.how.later;
        Ok(n)
    }

    fn flush(&mut self) -> io::Result<()> {
        Ok(())
    }
}
