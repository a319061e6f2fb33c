//! What the thread of a device is asked, and what it does.
ghost use Rattle.std.specs.Prelude.{◌≡◌, true, length, IfSome, IsTrue};
ghost use Rattle.block_file.specs.Cut.{IsRun};
ghost use Rattle.deadline.specs.Answers.{calls, HasAnswered, HasFlushed, HasOpened, HasRead, HasWritten, given_to};

use block_file::{BLOCK_LENGTH, Blocks, Opener};
use disk_files::FileDevice;
use disk_preparer::Node;
use events::Call;
use std::alloc::{AllocError, Global};
use std::marker::{Model, PhantomData};
use timed_calls::{Asked, Runner};

/// The most bytes of a run: 2048 blocks.
const LONGEST: usize = 2048 * BLOCK_LENGTH;

/// A call of a device, from this block on where it has a run, and behind so many of its writes where it makes them last; or that it is
/// opened anew, behind so many.
#[derive(Clone, Copy, PartialEq, Eq)]
pub(crate) enum Wanted {
    Read(u32),
    Write(u32),
    Flush(u64),
    Open(u64),
}

/// What the thread of a device is asked under this number, with the bytes of the run; and whether that was done, and went well, of which
/// file, and how many of the device's writes had ended behind it.
#[derive(Drop)]
pub(crate) struct Request<B: FileDevice, O: Opener<B>> {
    serial: u64,
    wanted: Wanted,
    bytes: Vec<u8>,
    disk: Node,
    writes: u64,
    is_done: bool,
    of: PhantomData<(B, O)>,
}

impl<B: FileDevice, O: Opener<B>> Model for Request<B, O> {
    ghost use Rattle.std.specs.Prelude.{◌≡◌, true};
    ghost use Rattle.deadline.specs.Answers.{RequestValue, HasAnswered, calls};

    ghost Value = { RequestValue };

    ghost view = { λ e. record {
      serial = e.serial;
      wanted = e.wanted;
      bytes = e.bytes.items;
      disk = e.disk;
      writes = e.writes;
      is_done = e.is_done;
    } };

    ghost invariant = { λ e. e.is_done ≡ true
        → HasAnswered (calls B.Blocks B.OnDisk B.has_read B.has_written B.lasts B.writes B.is_lost O.Opener)
        e.disk e.writes e.wanted e.bytes.items };
}

impl<B: FileDevice, O: Opener<B>> Request<B, O> {
    /// With room for the longest run.
    pub(crate) fn new(alloc: Global) -> Result<Request<B, O>, AllocError> {
        let bytes = Vec::with_capacity(alloc, LONGEST)?;
        Ok(Request::asked(0, Wanted::Flush(0), bytes))
    }

    // One that is not done yet.
    fn asked(serial: u64, wanted: Wanted, bytes: Vec<u8>) -> Request<B, O>
        ensures { (result.serial ≡ serial) × (result.wanted ≡ wanted) × (result.bytes ≡ bytes.items) }
    {
        Request {
            serial,
            wanted,
            bytes,
            disk: Node {
                device: 0,
                number: 0,
            },
            writes: 0,
            is_done: false,
            of: PhantomData,
        }
    }

    /// Asks for this, with room for so many bytes. The room may be wanting.
    pub(crate) fn with_room(self, serial: u64, wanted: Wanted, length: usize) -> Request<B, O>
        ensures { result.serial ≡ serial }
    {
        let mut bytes = self.bytes;
        let _ = bytes.resize(length, 0);
        Request::asked(serial, wanted, bytes)
    }

    /// Asks for a write from this block on of these bytes; whether there is room for them.
    pub(crate) fn with_bytes(self, serial: u64, first: u32, part: &[u8]) -> (Request<B, O>, bool)
        ensures serial { result.0.serial ≡ serial }
        ensures given { IsTrue result.1 → given_to result.0.wanted result.0.bytes ≡ part.now }
    {
        let mut bytes = self.bytes;
        bytes.clear();
        let has_room = bytes.extend_from_slice(part).is_ok();
        (
            Request::asked(serial, Wanted::Write(first), bytes),
            has_room,
        )
    }

    /// Asks for this, with these bytes in place of its own, which it gives.
    pub(crate) fn with_memory(
        self,
        serial: u64,
        wanted: Wanted,
        given: Vec<u8>,
    ) -> (Request<B, O>, Vec<u8>)
        ensures serial { result.0.serial ≡ serial }
        ensures own { result.1.items ≡ self.bytes }
    {
        (Request::asked(serial, wanted, given), self.bytes)
    }

    /// Whether this was wanted of this file, and was done.
    pub(crate) fn has_done(&self, disk: Node, wanted: Wanted) -> bool
        ensures wanted { IsTrue result → self.now.wanted ≡ wanted }
        ensures answered { IsTrue result → HasAnswered
            (calls B.Blocks B.OnDisk B.has_read B.has_written B.lasts B.writes B.is_lost O.Opener) disk self.now.writes wanted self.now.bytes }
    {
        self.is_done && self.wanted == wanted && self.disk.is(disk)
    }

    /// Whether the bytes that it was given were written to this file, from this block on: how many writes have ended then.
    #[tactic(auto, using(crate::proofs::Given::given_written))]
    pub(crate) fn has_written(&self, disk: Node, first: u32) -> Option<u64>
        ensures { IfSome result (λ writes. HasWritten (calls B.Blocks B.OnDisk B.has_read B.has_written B.lasts B.writes B.is_lost O.Opener)
            disk first (given_to self.now.wanted self.now.bytes) writes) }
    {
        if self.has_done(disk, Wanted::Write(first)) {
            Some(self.writes)
        } else {
            None
        }
    }

    /// Whether this was wanted of this file, and was done with so many bytes.
    pub(crate) fn has_done_all(&self, disk: Node, wanted: Wanted, count: usize) -> bool
        ensures answered { IsTrue result → HasAnswered
            (calls B.Blocks B.OnDisk B.has_read B.has_written B.lasts B.writes B.is_lost O.Opener) disk self.now.writes wanted self.now.bytes }
        ensures all { IsTrue result → length self.now.bytes ≡ count }
    {
        self.has_done(disk, wanted) && self.bytes.len() == count
    }

    /// Gives the bytes, where a read of this file from this block on was wanted, and was done with so many.
    pub(crate) fn gives(&self, disk: Node, first: u32, bytes: &mut [u8]) -> bool
        ensures { IsTrue result → HasRead (calls B.Blocks B.OnDisk B.has_read B.has_written B.lasts B.writes B.is_lost O.Opener)
            disk first bytes.new }
    {
        if !self.has_done(disk, Wanted::Read(first)) || self.bytes.len() != bytes.len() {
            return false;
        }
        bytes.copy_from_slice(self.bytes.as_slice());
        true
    }
}

impl<B: FileDevice, O: Opener<B>> Asked for Request<B, O> {
    ghost serial = { λ e. e.serial };

    ghost given = { λ e. given_to e.wanted e.bytes };

    fn serial(&self) -> u64 {
        self.serial
    }

    fn call(&self) -> Call {
        match self.wanted {
            Wanted::Read(_) => Call::Read,
            Wanted::Write(_) => Call::Write,
            Wanted::Flush(_) => Call::Flush,
            Wanted::Open(_) => Call::Open,
        }
    }
}

/// A device with its opener, as its thread has them.
#[derive(Drop)]
pub(crate) struct DeviceRunner<B: FileDevice, O: Opener<B>> {
    pub(crate) blocks: B,
    pub(crate) opener: O,
}

// Whether so many bytes from a block on are a run of whole blocks of a device of so many.
fn is_run(count: u32, first: u32, length: usize) -> bool
    ensures { IsTrue result → IsRun count first length }
{
    let blocks = length / BLOCK_LENGTH;
    if blocks * BLOCK_LENGTH != length {
        return false;
    }
    first as usize + blocks <= count as usize
}

impl<B: FileDevice, O: Opener<B>> DeviceRunner<B, O> {
    fn read(&mut self, first: u32, bytes: &mut [u8]) -> bool
        ensures { IsTrue result
            → HasRead (calls B.Blocks B.OnDisk B.has_read B.has_written B.lasts B.writes B.is_lost O.Opener)
            (B.disk self.old.blocks) first bytes.new }
    {
        is_run(self.blocks.count(), first, bytes.len()) && self.blocks.read_of(first, bytes).is_ok()
    }

    fn write(&mut self, first: u32, bytes: &[u8]) -> bool
        ensures { IsTrue result → HasWritten (calls B.Blocks B.OnDisk B.has_read B.has_written B.lasts B.writes B.is_lost O.Opener)
            (B.disk self.old.blocks) first bytes.now (B.writes self.new.blocks) }
    {
        is_run(self.blocks.count(), first, bytes.len())
            && self.blocks.write_of(first, bytes).is_ok()
    }

    // Where fewer writes have ended than are to last, nothing is flushed.
    fn flush(&mut self, writes: u64) -> bool
        ensures { IsTrue result
            → HasFlushed (calls B.Blocks B.OnDisk B.has_read B.has_written B.lasts B.writes B.is_lost O.Opener)
            (B.disk self.old.blocks) writes }
    {
        if self.blocks.ended_writes() < writes {
            return false;
        }
        match self.blocks.flush_of() {
            Ok(()) => true,
            Err(_) => false,
        }
    }

    fn open(&mut self, writes: u64) -> bool
        ensures { IsTrue result
            → HasOpened (calls B.Blocks B.OnDisk B.has_read B.has_written B.lasts B.writes B.is_lost O.Opener)
            (B.disk self.old.blocks) writes }
    {
        writes <= self.blocks.ended_writes() && self.opener.open(&mut self.blocks).is_ok()
    }

    // Does what is wanted: whether it went well.
    fn does(&mut self, wanted: Wanted, bytes: &mut Vec<u8>) -> bool
        ensures answered { IsTrue result → HasAnswered
            (calls B.Blocks B.OnDisk B.has_read B.has_written B.lasts B.writes B.is_lost O.Opener) (B.disk self.old.blocks) (B.writes self.new.blocks) wanted bytes.new.items }
        ensures given { given_to wanted bytes.new.items ≡ given_to wanted bytes.old.items }
    {
        match wanted {
            Wanted::Read(first) => self.read(first, bytes.as_mut_slice()),
            Wanted::Write(first) => self.write(first, bytes.as_slice()),
            Wanted::Flush(writes) => self.flush(writes),
            Wanted::Open(writes) => self.open(writes),
        }
    }
}

impl<B: FileDevice, O: Opener<B>> Runner<Request<B, O>> for DeviceRunner<B, O> {
    fn run(&mut self, request: Request<B, O>) -> Request<B, O> {
        let (serial, wanted) = (request.serial, request.wanted);
        let disk = self.blocks.disk();
        let mut bytes = request.bytes;
        let is_done = self.does(wanted, &mut bytes);
        let writes = self.blocks.ended_writes();
        Request {
            serial,
            wanted,
            bytes,
            disk,
            writes,
            is_done,
            of: PhantomData,
        }
    }
}
