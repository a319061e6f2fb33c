//! A unit as a script sees it.
use crate::ended::{Ended, moved, numbered, stepped, worded};
use block_file::{Blocks, Opener, ReplyMemory};
use scsi_types::{Asked, Group, PortName};
use std::alloc::{AllocError, Global};
use std::test::Fail;
use unit_state::{AttachFault, SessionId, Unit};

/// The calls of a unit. Of their ends nothing is promised here, so that what plays a script owes nothing to the contracts of a unit.
pub trait AnyUnit: Drop {
    /// Attaches the port of an ISID of six bytes.
    fn attach(&mut self, alloc: Global, isid: u64, group: Group) -> Result<Ended, Fail>;

    /// Detaches a session, or resets the unit by it.
    fn end(&mut self, alloc: Global, session: SessionId, detaches: bool) -> Ended;

    /// A command of a session with a serial, by a group.
    fn step(
        &mut self,
        alloc: Global,
        sender: (SessionId, u64, Group),
        asked: Asked,
        bytes: &[u8],
    ) -> Result<Ended, AllocError>;

    fn move_to(&mut self, alloc: Global, list: &[u8]) -> Ended;

    fn flush(&mut self, alloc: Global) -> Ended;
}

impl<B: Blocks, F: Blocks, O: Opener<B>> AnyUnit for Unit<B, F, O> {
    fn attach(&mut self, alloc: Global, isid: u64, group: Group) -> Result<Ended, Fail> {
        let name = b"iqn.2026-01.example:host".to_vec(alloc)?;
        let port = PortName::new(name, isid).ok_or("an ISID of six bytes")?;
        Ok(match Unit::attach(self, port, group) {
            Ok(id) => numbered(alloc, "ATTACHED", id),
            Err(AttachFault::TooManySessions) => worded(alloc, "TOO-MANY"),
        })
    }

    fn end(&mut self, alloc: Global, session: SessionId, detaches: bool) -> Ended {
        let end = if detaches {
            Unit::detach(self, session)
        } else {
            Unit::reset(self, session)
        };
        worded(alloc, if end.is_ok() { "DONE" } else { "GONE" })
    }

    fn step(
        &mut self,
        alloc: Global,
        sender: (SessionId, u64, Group),
        asked: Asked,
        bytes: &[u8],
    ) -> Result<Ended, AllocError> {
        let (session, serial, by) = sender;
        let end = Unit::step(
            self,
            ReplyMemory::new(alloc),
            session,
            serial,
            by,
            asked,
            bytes,
        );
        stepped(alloc, &end)
    }

    fn move_to(&mut self, alloc: Global, list: &[u8]) -> Ended {
        moved(alloc, Unit::move_to(self, list))
    }

    fn flush(&mut self, alloc: Global) -> Ended {
        let end = Unit::flush(self);
        worded(alloc, if end.is_ok() { "DONE" } else { "FAILED" })
    }
}
