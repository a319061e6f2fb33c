//! The sessions that live at an array, as its threads share them.
ghost use Rattle.std.specs.Prelude.{◌<◌, ℕ, Bool, IfOk, IfErr};
ghost use Rattle.registrants.specs.Nexus.{through};
ghost use Rattle.scsi_types.specs.Nexus.{Port, Nexus};
ghost use Rattle.live_sessions.specs.Sessions.{Sayings};

use crate::connection::Connection;
use crate::live::{EnterFault, NewSession, Table};
use std::sync::{Mutex, Wait};

/// The table of the sessions that live at an array, which all its threads share.
pub trait Sessions {
    /// What a session runs over.
    type Connection: Connection + Drop;

    /// What its calls have said of the sessions. Nothing else says it.
    ghost says: { Sayings };

    /// A session begins to live, as by [`Table::enter`]: its number and its TSIH. Its initiator may be silent from now on.
    fn enter<R: Wait>(
        &self,
        rt: &R,
        new: NewSession,
        connection: Self::Connection,
    ) -> Result<(u64, u16), EnterFault>
        requires unlimited { Self.Connection.is_unlimited connection }
        ensures entered { IfOk result (λ r. says.entered (through new.port new.group) new.kind r.0 r.1) }
        ensures tsih { IfOk result (λ r. 0 < r.1) }
        ensures refused { IfErr result says.refused };

    /// Whether the session with this TSIH lives, and is of this port.
    fn lives<R: Wait>(&self, rt: &R, tsih: u16, name: &[u8], isid: u64) -> bool
        ensures { says.lived tsih (record { name = name.now; isid = isid }) result };

    /// The session with this number is over.
    fn leave<R: Wait>(&self, rt: &R, number: u64)
        ensures { says.left number };

    /// Whether the session with this number lives.
    fn has<R: Wait>(&self, rt: &R, number: u64) -> bool;

    /// Whether an administrator has ended it.
    fn was_shut<R: Wait>(&self, rt: &R, number: u64) -> bool;
}

/// A table of sessions, as the thread has it that holds its lock. What its calls say is of the table before it and of the one behind it:
/// nothing else says it.
pub trait Living {
    ghost use Rattle.login.specs.declared.status.SessionType.{SessionType};
    ghost use Rattle.live_sessions.specs.declared.live.EnterFault.{EnterFault};

    /// What a session runs over.
    type Connection: Connection + Drop;

    /// A session of this nexus and kind began to live, with this number and this TSIH.
    ghost entered: { Self → Nexus → SessionType → ℕ → ℕ → Self → Type 0 };

    /// None could, for this cause.
    ghost refused: { Self → EnterFault → Type 0 };

    /// Whether the session with this TSIH lived, and was of this port.
    ghost lived: { Self → ℕ → Port → Bool → Type 0 };

    /// The session with this number is over.
    ghost left: { Self → ℕ → Self → Type 0 };

    fn enter(
        &mut self,
        new: NewSession,
        connection: Self::Connection,
    ) -> Result<(u64, u16), EnterFault>
        ensures entered { IfOk result (λ r. entered self.old (through new.port new.group) new.kind r.0 r.1 self.new) }
        ensures tsih { IfOk result (λ r. 0 < r.1) }
        ensures refused { IfErr result (refused self.old) };

    fn lives(&self, tsih: u16, name: &[u8], isid: u64) -> bool
        ensures { lived self.now tsih (record { name = name.now; isid = isid }) result };

    fn leave(&mut self, number: u64)
        ensures { left self.old number self.new };

    fn has(&self, number: u64) -> bool;

    fn was_shut(&self, number: u64) -> bool;
}

impl<C: Connection + Drop> Living for Table<C> {
    ghost use Rattle.live_sessions.specs.Sessions.{entered_in, lived_in, left_in};
    ghost use Rattle.live_sessions.specs.Live.{IsCauseOf};

    type Connection = C;

    ghost entered = { entered_in };

    ghost refused = { IsCauseOf };

    ghost lived = { lived_in };

    ghost left = { left_in };

    fn enter(&mut self, new: NewSession, connection: C) -> Result<(u64, u16), EnterFault> {
        self.enter(new, connection)
    }

    fn lives(&self, tsih: u16, name: &[u8], isid: u64) -> bool {
        self.lives(tsih, name, isid)
    }

    fn leave(&mut self, number: u64) {
        self.leave(number);
    }

    fn has(&self, number: u64) -> bool {
        self.has(number)
    }

    fn was_shut(&self, number: u64) -> bool {
        self.was_shut(number)
    }
}

impl<T: Living> Sessions for Mutex<T> {
    ghost use Rattle.live_sessions.specs.Sessions.{of_table};

    type Connection = T::Connection;

    ghost says = { of_table T.entered T.refused T.lived T.left };

    fn enter<R: Wait>(
        &self,
        rt: &R,
        new: NewSession,
        connection: T::Connection,
    ) -> Result<(u64, u16), EnterFault> {
        self.lock(rt).enter(new, connection)
    }

    fn lives<R: Wait>(&self, rt: &R, tsih: u16, name: &[u8], isid: u64) -> bool {
        self.lock(rt).lives(tsih, name, isid)
    }

    fn leave<R: Wait>(&self, rt: &R, number: u64) {
        self.lock(rt).leave(number);
    }

    fn has<R: Wait>(&self, rt: &R, number: u64) -> bool {
        self.lock(rt).has(number)
    }

    fn was_shut<R: Wait>(&self, rt: &R, number: u64) -> bool {
        self.lock(rt).was_shut(number)
    }
}
