//! What a session runs over.
ghost use Rattle.std.specs.Prelude.{ℕ};

use std::alloc::Global;
use std::io::ErrorKind;
use std::net::{Shutdown, TcpStream};
use std::sync::Arc;
use std::time::Duration;

/// For so many seconds a read of a session waits. It holds less memory from then on, until its initiator sends again.
const REST_SECONDS: u64 = 10;

/// A connection, as far as others than its session's reader and writer touch it.
pub trait Connection {
    /// It was told to end where its initiator is silent for so many seconds. Nothing but `limit` says so.
    ghost is_limited: { Self → ℕ → Type 0 };

    /// It was told that its initiator may be silent. Nothing but `end_limit` says so.
    ghost is_unlimited: { Self → Type 0 };

    /// Ends the connection, from any thread: a read or a write that waits at it ends too.
    fn shut(&self);

    /// Whether its other end still holds it, as far as this one was told. Only who reads from it asks.
    fn is_held(&self) -> bool;

    /// The login is not over yet: a read that waits for so many seconds fails.
    fn limit(&self, seconds: u64)
        ensures { is_limited self.now seconds };

    /// The login is over: from now on the initiator may be silent for as long as it likes.
    fn end_limit(&self)
        ensures { is_unlimited self.now };
}

impl Connection for Arc<TcpStream, Global> {
    ghost use Rattle.std.specs.Arc.{arc_value};
    ghost use Rattle.live_sessions.specs.Silence.{has_limit, has_none};

    ghost is_limited = { λ c. has_limit (arc_value c) };

    ghost is_unlimited = { λ c. has_none (arc_value c) };

    fn shut(&self) {
        let _ = self.shutdown(Shutdown::Both);
    }

    // It is over where a read would tell its end, or an error.
    fn is_held(&self) -> bool {
        if self.set_nonblocking(true).is_err() {
            return true;
        }
        let is_held = match self.peek(&mut [0]) {
            Ok(count) => count != 0,
            Err(e) => e.kind() == ErrorKind::WouldBlock || e.kind() == ErrorKind::Interrupted,
        };
        self.set_nonblocking(false).is_ok() && is_held
    }

    #[tactic(auto, using(crate::specs::Silence::a_limit_says))]
    fn limit(&self, seconds: u64) {
        let _ = self.set_read_timeout(Some(Duration::from_secs(seconds)));
    }

    #[tactic(auto, using(crate::specs::Silence::no_limit_says))]
    fn end_limit(&self) {
        let _ = self.set_read_timeout(Some(Duration::from_secs(REST_SECONDS)));
    }
}
