//! Target Session Identifying Handles (RFC 7143, 11.12.9).
ghost use Rattle.std.specs.Prelude.{◌≡◌, ℕ, MatchOption};
ghost use Rattle.live_sessions.specs.Handles.{AreAllTaken, AreTaken, IsFirstFree, IsNextTsih, has_tsih};

/// The greatest TSIH, which 1 follows.
pub const LAST_TSIH: u16 = 65535;

/// So many sessions begin; then none does.
pub const LAST_NUMBER: u64 = 18_446_744_073_709_551_615;

/// A session that lives, and has a Target Session Identifying Handle.
pub trait Handled {
    ghost handle: { Self → ℕ };

    fn tsih(&self) -> u16
        ensures { result ≡ handle self.now };
}

fn has_tsih<S: Handled>(live: &[S], tsih: u16) -> bool
    ensures { result ≡ has_tsih S.handle live.now tsih }
{
    live.iter().any(|session| session.tsih() == tsih)
}

// The first TSIH above one number and up to another that no session has.
fn first_free<S: Handled>(live: &[S], above: u16, to: u16) -> Option<u16>
    ensures { MatchOption result (AreTaken S.handle live.now above to) (IsFirstFree S.handle live.now above to) }
{
    for before in above..to {
        let tsih = before + 1;
        if !has_tsih(live, tsih) {
            return Some(tsih);
        }
    }
    None
}

/// The next TSIH behind the one that was given last that no session has. None: each has its session.
pub fn next_tsih<S: Handled>(live: &[S], last: u16) -> Option<u16>
    ensures { MatchOption result (AreAllTaken S.handle live.now) (IsNextTsih S.handle last live.now) }
{
    match first_free(live, last, LAST_TSIH) {
        Some(tsih) => Some(tsih),
        None => first_free(live, 0, last),
    }
}
