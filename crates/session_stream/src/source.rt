//! Where the bytes of a session come from and go to, with the failures counted.
ghost use Rattle.std.specs.Prelude.{◌≡◌, ℕ, ◌<◌, ◌≤◌, List, Option, length, take, true, Err, IfOk, OnOk, OnErr};
ghost use Rattle.session_stream.specs.declared.source.Unread.TheVariants.{Silence};
ghost use Rattle.std.specs.Io.KnownBytes.{Keeps, Appends, Consumes, IsAtEnd};
ghost use Rattle.session_stream.specs.Source.{Counted, CountedRead, AppendsFront};

/// A source or a sink failed, and counted it.
#[derive(Clone, Copy)]
pub struct Failed;

/// Why a read gave no bytes.
#[derive(Clone, Copy)]
pub enum Unread {
    /// The source failed, and counted it.
    Failed,
    /// Nothing came for a while. Later reads may give more.
    Silence,
}

/// Where bytes come from, which tells its failures.
///
/// `std::io::Read` tells none, so that nothing could be said of the end of a session by a failing reader.
/// Only the source itself moves its count: what is generic over it cannot.
pub trait Source {
    /// The bytes that reads will give, where they are known.
    ghost left: { Self → Option (List ℕ) };

    /// How often it has failed.
    ghost failures: { Self → ℕ };

    /// One read, which takes as much as has come: how many bytes. None are the end of the input, where the
    /// buffer has room. A source may give up where nothing comes for a while: that is a failure, unless it `may_be_silent`.
    fn read_some(&mut self, buf: &mut [u8], may_be_silent: bool) -> Result<usize, Unread>
        ensures bound { IfOk result (λ n. n ≤ length buf.new) }
        ensures ok { IfOk result (λ n. Consumes (left self.old) (left self.new) (take n buf.new)) }
        ensures end { IfOk result (λ n. n ≡ 0 → 0 < length buf.old → IsAtEnd (left self.new)) }
        ensures err { OnErr result (Keeps (left self.old) (left self.new)) }
        ensures failures { CountedRead (failures self.old) (failures self.new) result }
        ensures silence { result ≡ Err Silence → may_be_silent ≡ true };
}

/// Where bytes go to, which tells its failures.
pub trait Sink {
    /// The bytes that it took, where they are known.
    ghost held: { Self → Option (List ℕ) };

    /// How often it has failed.
    ghost failures: { Self → ℕ };

    /// Writes all of the bytes. After a failure a beginning of them is written.
    fn write_whole(&mut self, bytes: &[u8]) -> Result<(), Failed>
        ensures ok { OnOk result (Appends (held self.old) (held self.new) bytes.now) }
        ensures err { OnErr result (AppendsFront (held self.old) (held self.new) bytes.now) }
        ensures failures { Counted (failures self.old) (failures self.new) result };
}
