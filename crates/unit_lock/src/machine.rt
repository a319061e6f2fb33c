//! What is locked.
use status::{Published, Row};

/// Why a command of a session is no entry.
#[derive(Clone, Copy, Drop)]
pub enum Refused<G> {
    /// The session is not attached, or the history has its last length.
    Gone,
    /// The unit belongs to this group, and the command came by another.
    Moved(G),
    /// There was no memory for it.
    NoMemory,
}

/// A state whose calls are the entries of a history. Each call says what it makes of any history that leads to the state.
pub trait Machine<E, S>: Published<E, S> + Drop {
    ghost use Rattle.std.specs.Prelude.{◌≡◌, ℕ, ◌+◌, ◌<◌, ◌^◌, ◌++◌, ◌∷◌, [], List, length, IfSome, IfNone, IfOk, IfErr};
    ghost use Rattle.std.specs.Prelude.{Result};
    ghost use Rattle.std.specs.Prelude.{MatchBool};
    ghost use Rattle.status.specs.Views.{IsOwn, IsFree, counted};
    ghost use Rattle.unit_lock.specs.Calls.{IsCause};

    /// Who attaches.
    type Name: Drop;

    /// By whom a command is served.
    type Group: Drop;

    /// What a command asks.
    type Ask;

    /// What it is answered.
    type Reply: Drop;

    /// What its reply takes memory from.
    type Memory: Drop;

    /// What a move tells.
    type Change: Drop;

    /// Why it does not move.
    type Stays: Drop;

    /// Why it does not flush.
    type Fault: Drop;

    /// Who is registered, and what is reserved.
    type Registrations: Drop;

    // This is what the history leaves, and what the devices counted bears it out.
    ghost after: { S → List E → Self → Type 0 };

    ghost attaching: { Self.Name → E };

    ghost detaching: { ℕ → E };

    ghost resetting: { ℕ → E };

    ghost moving: { List ℕ → E };

    // The entry of a command: by what was asked, its reply, and the state afterwards.
    ghost serving: { ℕ → ℕ → Self.Group → Self.Ask → List ℕ → Self.Reply → Self → E };

    // The entry of the session that attached last.
    ghost joined: { Self → E };

    // The entry is this command.
    ghost asks: { ℕ → ℕ → Self.Group → Self.Ask → List ℕ → E → Type 0 };

    // Behind this history this entry is answered so.
    ghost told: { S → List E → E → Self.Reply → Type 0 };

    // What became of the devices in a command of this session: by what was asked, its reply, and the state before it and after
    // it.
    ghost worked: { ℕ → Self.Ask → List ℕ → Self.Reply → Self → Self → Type 0 };

    // No session of this name may attach.
    ghost full: { S → List E → Self.Name → Type 0 };

    // This session is not attached, or the history has its last length.
    ghost gone: { S → List E → ℕ → Type 0 };

    // This session is not attached.
    ghost absent: { S → List E → ℕ → Type 0 };

    // This group owns the unit.
    ghost owner: { S → List E → Self.Group → Type 0 };

    // The command takes memory.
    ghost wants: { S → List E → ℕ → Self.Ask → List ℕ → Type 0 };

    // Why it does not move as this list says.
    ghost stays: { S → List E → List ℕ → Self.Stays → Type 0 };

    // What it moved by this list told.
    ghost moved: { S → List E → List ℕ → Self.Change → Type 0 };

    // What became of them in a move with this end.
    ghost handed_over: { Self → Self → Result Self.Change Self.Stays → Type 0 };

    // What became of them in a flush with this end.
    ghost flushed: { Self → Self → Result (Unit {0}) Self.Fault → Type 0 };

    // These are the registrations behind this history.
    ghost registered: { S → List E → Self.Registrations → Type 0 };

    /// The row of its history.
    fn row(&self) -> Row
        ensures { (s : S) (h : List E) → Self.legal s h → after s h self.now → result ≡ Self.rows s h };

    /// Another value of its registrations. None: there was no memory for it.
    fn registrations(&self) -> Option<Self::Registrations>
        ensures { IfSome result (λ found. (s : S) (h : List E) → Self.legal s h → after s h self.now → registered s h found) };

    /// Attaches a session.
    fn attach(&mut self, name: Self::Name) -> Option<u64>
        ensures done { IfSome result (λ id. (s : S) (h : List E) → Self.legal s h → after s h self.old
            → (id ≡ length h) × Self.legal s (h ++ attaching name ∷ []) × after s (h ++ attaching name ∷ []) self.new
            × (length h + 1 < 2 ^ 64)) }
        ensures entry { IfSome result (λ id. (joined self.new ≡ attaching name)
            × IsFree Self.own Self.command (attaching name)) }
        ensures refused { IfNone result ((s : S) (h : List E) → Self.legal s h → after s h self.old
            → after s h self.new × full s h name) };

    /// Ends a session.
    fn detach(&mut self, session: u64) -> bool
        ensures done { MatchBool result
            ((s : S) (h : List E) → Self.legal s h → after s h self.old → Self.legal s (h ++ detaching session ∷ [])
            × after s (h ++ detaching session ∷ []) self.new × absent s (h ++ detaching session ∷ []) session
            × (length h + 1 < 2 ^ 64))
            ((s : S) (h : List E) → Self.legal s h → after s h self.old → after s h self.new × gone s h session) }
        ensures entry { IsOwn Self.own Self.command session (detaching session)
            × (Self.command session (detaching session) ≡ 0) };

    /// Resets the unit for a session.
    fn reset(&mut self, session: u64) -> bool
        ensures done { MatchBool result
            ((s : S) (h : List E) → Self.legal s h → after s h self.old → Self.legal s (h ++ resetting session ∷ [])
            × after s (h ++ resetting session ∷ []) self.new × (length h + 1 < 2 ^ 64))
            ((s : S) (h : List E) → Self.legal s h → after s h self.old → after s h self.new × gone s h session) }
        ensures entry { IsOwn Self.own Self.command session (resetting session)
            × (Self.command session (resetting session) ≡ 0) };

    /// Moves the unit as a list says.
    fn move_to(&mut self, list: &[u8]) -> Result<Self::Change, Self::Stays>
        ensures done { IfOk result (λ change. (s : S) (h : List E) → Self.legal s h → after s h self.old
            → Self.legal s (h ++ moving list.now ∷ []) × after s (h ++ moving list.now ∷ []) self.new
            × moved s h list.now change × (length h + 1 < 2 ^ 64)) }
        ensures entry { IsFree Self.own Self.command (moving list.now) }
        ensures handed_over { handed_over self.old self.new result }
        ensures refused { IfErr result (λ why. (s : S) (h : List E) → Self.legal s h → after s h self.old
            → after s h self.new × stays s h list.now why) };

    /// Makes what was written last. It is no entry.
    fn flush(&mut self) -> Result<(), Self::Fault>
        ensures same { (s : S) (h : List E) → Self.legal s h → after s h self.old → after s h self.new }
        ensures flushed { flushed self.old self.new result };

    /// Serves a command of a session.
    fn step(
        &mut self,
        memory: Self::Memory,
        session: u64,
        serial: u64,
        by_group: &Self::Group,
        ask: &Self::Ask,
        bytes: &[u8],
    ) -> Result<Self::Reply, Refused<Self::Group>>
        ensures done { IfOk result (λ reply. (s : S) (h : List E) → Self.legal s h → after s h self.old
            → Self.legal s (h ++ serving session serial by_group.now ask.now bytes.now reply self.new ∷ [])
            × after s (h ++ serving session serial by_group.now ask.now bytes.now reply self.new ∷ []) self.new
            × told s h (serving session serial by_group.now ask.now bytes.now reply self.new) reply
            × (length h + 1 < 2 ^ 64)) }
        ensures entry { IfOk result (λ reply.
            IsOwn Self.own Self.command session (serving session serial by_group.now ask.now bytes.now reply self.new)
            × (Self.command session (serving session serial by_group.now ask.now bytes.now reply self.new) ≡ 1)
            × asks session serial by_group.now ask.now bytes.now (serving session serial by_group.now ask.now bytes.now reply self.new)
            × (serial + 1 < 2 ^ 64)) }
        ensures worked { IfOk result (λ reply. worked session ask.now bytes.now reply self.old self.new) }
        ensures same { IfErr result (λ why. (s : S) (h : List E) → Self.legal s h → after s h self.old → after s h self.new) }
        ensures cause { IfErr result (λ why. (s : S) (h : List E) → Self.legal s h → after s h self.old
            → counted Self.command session h + 1 ≡ serial
            → IsCause (gone s h session) (owner s h) (wants s h session ask.now bytes.now) by_group.now why) };
}
