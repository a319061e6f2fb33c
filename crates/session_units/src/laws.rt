//! What follows of what sessions hand out when they have left a unit: each command is one step of one sequential logical unit, and its
//! status, sense and data are what the model gives at one point of one history. `docs/CLAIMS.md` has the whole statement.
ghost use Rattle.std.specs.Prelude.{◌≡◌, ◌⊎◌, All, AllPairs, List, ℕ, false, true, length};
ghost use mathlib.Core.List.{IsPrefix};
ghost use Rattle.unit_control.specs.State.{UnitState};
ghost use Rattle.unit_control.specs.Entry.{Entry};
ghost use Rattle.unit_state.specs.History.{IsLegal};
ghost use Rattle.unit_entries.specs.Histories.{is_own};
ghost use Rattle.scsi_types.specs.Nexus.{Nexus};
ghost use Rattle.session_units.specs.Entries.{AreAlike, Done, HasDone, IsAttachOf};
ghost use Rattle.session_units.specs.Leavers.{AreTwo, Leaver, StandsIn};
ghost use Rattle.session_units.specs.Late.{late_at, late_of, never};
ghost use Rattle.session_units.specs.Units.{any_device};

use crate::gate::Gate;
use crate::units::LogicalUnits;
use unit_state::laws::serials_count_commands;

/// Put each of a session's commands, as it was asked and answered, in the place of its entry. The history is then still legal over any
/// device, leads to the same state at each place, and differs in entries of the session's own alone.
pub fn what_was_told_stands_in_one_history<U: LogicalUnits, G: Gate>()
    ensures { (s : UnitState) (unit : ℕ) (nexus : Nexus) (done : List Done) (history : List Entry)
        → (is : HasDone U.claims (late_at (late_of G.is_late G.lasts) unit) s nexus done history)
        → (told : List Entry) × (again : HasDone any_device never s nexus done told) × (length again.before ≡ length is.before)
        × AreAlike (λ n. n ≡ length is.before) s history told }
{}

/// So it is for all sessions that have left a unit, where no two have one number: there is one legal history in which each of their
/// commands stands as it was asked and answered. What a session has seen leads to the same state at each place as the beginning of that
/// history, and differs from it in own entries of these sessions alone.
pub fn all_that_was_told_stands_in_one_history<U: LogicalUnits, G: Gate>()
    ensures { (s : UnitState) (unit : ℕ) (leavers : List (Leaver U.claims (late_at (late_of G.is_late G.lasts) unit) s))
        → AllPairs (AreTwo U.claims (late_at (late_of G.is_late G.lasts) unit) s) leavers
        → (told : List Entry) × IsLegal false s told
        × All (StandsIn U.claims (late_at (late_of G.is_late G.lasts) unit) s told leavers) leavers }
{}

/// A session's own entries are those with its number, which is the place of its own Attach. So it shares none with another session, also
/// with an older one of its nexus: no entry before its Attach has this number, none has two, and at one place one nexus has attached.
pub fn two_sessions_share_no_entry<U: LogicalUnits, G: Gate>()
    ensures attach { (s : UnitState) (unit : ℕ) (nexus : Nexus) (done : List Done) (history : List Entry)
        → (is : HasDone U.claims (late_at (late_of G.is_late G.lasts) unit) s nexus done history)
        → IsAttachOf nexus (length is.before) history }
    ensures apart { (session other : ℕ) (e : Entry) → is_own session e ≡ true → is_own other e ≡ true → session ≡ other }
    ensures nexus { (nexus other : Nexus) (session : ℕ) (first second : List Entry) → IsPrefix first second ⊎ IsPrefix second first
        → IsAttachOf nexus session first → IsAttachOf other session second → nexus ≡ other }
{
    serials_count_commands();
}
