//! What the words of one session over one unit say, in other words.
ghost use Rattle.std.specs.Prelude.{◌≡◌, ℕ, List, Option, Some, Result, slice_get};
ghost use Rattle.scsi_types.specs.ReplyValue.{ReplyValue};
ghost use Rattle.scsi_types.specs.declared.command.Command.{Command};
ghost use Rattle.scsi_types.specs.declared.command.CdbFault.{CdbFault};
ghost use Rattle.session_rules.specs.Asking.{Asking, served, reset};
ghost use Rattle.session_rules.specs.declared.target.TargetAnswer.TheVariants.{Replied};
ghost use Rattle.session_rules.specs.declared.target.ResetAnswer.TheVariants.{Done};
ghost use Rattle.unit_control.specs.State.{UnitState};
ghost use Rattle.unit_control.specs.Entry.{Entry};
ghost use Rattle.once_target.specs.Once.{AreAnswerable};

/// The unit replies to its own commands alone, and is reset for a reset of itself alone.
pub fn no_other_unit_is_served()
    ensures replied { (s : UnitState) (cs : List Asking) (history : List Entry) (k : ℕ) (unit : Option ℕ)
        (asked : Result Command CdbFault) (bytes : List ℕ) (reply : ReplyValue) → AreAnswerable s cs history
        → slice_get cs k ≡ Some (served unit asked bytes (Replied reply)) → unit ≡ Some 0 }
    ensures was_reset { (s : UnitState) (cs : List Asking) (history : List Entry) (k unit : ℕ)
        → AreAnswerable s cs history → slice_get cs k ≡ Some (reset unit Done) → unit ≡ 0 }
{}
