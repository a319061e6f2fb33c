//! What is said of commands whose flush comes behind them, in a storage engineer's words.
ghost use Rattle.std.specs.Prelude.{◌≡◌, ◌++◌, ◌∷◌, [], List, Bool, false};
ghost use Rattle.unit_control.specs.State.{UnitState};
ghost use Rattle.unit_control.specs.Entry.{Entry, IsPossible, after};
ghost use Rattle.unit_state.specs.History.{state_after};
ghost use Rattle.unit_entries.specs.Histories.{IsHistory};

/// A command whose flush came behind it is one step of its unit: with the command as it was asked and told in the place of its entry,
/// which it may have (`HasLateFlush`), the history is legal over any device, and leads to the same state. What stands before it and behind
/// it stays as it is.
#[tactic(auto, using(crate::proofs::FlushLaws::in_place, crate::proofs::FlushLaws::leads_in_place))]
pub fn a_command_with_a_late_flush_is_one_step()
    ensures legal { (claims : Bool) (s : UnitState) (before behind : List Entry) (entry asked : Entry)
        → IsHistory claims s ((before ++ entry ∷ []) ++ behind) → IsPossible false (state_after s before) asked
        → after (state_after s before) asked ≡ after (state_after s before) entry
        → IsHistory false s ((before ++ asked ∷ []) ++ behind) }
    ensures state { (s : UnitState) (before behind : List Entry) (entry asked : Entry)
        → after (state_after s before) asked ≡ after (state_after s before) entry
        → state_after s ((before ++ asked ∷ []) ++ behind) ≡ state_after s ((before ++ entry ∷ []) ++ behind) }
{}
