//! What the definitions say, in other words: each function's contract is a law over them, and its body is empty.
ghost use Rattle.std.specs.Prelude.{◌≡◌, ◌≢◌, [], ◌∷◌, List, ℕ, IsOkAnd, IsTrue, Some, None, Ok};
ghost use Rattle.scsi_types.specs.declared.names.Group.{Group};
ghost use Rattle.scsi_types.specs.declared.names.Group.TheVariants.{One, Two};
ghost use Rattle.access_states.specs.declared.list.Named.{Named};
ghost use Rattle.access_states.specs.declared.state.AccessState.{AccessState};
ghost use Rattle.access_states.specs.declared.state.AccessState.TheVariants.{ActiveOptimized, ActiveNonOptimized, Unavailable};
ghost use Rattle.scsi_types.specs.Nexus.{other_group};
ghost use Rattle.scsi_types.specs.declared.command.Op.{Op};
ghost use Rattle.scsi_types.specs.declared.command.Op.TheVariants.{ReportTargetPortGroups, SetTargetPortGroups};
ghost use Rattle.access_states.specs.State.{is_served, refusal_in};
ghost use Rattle.access_states.specs.declared.state.Cause.{Cause};
ghost use Rattle.access_states.specs.AccessMap.{AccessMapValue, group_access, has_one_owner, opening_access, owner_of};
ghost use Rattle.access_states.specs.Change.{access_after};
ghost use Rattle.access_states.specs.Laws.{IsTaken, OwnsBeside, named_for};
ghost use Rattle.access_states.specs.Report.{report_bytes};

/// Just one group is active/optimized: as a unit opens, and after each list that is taken.
pub fn one_group_is_optimized()
    ensures opening { (preferred : Group) → IsTrue (has_one_owner (opening_access preferred)) }
    ensures preferred { (preferred : Group) → owner_of (opening_access preferred) ≡ preferred }
    ensures kept { (cause : Cause) (old new : AccessMapValue) (list : List ℕ) → access_after cause old list ≡ Ok new →
        IsTrue (has_one_owner new) }
    ensures owner { (map : AccessMapValue) → IsTrue (has_one_owner map) →
        (group_access map (owner_of map)).state ≡ ActiveOptimized }
    ensures other { (map : AccessMapValue) → IsTrue (has_one_owner map) →
        (group_access map (other_group (owner_of map))).state ≢ ActiveOptimized }
{}

/// A list that is taken is obeyed: a group that it names has the state with which it is named. One that it does not name
/// stays as it was, unless it owned the unit and the other does now: then it is active/non-optimized.
pub fn a_list_is_obeyed()
    ensures named { (cause : Cause) (old new : AccessMapValue) (list : List ℕ) (named : Named) (g : Group)
        (state : AccessState) → IsTaken cause old list named new → named_for named g ≡ Some state →
        (group_access new g).state ≡ state }
    ensures stays { (cause : Cause) (old new : AccessMapValue) (list : List ℕ) (named : Named) (g : Group) →
        IsTrue (has_one_owner old) → IsTaken cause old list named new → named_for named g ≡ None →
        (owner_of old ≡ g → owner_of new ≡ g) → group_access new g ≡ group_access old g }
    ensures gives_way { (cause : Cause) (old new : AccessMapValue) (list : List ℕ) (named : Named) (g : Group) →
        IsTrue (has_one_owner old) → IsTaken cause old list named new → named_for named g ≡ None → owner_of old ≡ g →
        owner_of new ≢ g → (group_access new g).state ≡ ActiveNonOptimized }
{}

/// The status code of a group tells what altered its state last; where the state stays, so does the code.
pub fn a_status_code_tells_the_cause()
    ensures altered { (cause : Cause) (old new : AccessMapValue) (list : List ℕ) (g : Group) →
        access_after cause old list ≡ Ok new → (group_access new g).state ≢ (group_access old g).state →
        (group_access new g).altered ≡ Some cause }
    ensures stays { (cause : Cause) (old new : AccessMapValue) (list : List ℕ) (g : Group) →
        access_after cause old list ≡ Ok new → (group_access new g).state ≡ (group_access old g).state →
        group_access new g ≡ group_access old g }
{}

/// A list that names no group changes nothing.
pub fn an_empty_list_changes_nothing()
    ensures nothing { (cause : Cause) (map : AccessMapValue) → IsTrue (has_one_owner map) →
        access_after cause map [] ≡ Ok map }
    ensures reserved { (cause : Cause) (map : AccessMapValue) (a b c d : ℕ) → IsTrue (has_one_owner map) →
        access_after cause map (a ∷ b ∷ c ∷ d ∷ []) ≡ Ok map }
{}

/// Whatever the states are, either group can be made the owner, either taken down with the other as the owner, and either brought up
/// as the owner with the other beside it.
pub fn a_move_is_always_taken()
    ensures to_one { (cause : Cause) (old : AccessMapValue) → IsTrue (has_one_owner old) →
        IsOkAnd (access_after cause old (0 ∷ 0 ∷ 0 ∷ 0 ∷ 0 ∷ 0 ∷ 0 ∷ 1 ∷ [])) (λ new. owner_of new ≡ One) }
    ensures to_two { (cause : Cause) (old : AccessMapValue) → IsTrue (has_one_owner old) →
        IsOkAnd (access_after cause old (0 ∷ 0 ∷ 0 ∷ 0 ∷ 0 ∷ 0 ∷ 0 ∷ 2 ∷ [])) (λ new. owner_of new ≡ Two) }
    ensures one_down { (cause : Cause) (old : AccessMapValue) →
        OwnsBeside (access_after cause old (0 ∷ 0 ∷ 0 ∷ 0 ∷ 0 ∷ 0 ∷ 0 ∷ 2 ∷ 3 ∷ 0 ∷ 0 ∷ 1 ∷ [])) Two Unavailable }
    ensures two_down { (cause : Cause) (old : AccessMapValue) →
        OwnsBeside (access_after cause old (0 ∷ 0 ∷ 0 ∷ 0 ∷ 0 ∷ 0 ∷ 0 ∷ 1 ∷ 3 ∷ 0 ∷ 0 ∷ 2 ∷ [])) One Unavailable }
    ensures one_up { (cause : Cause) (old : AccessMapValue) →
        OwnsBeside (access_after cause old (0 ∷ 0 ∷ 0 ∷ 0 ∷ 0 ∷ 0 ∷ 0 ∷ 1 ∷ 1 ∷ 0 ∷ 0 ∷ 2 ∷ [])) One ActiveNonOptimized }
    ensures two_up { (cause : Cause) (old : AccessMapValue) →
        OwnsBeside (access_after cause old (0 ∷ 0 ∷ 0 ∷ 0 ∷ 0 ∷ 0 ∷ 0 ∷ 2 ∷ 1 ∷ 0 ∷ 0 ∷ 1 ∷ [])) Two ActiveNonOptimized }
{}

/// What an unavailable group serves, every group serves; REPORT and SET TARGET PORT GROUPS are among it, so that a group
/// can be brought back through either.
pub fn a_group_can_be_brought_back()
    ensures always { (state : AccessState) (op : Op) → IsTrue (is_served Unavailable op) → refusal_in state op ≡ None }
    ensures set { (state : AccessState) → refusal_in state SetTargetPortGroups ≡ None }
    ensures report { (state : AccessState) → refusal_in state ReportTargetPortGroups ≡ None }
{}

/// The report of a unit that nothing has altered, byte by byte.
#[tactic(auto, unfolding(crate::specs::Report::report_bytes))]
pub fn report_of_a_fresh_unit()
    ensures { report_bytes One (opening_access One) ≡
        0x00 ∷ 0x00 ∷ 0x00 ∷ 0x18
        ∷ 0x80 ∷ 0x0F ∷ 0x00 ∷ 0x01 ∷ 0x00 ∷ 0x00 ∷ 0x00 ∷ 0x01 ∷ 0x00 ∷ 0x00 ∷ 0x00 ∷ 0x01
        ∷ 0x01 ∷ 0x0F ∷ 0x00 ∷ 0x02 ∷ 0x00 ∷ 0x00 ∷ 0x00 ∷ 0x01 ∷ 0x00 ∷ 0x00 ∷ 0x00 ∷ 0x02 ∷ [] }
{}
