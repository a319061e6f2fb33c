//! What the model of a unit says, in a storage engineer's words.
ghost use Rattle.std.specs.Prelude.{◌≡◌, ◌≢◌, IsSome, IsTrue, false, ◌+◌, ◌*◌, ◌<◌, ◌≤◌, if◌then◌else◌, ◌↔◌, ℕ, Bool, true, List, [], ◌∷◌};
ghost use Rattle.std.specs.Prelude.{◌++◌, length, take, Some, None, Ok, Result};
ghost use Rattle.scsi_types.specs.ReplyValue.{ReplyValue, check, conflict, good};
ghost use Rattle.scsi_types.specs.declared.names.Group.{Group};
ghost use Rattle.scsi_types.specs.declared.command.Command.{Command as ScsiCommand};
ghost use Rattle.scsi_types.specs.declared.command.Command.TheVariants.{PersistentReserveOut, Read};
ghost use Rattle.scsi_types.specs.declared.command.Command.TheVariants.{SetTargetPortGroups, Write};
ghost use Rattle.scsi_types.specs.declared.reservation.PrOutAction.{PrOutAction};
ghost use Rattle.scsi_types.specs.declared.command.CdbFault.{CdbFault};
ghost use Rattle.scsi_types.specs.Attention.{attention_sense};
ghost use Rattle.scsi_types.specs.declared.attention.UnitAttention.{UnitAttention as Condition};
ghost use Rattle.scsi_types.specs.declared.attention.UnitAttention.TheVariants.{AccessStateChanged, PowerOn};
ghost use Rattle.scsi_types.specs.Sense.{internal_target_failure, set_target_port_groups_command_failed};
ghost use Rattle.std.specs.Prelude.{Contains};
ghost use Rattle.access_states.specs.AccessMap.{opening_access};
ghost use Rattle.aptpl_file.specs.Holds.{Holds};
ghost use Rattle.aptpl_file.specs.Lasts.{EachOutcomeHolds};
ghost use Rattle.block_file.specs.Disk.{MayLeave};
ghost use Rattle.registrants.specs.Registry.{RecordValue};
ghost use Rattle.unit_control.specs.Saving.{LastsAlone, with_doubt};
ghost use Rattle.access_states.specs.AccessMap.{AccessMapValue};
ghost use Rattle.attentions.specs.Queue.{established, is_pending, without_repeats};
ghost use Rattle.unit_control.specs.Ops.{kind_asked, passes_attention};
ghost use Rattle.reservations.specs.declared.request.PrOut.{PrOut};
ghost use Rattle.scsi_types.specs.declared.command.Op.{Op};
ghost use Rattle.scsi_types.specs.declared.sense.Sense.{Sense};
ghost use Rattle.unit_control.specs.Refusal.{IsKeptOut, IsNotServed};
ghost use Rattle.unit_control.specs.Reserve.{after_effect, effect_by};
ghost use Rattle.unit_control.specs.Sessions.{session_of, first_pending, last_nexus, pending_of};
ghost use Rattle.unit_control.specs.State.{ControlValue, UnitState, opening_control, preferred};
ghost use Rattle.unit_control.specs.Choice.{Choice, Fine, OpenFailed, SaveFailed};
ghost use Rattle.unit_control.specs.Groups.{is_any_changed, with_access};
ghost use Rattle.unit_control.specs.Refusal.{refusal, request};
ghost use Rattle.unit_control.specs.Entry.{Entry, Attach, Command, Detach, Reset, IsPossible, IsNext, after, blocks_after};
ghost use Rattle.unit_control.specs.Entry.{control_after, count_command, reply_to};
ghost use Rattle.unit_state.specs.History.{state_after, IsLegal, IsReplyAt, reply_at, failed_entries, has_failed};
ghost use Rattle.unit_state.specs.Serials.{IsNumbered, IsOpening};
ghost use Rattle.scsi_types.specs.Nexus.{Nexus};
ghost use Rattle.scsi_types.specs.declared.names.Place.{Place};

use aptpl_file::laws::one_record_is_held;
use block_file::Blocks;
use reservations::the_sender_is_not_told;

/// One entry more of a history changes the state that the history gives, and is possible and answered in that
/// state; the replies before it stay.
pub fn one_entry_more()
    ensures state { (s : UnitState) (history : List Entry) (entry : Entry)
        → state_after s (history ++ entry ∷ []) ≡ after (state_after s history) entry }
    ensures legal { (claims : Bool) (s : UnitState) (history : List Entry) (entry : Entry)
        → IsLegal claims s (history ++ entry ∷ []) ↔
        (IsLegal claims s history × IsPossible claims (state_after s history) entry) }
    ensures reply { (s : UnitState) (history : List Entry) (entry : Entry)
        → reply_at s (history ++ entry ∷ []) (length history) ≡ reply_to (state_after s history) entry }
    ensures before { (s : UnitState) (history : List Entry) (entry : Entry) (i : ℕ) → i < length history
        → reply_at s (history ++ entry ∷ []) i ≡ reply_at s history i }
{}

/// At most as many entries tell of a failure as there are; with one entry more it is one more where that does.
pub fn failures_are_counted()
    ensures most { (history : List Entry) → failed_entries history ≤ length history }
    ensures more { (history : List Entry) (entry : Entry) → failed_entries (history ++ entry ∷ [])
        ≡ failed_entries history + (if has_failed entry then 1 else 0) }
{}

/// Behind a legal history of a unit since it opened the count of entries is the history's length; of each session that is
/// attached the next serial is one more than the number of its commands in it; and ids are places of entries.
pub fn serials_count_commands()
    ensures { (claims : Bool) (s : UnitState) (history : List Entry) → IsOpening s.control → IsLegal claims s history
        → IsNumbered history (state_after s history).control }
{}

/// A unit opens so that this law holds of it.
pub fn nobody_is_attached_at_first()
    ensures { (place : Place) (total : ℕ) (lasted : RecordValue) → IsOpening (opening_control place total lasted) }
{}

/// Behind an attach the last session is that of the nexus which attached.
pub fn who_attached_is_last()
    ensures { (c : ControlValue) (nexus : Nexus) → last_nexus (control_after c (Attach nexus)).sessions ≡ nexus }
{}

/// Over a disk that keeps what it claims there is one reply to each command: the one that the model computes.
pub fn a_disk_decides_the_reply()
    ensures { (s : UnitState) (history : List Entry) (i : ℕ) (reply : ReplyValue) → IsReplyAt true s history i reply
        → reply_at s history i ≡ Some reply }
{}

/// Where nothing refuses a WRITE and the device does not fail, it is GOOD, and a READ of the same range that nothing
/// refuses gives the bytes that were written, to whatever session (SBC-3, READ (10) and WRITE (10) commands).
pub fn a_read_gives_what_was_written()
    ensures write { (s : UnitState) (session serial : ℕ) (by : Group) (lba blocks : ℕ) (fua : Bool) (bytes : List ℕ)
        → refusal s.control (request session (Ok (Write lba blocks fua)) bytes) ≡ None
        → reply_to s (Command session serial by (Ok (Write lba blocks fua)) bytes Fine) ≡ Some (good []) }
    ensures read { (s : UnitState) (session serial : ℕ) (by : Group) (reader next : ℕ) (through : Group)
        (lba blocks : ℕ) (fua past : Bool) (bytes none : List ℕ)
        → length s.blocks ≡ s.control.total → refusal s.control (request session (Ok (Write lba blocks fua)) bytes)
        ≡ None
        → refusal (after s (Command session serial by (Ok (Write lba blocks fua)) bytes Fine)).control
        (request reader (Ok (Read lba blocks past)) none) ≡ None
        → reply_to (after s (Command session serial by (Ok (Write lba blocks fua)) bytes Fine))
        (Command reader next through (Ok (Read lba blocks past)) none Fine)
        ≡ Some (good (take (512 * blocks) bytes)) }
{}

/// A command is served once: its serial is not taken again.
pub fn a_serial_is_taken_once()
    ensures { (claims : Bool) (s : UnitState) (session serial : ℕ) (by : Group) (asked : Result ScsiCommand CdbFault)
        (bytes : List ℕ) (choice : Choice)
        → IsPossible claims s (Command session serial by asked bytes choice)
        → IsNext (after s (Command session serial by asked bytes choice)).control session serial → ⊥ }
{}

/// A command that a pending attention does not let pass is answered with it and does nothing else, and the attention is
/// pending no more, since none is pending twice (SAM-5, 5.14).
pub fn an_attention_is_told_once()
    ensures reply { (s : UnitState) (session serial : ℕ) (by : Group) (asked : Result ScsiCommand CdbFault)
        (bytes : List ℕ) (attention : Condition)
        → first_pending s.control.sessions session ≡ Some attention → passes_attention (kind_asked asked) ≡ false
        → reply_to s (Command session serial by asked bytes Fine) ≡ Some (check (attention_sense attention)) }
    ensures blocks { (s : UnitState) (session serial : ℕ) (by : Group) (asked : Result ScsiCommand CdbFault)
        (bytes : List ℕ) (attention : Condition)
        → first_pending s.control.sessions session ≡ Some attention → passes_attention (kind_asked asked) ≡ false
        → blocks_after s (Command session serial by asked bytes Fine) ≡ s.blocks }
    ensures told { (s : UnitState) (session serial : ℕ) (by : Group) (asked : Result ScsiCommand CdbFault)
        (bytes : List ℕ) (attention : Condition)
        → first_pending s.control.sessions session ≡ Some attention → passes_attention (kind_asked asked) ≡ false
        → IsTrue (without_repeats (pending_of s.control.sessions session))
        → is_pending (pending_of (after s (Command session serial by asked bytes Fine)).control.sessions session)
        attention
        ≡ false }
{}

/// A command of a kind that the ports of its group do not serve in the state of that group is refused for that and does
/// nothing, whatever its fields and whatever the reservation: where nothing is to be told first (SPC-4, 5.15.2.4).
pub fn a_group_serves_what_its_state_lets()
    ensures reply { (s : UnitState) (session serial : ℕ) (by : Group) (asked : Result ScsiCommand CdbFault)
        (bytes : List ℕ) (op : Op) (sense : Sense)
        → IsNotServed s.control session asked op sense
        → reply_to s (Command session serial by asked bytes Fine) ≡ Some (check sense) }
    ensures blocks { (s : UnitState) (session serial : ℕ) (by : Group) (asked : Result ScsiCommand CdbFault)
        (bytes : List ℕ) (op : Op) (sense : Sense)
        → IsNotServed s.control session asked op sense
        → blocks_after s (Command session serial by asked bytes Fine) ≡ s.blocks }
    ensures control { (s : UnitState) (session serial : ℕ) (by : Group) (asked : Result ScsiCommand CdbFault)
        (bytes : List ℕ) (op : Op) (sense : Sense)
        → IsNotServed s.control session asked op sense
        → control_after s.control (Command session serial by asked bytes Fine) ≡ count_command s.control session }
{}

/// A command that the reservation does not let its nexus do is RESERVATION CONFLICT and does nothing: where nothing is to
/// be told first and the group serves it, it is judged when it is served (SPC-4, 5.13.1).
pub fn a_reservation_keeps_others_out()
    ensures reply { (s : UnitState) (session serial : ℕ) (by : Group) (asked : Result ScsiCommand CdbFault)
        (bytes : List ℕ) (op : Op)
        → IsKeptOut s.control session asked op
        → reply_to s (Command session serial by asked bytes Fine) ≡ Some conflict }
    ensures blocks { (s : UnitState) (session serial : ℕ) (by : Group) (asked : Result ScsiCommand CdbFault)
        (bytes : List ℕ) (op : Op)
        → IsKeptOut s.control session asked op
        → blocks_after s (Command session serial by asked bytes Fine) ≡ s.blocks }
    ensures control { (s : UnitState) (session serial : ℕ) (by : Group) (asked : Result ScsiCommand CdbFault)
        (bytes : List ℕ) (op : Op)
        → IsKeptOut s.control session asked op
        → control_after s.control (Command session serial by asked bytes Fine) ≡ count_command s.control session }
{}

/// Who sends a PERSISTENT RESERVE OUT is to be told nothing more by what it does (SPC-4, 5.13.11).
pub fn a_sender_hears_nothing_of_its_own()
    ensures { (c : ControlValue) (session : ℕ) (asked : PrOut)
        → pending_of (after_effect c (effect_by c session asked)).sessions session ≡ pending_of c.sessions session }
{
    the_sender_is_not_told();
}

/// Who asks for a logical unit reset keeps what it was to be told; every other session is told of the reset alone.
pub fn a_reset_is_told_to_the_others()
    ensures own { (c : ControlValue) (session : ℕ) → pending_of (control_after c (Reset session)).sessions session
        ≡ pending_of c.sessions session }
    ensures others { (c : ControlValue) (session other : ℕ) → other ≢ session → IsSome (session_of c.sessions other)
        → pending_of (control_after c (Reset session)).sessions other ≡ PowerOn ∷ [] }
{}

/// Who sets access states hears nothing of it. Where the state of a group is another, every other session is to be told so,
/// behind what it was to be told; and every session where the unit moves by itself (SPC-4, 5.15.2).
pub fn a_change_is_told_to_the_others()
    ensures own { (c : ControlValue) (session : ℕ) (new : AccessMapValue)
        → pending_of (with_access c (Some session) new).sessions session ≡ pending_of c.sessions session }
    ensures others { (c : ControlValue) (session other : ℕ) (new : AccessMapValue) → other ≢ session
        → is_any_changed c.access new ≡ true → IsSome (session_of c.sessions other)
        → pending_of (with_access c (Some session) new).sessions other
        ≡ established (pending_of c.sessions other) AccessStateChanged }
    ensures moved { (c : ControlValue) (other : ℕ) (new : AccessMapValue) → is_any_changed c.access new ≡ true
        → IsSome (session_of c.sessions other)
        → pending_of (with_access c None new).sessions other
        ≡ established (pending_of c.sessions other) AccessStateChanged }
{}

/// A SET TARGET PORT GROUPS for which the blocks can't be opened changes nothing, and is told so (SPC-4, 6.45).
pub fn a_failed_open_changes_nothing()
    ensures control { (c : ControlValue) (session serial : ℕ) (by : Group) (list_length : ℕ) (bytes : List ℕ)
        → refusal c (request session (Ok (SetTargetPortGroups list_length)) bytes) ≡ None
        → control_after c (Command session serial by (Ok (SetTargetPortGroups list_length)) bytes OpenFailed)
        ≡ count_command c session }
    ensures reply { (s : UnitState) (session serial : ℕ) (by : Group) (list_length : ℕ) (bytes : List ℕ)
        → refusal s.control (request session (Ok (SetTargetPortGroups list_length)) bytes) ≡ None
        → reply_to s (Command session serial by (Ok (SetTargetPortGroups list_length)) bytes OpenFailed)
        ≡ Some (check set_target_port_groups_command_failed) }
{}

/// Where a PERSISTENT RESERVE OUT is GOOD a restart finds just what is to last of the registrations that are there then,
/// and there is no doubt (SPC-4, 5.13.5).
pub fn good_tells_that_it_lasts()
    ensures { (s : UnitState) (session serial : ℕ) (by : Group) (action : PrOutAction)
        (scope kind list_length : ℕ) (bytes : List ℕ) (choice : Choice)
        → reply_to s (Command session serial by (Ok (PersistentReserveOut action scope kind list_length)) bytes choice)
        ≡ Some (good [])
        → LastsAlone (control_after s.control
        (Command session serial by (Ok (PersistentReserveOut action scope kind list_length)) bytes choice)) }
{}

/// A PERSISTENT RESERVE OUT that can't be saved is told so, and changes nothing but what a restart may find.
pub fn a_failed_save_changes_nothing_else()
    ensures control { (c : ControlValue) (session serial : ℕ) (by : Group) (action : PrOutAction)
        (scope kind list_length : ℕ) (bytes : List ℕ) (after : List RecordValue)
        → refusal c (request session (Ok (PersistentReserveOut action scope kind list_length)) bytes) ≡ None
        → control_after c (Command session serial by (Ok (PersistentReserveOut action scope kind list_length)) bytes
        (SaveFailed after)) ≡ count_command (with_doubt c after) session }
    ensures reply { (s : UnitState) (session serial : ℕ) (by : Group) (action : PrOutAction)
        (scope kind list_length : ℕ) (bytes : List ℕ) (after : List RecordValue)
        → refusal s.control (request session (Ok (PersistentReserveOut action scope kind list_length)) bytes) ≡ None
        → reply_to s (Command session serial by (Ok (PersistentReserveOut action scope kind list_length)) bytes
        (SaveFailed after)) ≡ Some (check internal_target_failure) }
{}

/// A session that ended is not attached.
pub fn an_ended_session_is_gone()
    ensures { (c : ControlValue) (session : ℕ) → session_of (control_after c (Detach session)).sessions session ≡ None }
{}

/// Of a registration file that a crash left a restart finds a record that the unit named before.
pub fn a_restart_finds_a_record_that_was_named<B: Blocks>()
    ensures { (device : B) (named : List RecordValue) (disk : List (List ℕ)) (found : RecordValue)
        → EachOutcomeHolds (B.size device) (B.may_hold device) named
        → MayLeave (B.size device) (B.may_hold device) disk → Holds disk found → Contains named found }
{
    one_record_is_held();
}

/// A unit that opens again with a record that lasted has no session and no entry, PRGENERATION 0, and the access states of a
/// unit that was not altered.
pub fn a_restart_begins_anew()
    ensures sessions { (place : Place) (total : ℕ) (lasted : RecordValue)
        → (opening_control place total lasted).sessions ≡ [] }
    ensures entries { (place : Place) (total : ℕ) (lasted : RecordValue) → (opening_control place total lasted).count ≡ 0 }
    ensures generation { (place : Place) (total : ℕ) (lasted : RecordValue)
        → (opening_control place total lasted).registry.generation ≡ 0 }
    ensures access { (place : Place) (total : ℕ) (lasted : RecordValue)
        → (opening_control place total lasted).access ≡ opening_access (preferred place.unit) }
{}
