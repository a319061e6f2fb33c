//! Short transcripts, each the only legal one among those that differ from it in verdict, call, PDUs or data (RFC 7143). So the facts of a
//! legal transcript refuse what they are to refuse.
//!
//! The transcripts stand in `session_rules/specs/Examples.antt`: a session in full feature phase with one unit, which expects CmdSN 7 and
//! whose next StatSN is 3; the tag is 5. That of a login is in `session_rules/src/examples.rt`.
ghost use Rattle.std.specs.Prelude.{◌≡◌, ℕ, List, [], ◌∷◌, Some, None, Option, Result};
ghost use Rattle.scsi_types.specs.Cdb.{need_of};
ghost use Rattle.scsi_types.specs.declared.command.Command.{Command};
ghost use Rattle.scsi_types.specs.declared.command.CdbFault.{CdbFault};
ghost use Rattle.iscsi_pdu.specs.declared.header.TargetHeader.{TargetHeader};
ghost use Rattle.iscsi_pdu.specs.declared.header.DataIn.{DataIn as DataInHeader};
ghost use Rattle.iscsi_pdu.specs.declared.header.DataOut.{DataOut as DataOutHeader};
ghost use Rattle.iscsi_pdu.specs.declared.header.R2t.{R2t as R2tHeader};
ghost use Rattle.iscsi_pdu.specs.declared.header.ScsiResponse.{ScsiResponse as ResponseHeader};
ghost use Rattle.session_rules.specs.declared.verdict.Verdict.{Verdict};
ghost use Rattle.session_rules.specs.declared.verdict.Verdict.TheVariants.{Accepted, Refused};
ghost use Rattle.session_rules.specs.Asking.{Asking};
ghost use Rattle.session_rules.specs.Turn.{Out, Turn};
ghost use Rattle.session_tasks.specs.Slots.{IsAskedBy};
ghost use Rattle.session_rules.specs.Legal.{Lawful};
ghost use Rattle.session_rules.specs.Examples.{example, numbers_with, ping, pong, read_header, three_bytes, read};
ghost use Rattle.session_rules.specs.Examples.{the_data_in, unanswered, the_response, write_header, write, the_r2t};
ghost use Rattle.session_rules.specs.Examples.{turned_away, leave, reject, the_reject};

/// A NOP-Out that comes in its turn: it is accepted, the target is asked nothing, and one NOP-In goes out, with its LUN, tag and
/// data, StatSN 3, ExpCmdSN 8 and MaxCmdSN 39. Any other verdict, call, PDU, number or data is illegal.
pub fn a_nop_out_has_one_legal_answer()
    ensures legal { Lawful example (ping Accepted None (pong (numbers_with 3 39)) (1 ∷ 2 ∷ []) ∷ []) }
    ensures no_other { (v : Verdict) (call : Option Asking) (h : TargetHeader) (d : List ℕ)
        → Lawful example (ping v call h d ∷ [])
        → (v ≡ Accepted) × (call ≡ None) × (h ≡ pong (numbers_with 3 39)) × (d ≡ 1 ∷ 2 ∷ []) }
{}

/// A SCSI Command with R that expects four bytes, and whose target answers GOOD with three: it was asked of the unit of its LUN, with no
/// data; one Data-In has the three bytes, and the SCSI Response tells GOOD, one Data-In and an underflow of one. Any other unit, data,
/// offset, DataSN, flag, tag, number, residual, status or sense is illegal, and so is the data without a response behind it. Which command
/// was asked is left out here: it is what its CDB says (`IsAskedBy`).
pub fn a_read_has_one_legal_answer()
    ensures legal { (cdb : List ℕ) (asked : Result Command CdbFault) → IsAskedBy (read_header cdb) asked
        → Lawful example (read cdb (Some 0) asked [] the_data_in three_bytes the_response [] ∷ []) }
    ensures no_other { (cdb : List ℕ) (unit : Option ℕ) (asked : Result Command CdbFault) (bytes : List ℕ)
        (h : DataInHeader) (d : List ℕ) (r : ResponseHeader) (e : List ℕ)
        → Lawful example (read cdb unit asked bytes h d r e ∷ [])
        → (unit ≡ Some 0) × (bytes ≡ []) × (h ≡ the_data_in) × (d ≡ three_bytes) × (r ≡ the_response) × (e ≡ []) }
    ensures answered { (cdb : List ℕ) (unit : Option ℕ) (asked : Result Command CdbFault) (bytes : List ℕ)
        (h : DataInHeader) (d : List ℕ) → Lawful example (unanswered cdb unit asked bytes h d ∷ []) → ⊥ }
{}

/// A SCSI Command with W that expects four bytes and brings none: one R2T asks for the four. Any other offset, length, R2TSN, LUN, tag,
/// number or data is illegal; and so is to answer without asking the target, when the data has come.
pub fn a_write_has_one_legal_r2t()
    ensures legal { (cdb : List ℕ) (asked : Result Command CdbFault) → IsAskedBy (write_header cdb) asked → need_of asked ≡ 4
        → Lawful example (write cdb the_r2t [] ∷ []) }
    ensures no_other { (cdb : List ℕ) (asked : Result Command CdbFault) → IsAskedBy (write_header cdb) asked
        → need_of asked ≡ 4 → (r : R2tHeader) (e : List ℕ) → Lawful example (write cdb r e ∷ [])
        → (r ≡ the_r2t) × (e ≡ []) }
    ensures called { (cdb : List ℕ) (x : DataOutHeader) (d : List ℕ) (r : ResponseHeader)
        → Lawful example (write cdb the_r2t [] ∷ (turned_away x d r ∷ [])) → ⊥ }
{}

/// A PDU of a kind that only a target sends: it is refused, and one Reject goes out, with reason 05 (Command Not Supported),
/// StatSN 3, ExpCmdSN 7, MaxCmdSN 38, and the header segment that came. Any other verdict, call or PDU is illegal.
pub fn a_pdu_of_a_target_has_one_legal_answer()
    ensures legal { (h : TargetHeader) (bhs : List ℕ)
        → Lawful example (reject h bhs (Refused 5) None (the_reject bhs) ∷ []) }
    ensures no_other { (h : TargetHeader) (bhs : List ℕ) (v : Verdict) (call : Option Asking) (outs : List Out)
        → Lawful example (reject h bhs v call outs ∷ [])
        → (v ≡ Refused 5) × (call ≡ None) × (outs ≡ the_reject bhs) }
{}

/// A Logout that closes the session: nothing comes behind it.
pub fn nothing_comes_behind_a_logout()
    ensures legal { Lawful example (leave ∷ []) }
    ensures last { (t : Turn) → Lawful example (leave ∷ (t ∷ [])) → ⊥ }
{}
