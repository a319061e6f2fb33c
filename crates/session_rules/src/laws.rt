//! What follows of a legal transcript, in the words of the protocol (RFC 7143).
ghost use Rattle.std.specs.Prelude.{◌≡◌, ◌+◌, ◌<◌, ◌≤◌, ◌∷◌, ◌++◌};
ghost use Rattle.session_rules.specs.Words.{ℕ, List, [], IsTrue, Some, length, min, slice_get, take, own_data_segment};
ghost use Rattle.session_rules.specs.Words.{max_data_segment_length, three_at, IsPdu, Stands, Header, CommandHeader, TargetAnswer};
ghost use Rattle.session_rules.specs.Words.{Accepted, Full, AllByRecursion, TargetRecord, Opening};
ghost use Rattle.iscsi_pdu.specs.declared.fault.PduFault.TheVariants.{TooLong};
ghost use Rattle.session_rules.specs.Setting.{Setting};
ghost use Rattle.session_rules.specs.Phases.{Transcript, exchanges, outgoing, IsLawful};
ghost use Rattle.session_rules.specs.Turn.{Turn, sent};
ghost use Rattle.session_rules.specs.Tasks.{tasks};
ghost use Rattle.session_rules.specs.Window.{wrap};
ghost use Rattle.session_rules.specs.Answered.{reply_data};
ghost use Rattle.session_rules.specs.Response.{responses};
ghost use Rattle.session_rules.specs.DataIn.{data_ins, joined_data};
ghost use Rattle.session_rules.specs.Legal.{AtEach, Lawful, status_numbers};
ghost use Rattle.session_rules.specs.Following.{HaveMaxCmdSn, IsCallTurn, window_end, IgnoresOutside, HadNoR2t};

/// Of two PDUs that go out one behind the other, among those that use up a StatSN, the second has the next one
/// (RFC 7143, 4.2.2.2). So none has a StatSN that was used, until 2^32 of them went out.
pub fn status_numbers_are_consecutive()
    ensures { (m : Setting) (ts : List Turn) (k n next : ℕ) → Lawful m ts
        → slice_get (status_numbers (sent ts)) k ≡ Some n → slice_get (status_numbers (sent ts)) (k + 1) ≡ Some next
        → next ≡ wrap (n + 1) }
{}

/// Over a whole session that begins with a login, the first PDU that uses up a StatSN has StatSN 1, and each has the next one
/// behind that before it: a login and full feature phase count as one (RFC 7143, 4.2.2.2).
pub fn status_numbers_count_on_behind_a_login()
    ensures { (units : ℕ) (me : TargetRecord) (tag : ℕ) (c : Transcript) → IsLawful units me (Opening.Login tag) c → (k n : ℕ)
        → slice_get (status_numbers (outgoing (exchanges c))) k ≡ Some n → n ≡ wrap (1 + k) }
{}

/// No command is answered twice: a turn, which has one PDU that came, has at most one SCSI Response, and none where
/// what came was not accepted and did not find the task set full; and a command that was accepted has at most one in all
/// its turns (RFC 7143, 11.4).
pub fn no_command_is_answered_twice()
    ensures once { (m : Setting) (ts : List Turn) → Lawful m ts
        → AtEach (λ before t. length (responses t.sent) ≤ 1) ts }
    ensures accepted { (m : Setting) (ts : List Turn) → Lawful m ts
        → AtEach (λ before t. (t.verdict ≡ Accepted → ⊥) → (t.verdict ≡ Full → ⊥) → responses t.sent ≡ []) ts }
    ensures command { (m : Setting) (ts : List Turn) → Lawful m ts
        → AllByRecursion (λ k. length (responses (sent k.own)) ≤ 1) (tasks m.units ts) }
{}

/// The Data-In PDUs of an accepted command with the R bit carry the beginning of the data of its one answer, as
/// much as the command expects, and nothing else (RFC 7143, 11.7).
pub fn a_read_gets_the_data_of_its_answer()
    ensures bytes { (m : Setting) (ts : List Turn) → Lawful m ts
        → AtEach (λ before t. (p : CommandHeader) (answer : TargetAnswer) → IsCallTurn t p answer → IsTrue p.read
        → joined_data (data_ins t.sent) ≡ take p.expected_length (reply_data answer)) ts }
    ensures size { (m : Setting) (ts : List Turn) → Lawful m ts
        → AtEach (λ before t. (p : CommandHeader) (answer : TargetAnswer) → IsCallTurn t p answer → IsTrue p.read
        → length (joined_data (data_ins t.sent)) ≡ min p.expected_length (length (reply_data answer))) ts }
{}

/// MaxCmdSN lies 31 ahead of the first CmdSN and the numbered PDUs that were accepted, less the numbered commands that wait
/// for their data. This end of the window never falls: what an initiator was told that it may send, it may send for good
/// (RFC 7143, 4.2.2.1).
pub fn the_window_never_falls()
    ensures counted { (m : Setting) (ts : List Turn) → Lawful m ts
        → AtEach (λ before t. HaveMaxCmdSn (wrap (m.start.exp_cmd_sn + window_end m.units (before ++ t ∷ []) + 31)) t.sent) ts }
    ensures grows { (units : ℕ) (before behind : List Turn) → window_end units before ≤ window_end units (before ++ behind) }
{}

/// A PDU with a CmdSN is ignored just where it lies outside ExpCmdSN to MaxCmdSN as a PDU that went out in the turn before told
/// them: the window by which the session judges is the one that it tells (RFC 7143, 4.2.2.1).
pub fn a_pdu_is_ignored_just_outside_the_window_that_was_told()
    ensures { (m : Setting) (before behind : List Turn) (t u : Turn) → Lawful m (before ++ (t ∷ (u ∷ behind)))
        → IgnoresOutside t.sent u }
{}

/// A command that ended without a call, and that no request for task management dropped, had no R2T: where there is no buffer
/// for its data, BUSY comes before any of it was asked for.
pub fn a_write_that_was_asked_for_its_data_is_called()
    ensures { (m : Setting) (ts : List Turn) → Lawful m ts → AllByRecursion HadNoR2t (tasks m.units ts) }
{}

/// The length that a target announces in a login, as its MaxRecvDataSegmentLength, is the one by which it reads: a PDU of that
/// much data is not too long, and a longer one is (RFC 7143, 13.12).
pub fn the_length_that_is_announced_is_taken()
    ensures announced { own_data_segment ≡ max_data_segment_length }
    ensures taken { (b d : List ℕ) (h : Header) → IsPdu b h d → length d ≤ own_data_segment }
    ensures no_less { (b : List ℕ) → Stands b TooLong → own_data_segment < three_at b 5 }
{}
