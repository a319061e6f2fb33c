//! The rules of an iSCSI session (RFC 7143, sections 4 to 7), and the words that they are told in: what passes between an
//! initiator, a session and its [`Target`], and which transcripts of it are legal.
//!
//! Of specs/, `Phases` says what a transcript is and which are legal: `LoginPhase` has the turns of a login, `Turn` and `Legal`
//! those of full feature phase; `Ends` says why a session ends, and `Causes` of which cause. `Asking` says what a target is
//! asked, `Setting` what stays the same in full feature phase, `Standing` what stands behind some turns, `Window` how numbers count,
//! `Verdict` which PDUs are accepted, `Tasks` and `Collecting` how a command gathers its data and is called, `Drops` and
//! `TaskManagement` which are aborted, `Answered`, `Response` and `DataIn` how a command is answered, `Requests` how anything else is.
//! `Words` passes on what is std's and the lower crates'. What follows for an initiator is stated by the functions without a body, in
//! `laws`.
#![tactic(auto)]

mod end;
mod examples;
mod laws;
mod lengths;
mod login_outcome;
mod opening;
mod start;
mod target;
mod target_record;
mod task_function;
mod text;
mod verdict;
mod window;

pub use end::{End, refusal_end, reject_end};
pub use examples::a_nop_out_in_a_login_has_one_legal_answer;
pub use laws::{
    a_pdu_is_ignored_just_outside_the_window_that_was_told, a_read_gets_the_data_of_its_answer,
    a_write_that_was_asked_for_its_data_is_called, no_command_is_answered_twice,
    status_numbers_are_consecutive, status_numbers_count_on_behind_a_login,
    the_length_that_is_announced_is_taken, the_window_never_falls,
};
pub use lengths::Lengths;
pub use login_outcome::LoginOutcome;
pub use opening::Opening;
pub use start::Start;
pub use target::{BeginAnswer, ResetAnswer, Target, TargetAnswer};
pub use target_record::TargetRecord;
pub use task_function::{ManagementOutcome, TaskFunction};
pub use text::LONGEST_TEXT;
pub use verdict::{
    COMMAND_NOT_SUPPORTED, INVALID_PDU_FIELD, PROTOCOL_ERROR, RESERVED_TAG, Verdict, reject_reason,
};
pub use window::{WINDOW, Window, next_exp_cmd_sn, next_transfer_tag, target_numbers};
