//! An iSCSI session over a byte stream, from its login on or in full feature phase (RFC 7143, sections 4 to 7).
//!
//! [`serve_stream`] reads PDUs from a [`Source`], has its [`Target`] begin the session and serve its commands, and writes the
//! answers to a [`Sink`], until the session ends. How it begins is its [`Opening`]. The data of a read goes out in runs of
//! Data-In. All is cut as the [`Lengths`] in force say. Answers of commands that came together leave together. [`Watched`] makes
//! a source or a sink of a reader or writer.
//!
//! The theorem stands on [`serve_stream`]: the bytes that are written spell a legal transcript of the bytes that
//! were read, however they were cut. Which transcripts are legal is said by `session_rules`; here `Transcript` says how one lies
//! over the bytes, `Stream` what one turn of either phase makes, `Inbox` how bytes come, and `Front` what stands at the front of
//! those that wait. `Lawful` of proofs/ has that a transcript stays legal turn by turn. The parts stand below: `session_full_feature` and
//! `session_login` have the two phases, `session_tasks` the writes that wait for data, `session_stream` how bytes leave.
#![tactic(auto)]

mod ahead;
mod examples;
mod front;
mod inbox;
mod phases;
mod stream;
mod watched;

pub use examples::{
    a_nop_out_has_one_legal_answer, a_pdu_of_a_target_has_one_legal_answer,
    a_read_has_one_legal_answer, a_write_has_one_legal_r2t, nothing_comes_behind_a_logout,
};
pub use session_rules::{
    BeginAnswer, End, Lengths, Opening, ResetAnswer, Start, Target, TargetAnswer, TargetRecord,
};
pub use session_stream::{Failed, Sink, Source, Unread};
pub use stream::serve_stream;
pub use watched::Watched;
