//! What tests over streams of bytes share: a reader and a writer that do as they are told, PDUs as lines of text, and the
//! connection of an initiator; and how a call fails that finds something else than it wants (`wanted`).
#![tactic(auto)]

mod calls;
mod digits;
mod forms;
mod host;
mod lines;
mod named;
mod row_error;
mod texts;
mod wanted;

pub use calls::{Calls, FakeReader, FakeWriter, ONE_BYTE, WHOLE};
pub use forms::filled;
pub use host::{Host, is_text, put_number};
pub use lines::{Texts, bytes_of, lines_of, pdu_of};
pub use row_error::RowError;
pub use texts::{HOST_A, LIBISCSI_AGREED, LIBISCSI_OFFERS, THE_TARGET, WELCOME, host_texts};
pub use wanted::{want, want_at};
