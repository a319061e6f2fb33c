//! What the two halves of a turn hand to each other: what is to be written, and what the target is asked.
ghost use Rattle.std.specs.Prelude.{◌≡◌};
ghost use Rattle.session_full_feature.specs.Step.{call_data, end_of, said};

use iscsi_pdu::{BHS_LENGTH, ScsiCommand, TaskManagementRequest};
use scsi_types::Asked;
use session_rules::{End, reject_end};
use session_stream::Pdus;

/// What a PDU calls for.
#[derive(Drop)]
pub enum Actions<'a> {
    /// That these PDUs are written.
    Send(Sending<'a>),
    /// That the target is called; its answer goes back to the session.
    Call(Call<'a>),
}

/// What a PDU or an answer of the target has written: PDUs, then perhaps the end.
#[derive(Clone, Copy)]
pub struct Sending<'a> {
    /// PDUs to write first.
    pub pdus: Pdus<'a>,
    /// How the session ends once these PDUs are written, if it does. A Reject ends it whatever stands here.
    pub end: Option<End>,
}

impl Sending<'_> {
    /// The end that this calls for, where the PDU that came has this basic header segment.
    pub fn end_behind(&self, bhs: &[u8; BHS_LENGTH]) -> Option<End>
        ensures { result ≡ end_of bhs.now (said self.now) }
    {
        match self.pdus {
            Pdus::Reject(reject) => Some(reject_end(reject.reason, bhs)),
            Pdus::Nothing | Pdus::R2t(_) | Pdus::Response(_) | Pdus::Answer { .. } => self.end,
        }
    }
}

/// A call of the target.
#[derive(Drop)]
pub enum Call<'a> {
    /// To serve a command; the answer goes to [`Session::on_answer`](crate::Session::on_answer).
    Serve(ServeCall<'a>),
    /// To reset a unit; the answer goes to [`Session::on_reset`](crate::Session::on_reset).
    Reset(ResetCall),
}

/// A unit that is there and that the target is to reset, and the request for it.
#[derive(Clone, Copy)]
pub struct ResetCall {
    pub request: TaskManagementRequest,
    pub unit: u8,
}

/// A command that the target is to serve, as [`Target::serve`](crate::Target::serve) takes it.
#[derive(Drop)]
pub struct ServeCall<'a> {
    /// What the answer is given back with.
    pub task: OpenTask,
    /// The unit that the LUN names, if it names one (SAM-5, 4.7).
    pub unit: Option<u8>,
    /// What the CDB asks for.
    pub asked: Asked,
    /// The data of a write: as many bytes as it needs and the initiator expects to send.
    pub bytes: CommandData<'a>,
}

/// The data of a write.
#[derive(Drop)]
pub enum CommandData<'a> {
    /// It came with the command.
    Came(&'a [u8]),
    /// It was gathered from several PDUs.
    Gathered(Vec<u8>),
}

impl CommandData<'_> {
    /// The bytes.
    pub fn bytes(&self) -> &[u8]
        ensures { result.now ≡ call_data self.now }
    {
        match self {
            CommandData::Came(bytes) => bytes,
            CommandData::Gathered(bytes) => bytes,
        }
    }
}

/// An accepted command, until it is answered.
#[derive(Clone, Copy)]
pub struct OpenTask {
    /// Its header.
    pub command: ScsiCommand,
    /// How many bytes of data it needs from its initiator.
    pub need: u32,
}
