//! What the fields of a basic header segment say (RFC 7143, section 11).
//!
//! `immediate` is the I bit (11.2.1.1), `last` the F bit and `continues` the C bit; `task_tag` is the Initiator Task
//! Tag and `transfer_tag` the Target Transfer Tag.

/// The two numbers of an initiator's PDU (RFC 7143, 11.3.2 and 11.3.3).
#[derive(Clone, Copy)]
pub struct CommandNumbers {
    pub cmd_sn: u32,
    pub exp_stat_sn: u32,
}

/// The three numbers of a target's PDU (RFC 7143, 11.4.9 to 11.4.11).
#[derive(Clone, Copy)]
pub struct Numbers {
    pub stat_sn: u32,
    pub exp_cmd_sn: u32,
    pub max_cmd_sn: u32,
}

/// The header of a NOP-Out (RFC 7143, 11.18).
#[derive(Clone, Copy)]
pub struct NopOut {
    pub immediate: bool,
    pub lun: [u8; 8],
    pub task_tag: u32,
    pub transfer_tag: u32,
    pub numbers: CommandNumbers,
}

/// The header of a SCSI Command (RFC 7143, 11.3), which has F, and not both R and W.
#[derive(Clone, Copy)]
pub struct ScsiCommand {
    pub immediate: bool,
    pub read: bool,
    pub write: bool,
    /// The task attribute, of 3 bits, which is not looked at.
    pub attribute: u8,
    pub lun: [u8; 8],
    pub task_tag: u32,
    /// The Expected Data Transfer Length in bytes.
    pub expected_length: u32,
    pub numbers: CommandNumbers,
    pub cdb: [u8; 16],
}

/// The header of a Task Management Function Request (RFC 7143, 11.5).
#[derive(Clone, Copy)]
pub struct TaskManagementRequest {
    pub immediate: bool,
    /// The function, of 7 bits.
    pub function: u8,
    pub lun: [u8; 8],
    pub task_tag: u32,
    /// The Referenced Task Tag.
    pub referenced_tag: u32,
    pub numbers: CommandNumbers,
    pub ref_cmd_sn: u32,
}

/// The header of a Login Request (RFC 7143, 11.12), which is always immediate.
#[derive(Clone, Copy)]
pub struct LoginRequest {
    /// The T bit.
    pub transit: bool,
    pub continues: bool,
    /// CSG, of 2 bits.
    pub current_stage: u8,
    /// NSG, of 2 bits.
    pub next_stage: u8,
    pub version_max: u8,
    pub version_min: u8,
    pub isid: [u8; 6],
    pub tsih: u16,
    pub task_tag: u32,
    /// The connection's identifier.
    pub cid: u16,
    pub numbers: CommandNumbers,
}

/// The header of a Text Request (RFC 7143, 11.10).
#[derive(Clone, Copy)]
pub struct TextRequest {
    pub immediate: bool,
    pub last: bool,
    pub continues: bool,
    pub lun: [u8; 8],
    pub task_tag: u32,
    pub transfer_tag: u32,
    pub numbers: CommandNumbers,
}

/// The header of a SCSI Data-Out (RFC 7143, 11.7).
#[derive(Clone, Copy)]
pub struct DataOut {
    pub last: bool,
    pub lun: [u8; 8],
    pub task_tag: u32,
    pub transfer_tag: u32,
    pub exp_stat_sn: u32,
    pub data_sn: u32,
    /// The Buffer Offset in bytes.
    pub offset: u32,
}

/// The header of a Logout Request (RFC 7143, 11.14).
#[derive(Clone, Copy)]
pub struct LogoutRequest {
    pub immediate: bool,
    /// The reason, of 7 bits.
    pub reason: u8,
    pub task_tag: u32,
    /// The connection's identifier.
    pub cid: u16,
    pub numbers: CommandNumbers,
}

/// The header of an initiator's PDU.
#[derive(Clone, Copy)]
pub enum InitiatorHeader {
    NopOut(NopOut),
    ScsiCommand(ScsiCommand),
    TaskManagementRequest(TaskManagementRequest),
    LoginRequest(LoginRequest),
    TextRequest(TextRequest),
    DataOut(DataOut),
    LogoutRequest(LogoutRequest),
}

/// The header of a NOP-In (RFC 7143, 11.19).
#[derive(Clone, Copy)]
pub struct NopIn {
    pub lun: [u8; 8],
    pub task_tag: u32,
    pub transfer_tag: u32,
    pub numbers: Numbers,
}

/// The header of a SCSI Response (RFC 7143, 11.4).
#[derive(Clone, Copy)]
pub struct ScsiResponse {
    /// The residual is what did not fit.
    pub overflow: bool,
    /// The residual is what was not needed.
    pub underflow: bool,
    pub response: u8,
    pub status: u8,
    pub task_tag: u32,
    pub numbers: Numbers,
    pub exp_data_sn: u32,
    /// The Residual Count in bytes.
    pub residual: u32,
}

/// The header of a Task Management Function Response (RFC 7143, 11.6).
#[derive(Clone, Copy)]
pub struct TaskManagementResponse {
    pub response: u8,
    pub task_tag: u32,
    pub numbers: Numbers,
}

/// The header of a Login Response (RFC 7143, 11.13), whose versions are 0.
#[derive(Clone, Copy)]
pub struct LoginResponse {
    /// The T bit.
    pub transit: bool,
    pub continues: bool,
    /// CSG, of 2 bits.
    pub current_stage: u8,
    /// NSG, of 2 bits.
    pub next_stage: u8,
    pub isid: [u8; 6],
    pub tsih: u16,
    pub task_tag: u32,
    pub numbers: Numbers,
    pub status_class: u8,
    pub status_detail: u8,
}

/// The header of a Text Response (RFC 7143, 11.11), which has F and not C.
#[derive(Clone, Copy)]
pub struct TextResponse {
    pub task_tag: u32,
    pub transfer_tag: u32,
    pub numbers: Numbers,
}

/// The header of a SCSI Data-In (RFC 7143, 11.7).
#[derive(Clone, Copy)]
pub struct DataIn {
    pub last: bool,
    pub task_tag: u32,
    pub transfer_tag: u32,
    pub numbers: Numbers,
    pub data_sn: u32,
    /// The Buffer Offset in bytes.
    pub offset: u32,
}

/// The header of a Logout Response (RFC 7143, 11.15).
#[derive(Clone, Copy)]
pub struct LogoutResponse {
    pub response: u8,
    pub task_tag: u32,
    pub numbers: Numbers,
    /// Time2Wait in seconds.
    pub time_to_wait: u16,
    /// Time2Retain in seconds.
    pub time_to_retain: u16,
}

/// The header of an R2T (RFC 7143, 11.8).
#[derive(Clone, Copy)]
pub struct R2t {
    pub lun: [u8; 8],
    pub task_tag: u32,
    pub transfer_tag: u32,
    pub numbers: Numbers,
    pub r2t_sn: u32,
    /// The Buffer Offset in bytes.
    pub offset: u32,
    /// The Desired Data Transfer Length in bytes.
    pub desired_length: u32,
}

/// The header of a Reject (RFC 7143, 11.17), whose Initiator Task Tag is FFFFFFFFh.
#[derive(Clone, Copy)]
pub struct Reject {
    pub reason: u8,
    pub numbers: Numbers,
}

/// The header of a target's PDU.
#[derive(Clone, Copy)]
pub enum TargetHeader {
    NopIn(NopIn),
    ScsiResponse(ScsiResponse),
    TaskManagementResponse(TaskManagementResponse),
    LoginResponse(LoginResponse),
    TextResponse(TextResponse),
    DataIn(DataIn),
    LogoutResponse(LogoutResponse),
    R2t(R2t),
    Reject(Reject),
}

/// The header of a PDU.
#[derive(Clone, Copy)]
pub enum Header {
    Initiator(InitiatorHeader),
    Target(TargetHeader),
}

/// A PDU: its header, and its data segment without padding.
#[derive(Clone, Copy)]
pub struct Pdu<'a> {
    pub header: Header,
    pub data: &'a [u8],
}
