//! PDUs of an initiator that are no Login Requests, in a login (RFC 7143, 11.13.5): 020B.
use crate::tables::Table;
use crate::tables::Table::{Alike, Rows};

// Each PDU, and whether it is cut in two at each place. The task management request is LOGICAL UNIT RESET of LUN 0.
const OTHERS: &str = r#"
a NOP-Out; NOP_OUT 16:0A0B0C0D; each-place
a SCSI Command; TEST_UNIT_READY 16:0A0B0C0D
a write with its data; WRITE 6:0200 16:0A0B0C0D pattern 512
a task management request; TASK_REQUEST 1:85 16:0A0B0C0D 20:FFFFFFFF
a Text Request; TEXT_REQUEST 7:10 16:0A0B0C0D "SendTargets=All\0"
a Data-Out; DATA_OUT 6:0200 16:0A0B0C0D pattern 512
a Logout; LOGOUT 16:0A0B0C0D
"#;

/// The tables.
pub fn tables() -> &'static [Table] {
    &[
        // In place of the first Login Request: ExpCmdSN is 0. The response has the tag that came, and no other field of it.
        Alike(
            "another pdu first",
            r"
[0]
login 1
[2]
> [1]
> LOGIN 7:56 HOST_A
< NOT_IN_LOGIN 16:0A0B0C0D
end LoginRefused 020B
",
            OTHERS,
        ),
        // Behind a Login Request: ExpCmdSN is its CmdSN.
        Alike(
            "another pdu behind a request",
            r#"
[0]
login 1
[2]
> LOGIN 1:81 7:43 NAMES
> [1]
> LOGIN 7:56 HOST_A
< LOGGED_IN 1:81 7:17 14:0000 "TargetPortalGroupTag=1\0"
< NOT_IN_LOGIN 16:0A0B0C0D 24:000000020000000100000020
end LoginRefused 020B
"#,
            OTHERS,
        ),
        // Two more in place of the first, and two behind one.
        Rows(
            "other pdus",
            r#"
a NOP-Out of the reserved tag, in place of an answer
login 1
> NOP_OUT 0:40 16:FFFFFFFF
> LOGIN 7:56 HOST_A
< NOT_IN_LOGIN 16:FFFFFFFF
end LoginRefused 020B

a command with a CmdSN: ExpCmdSN is 0 all the same
login 1
> TEST_UNIT_READY 16:0A0B0C0D 24:0000004D
> LOGIN 7:56 HOST_A
< NOT_IN_LOGIN 16:0A0B0C0D
end LoginRefused 020B

the CmdSN is that of the Login Request
login 1
> LOGIN 1:81 7:43 24:FFFFFFFE NAMES
> TEST_UNIT_READY 16:0A0B0C0D 24:0000004D
> LOGIN 7:56 HOST_A
< LOGGED_IN 1:81 7:17 14:0000 24:00000001FFFFFFFE0000001D "TargetPortalGroupTag=1\0"
< NOT_IN_LOGIN 16:0A0B0C0D 24:00000002FFFFFFFE0000001D
end LoginRefused 020B

in the middle of a text
login 1
> LOGIN 1:44 7:19 "InitiatorName=iqn.2000-01"
> LOGOUT 16:0A0B0C0D
> LOGIN 7:56 HOST_A
< LOGGED_IN 1:04 14:0000
< NOT_IN_LOGIN 16:0A0B0C0D 24:000000020000000100000020
end LoginRefused 020B
"#,
        ),
    ]
}
