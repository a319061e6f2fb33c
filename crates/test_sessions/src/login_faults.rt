//! What is rejected in a login (RFC 7143, 7.3 and 11.17.1): 05 for an opcode that no PDU of an initiator has, 09 for
//! another fault.
use crate::tables::Table;
use crate::tables::Table::{Alike, Rows};

// Of each fault the PDU, the reason, and its opcode.
const FAULTS: &str = r"
an opcode that no PDU has; LOGIN 0:07; 05; 07
another, of those of a target; LOGIN 0:3E; 05; 3E
a PDU of a target; GOOD; 05; 21
a Login Response; LOGGED_IN; 05; 23
a PDU of a target with a reserved field that is not zero; GOOD 8:01; 09; 21
an additional header segment; LOGIN 4:01; 09; 03
a data segment of 65537 bytes; LOGIN 5:010001; 09; 03
an additional header segment and 65537 bytes, of a NOP-Out; NOP_OUT 4:01010001; 09; 00
a SCSI Command without F; TEST_UNIT_READY 1:01; 09; 01
a SCSI Command with R and W; TEST_UNIT_READY 1:E1; 09; 01
";

/// The tables.
pub fn tables() -> &'static [Table] {
    &[
        // In place of the first Login Request: ExpCmdSN is 0.
        Alike(
            "a fault first",
            r"
[0]
login 1
> [1]
> LOGIN 7:56 HOST_A
< REJECT 2:[2] 24:00000001000000000000001F rejected [1]
end Rejected [2] [3] 00000001
",
            FAULTS,
        ),
        // Behind a Login Request: ExpCmdSN is its CmdSN.
        Alike(
            "a fault behind a request",
            r#"
[0]
login 1
> LOGIN 1:81 7:43 NAMES
> [1]
> LOGIN 7:56 HOST_A
< LOGGED_IN 1:81 7:17 14:0000 "TargetPortalGroupTag=1\0"
< REJECT 2:[2] 24:00000002 rejected [1]
end Rejected [2] [3] 00000001
"#,
            FAULTS,
        ),
        // The same with another CmdSN.
        Rows(
            "numbers of a fault",
            r#"
its numbers are those of the Login Request
login 1
> LOGIN 1:81 7:43 24:FFFFFFFE NAMES
> LOGIN 0:07
> LOGIN 7:56 HOST_A
< LOGGED_IN 1:81 7:17 14:0000 24:00000001FFFFFFFE0000001D "TargetPortalGroupTag=1\0"
< REJECT 2:05 24:00000002FFFFFFFE0000001D rejected LOGIN 0:07
end Rejected 05 07 00000001
"#,
        ),
    ]
}
