//! Discovery sessions from their login on (RFC 7143, 4.3, 11.10 and appendix C).
use crate::tables::Table;
use crate::tables::Table::{Alike, Rows};

/// The tables.
pub fn tables() -> &'static [Table] {
    &[
        // Each session answers what it is asked.
        Rows(
            "discovery",
            r#"
SendTargets=All, NOP-Out, and Logout
login 1
each-place
> LOGIN 7:37 "InitiatorName=iqn.2000-01.test:a\0SessionType=Discovery\0"
> TEXT_REQUEST 7:10 "SendTargets=All\0"
> NOP_OUT 7:05 24:00000002 pattern 5
> LOGOUT 24:00000003
> TEXT_REQUEST 7:10 24:00000004 "SendTargets=All\0"
< LOGGED_IN 7:1F "MaxRecvDataSegmentLength=65536\0"
< TEXT_RESPONSE 7:60 24:00000002 THE_TARGET
< NOP_IN 7:05 24:000000030000000300000022 pattern 5
< LOGGED_OUT 24:000000040000000400000023
asked begin iqn.2000-01.test:a 400001370000 Discovery
end LoggedOut

immediate ones take no number
login 1
> LOGIN 7:37 "InitiatorName=iqn.2000-01.test:a\0SessionType=Discovery\0"
> TEXT_REQUEST 0:44 7:10 "SendTargets=All\0"
> NOP_OUT 0:40
> LOGOUT 0:46
< LOGGED_IN 7:1F "MaxRecvDataSegmentLength=65536\0"
< TEXT_RESPONSE 7:60 24:000000020000000100000020 THE_TARGET
< NOP_IN 24:000000030000000100000020
< LOGGED_OUT 24:000000040000000100000020
asked begin iqn.2000-01.test:a 400001370000 Discovery
end LoggedOut

from stage 0 straight to full feature phase
login 1
> LOGIN 1:83 7:47 "InitiatorName=iqn.2000-01.test:a\0SessionType=Discovery\0AuthMethod=None\0"
> TEXT_REQUEST 7:10 "SendTargets=All\0"
< LOGGED_IN 1:83 7:10 "AuthMethod=None\0"
< TEXT_RESPONSE 7:60 24:00000002 THE_TARGET
asked begin iqn.2000-01.test:a 400001370000 Discovery

with the target's name, by a portal of group 2: all portals are told
login 2
> LOGIN 7:59 "InitiatorName=iqn.2000-01.test:a\0SessionType=Discovery\0TargetName=iqn.2000-01.test:array\0"
> TEXT_REQUEST 7:10 "SendTargets=All\0"
< LOGGED_IN 7:1F "MaxRecvDataSegmentLength=65536\0"
< TEXT_RESPONSE 7:60 24:00000002 THE_TARGET
asked begin iqn.2000-01.test:a 400001370000 Discovery

480 bytes of an answer, where the initiator takes 512
login 1
> LOGIN 1:81 7:37 "InitiatorName=iqn.2000-01.test:a\0SessionType=Discovery\0"
> LOGIN 7:1D "MaxRecvDataSegmentLength=512\0"
> TEXT_REQUEST 7:41 5*"SendTargets=\0"
< LOGGED_IN 1:81 14:0000
< LOGGED_IN 7:1F 24:00000002 "MaxRecvDataSegmentLength=65536\0"
< TEXT_RESPONSE 6:01E0 24:00000003 5*THE_TARGET
asked begin iqn.2000-01.test:a 400001370000 Discovery
"#,
        ),
        // In each session one request is rejected with its header segment, which ends the session: what comes behind it is not served.
        Rows(
            "rejected in discovery",
            r#"
576 bytes of an answer, where the initiator takes 512
login 1
> LOGIN 1:81 7:37 "InitiatorName=iqn.2000-01.test:a\0SessionType=Discovery\0"
> LOGIN 7:1D "MaxRecvDataSegmentLength=512\0"
> TEXT_REQUEST 7:4E 6*"SendTargets=\0"
> TEXT_REQUEST 24:00000002
< LOGGED_IN 1:81 14:0000
< LOGGED_IN 7:1F 24:00000002 "MaxRecvDataSegmentLength=65536\0"
< REJECT 2:04 24:00000003 rejected TEXT_REQUEST 7:4E
asked begin iqn.2000-01.test:a 400001370000 Discovery
end Rejected 04 04 00000001

a write, behind SendTargets
login 1
> LOGIN 7:37 "InitiatorName=iqn.2000-01.test:a\0SessionType=Discovery\0"
> TEXT_REQUEST 7:10 "SendTargets=All\0"
> WRITE 24:00000002
< LOGGED_IN 7:1F "MaxRecvDataSegmentLength=65536\0"
< TEXT_RESPONSE 7:60 24:00000002 THE_TARGET
< REJECT 2:04 24:000000030000000200000021 rejected WRITE 24:00000002
asked begin iqn.2000-01.test:a 400001370000 Discovery
end Rejected 04 01 00000001
"#,
        ),
        // The same of what comes first behind the login. Of each its header segment, its opcode, its data segment, and what comes behind.
        Alike(
            "rejected first in discovery",
            r#"
[0]
login 1
> LOGIN 7:37 "InitiatorName=iqn.2000-01.test:a\0SessionType=Discovery\0"
> [1] [3]
[4]
< LOGGED_IN 7:1F "MaxRecvDataSegmentLength=65536\0"
< REJECT 2:04 24:00000002 rejected [1]
asked begin iqn.2000-01.test:a 400001370000 Discovery
end Rejected 04 [2] 00000001
"#,
            r#"
a SCSI Command; TEST_UNIT_READY; 01;; > TEXT_REQUEST 7:10 "SendTargets=All\0"
a LOGICAL UNIT RESET; TASK_REQUEST 1:85; 02;; > TEXT_REQUEST 7:10 "SendTargets=All\0"
another Login Request; LOGIN 7:37; 03; "InitiatorName=iqn.2000-01.test:a\0SessionType=Discovery\0"
"#,
        ),
    ]
}
