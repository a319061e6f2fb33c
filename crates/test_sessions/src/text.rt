//! Text Requests and discovery sessions (RFC 7143, 11.10, 11.11 and 4.3).
use crate::tables::Table;
use crate::tables::Table::Rows;

/// The tables.
pub fn tables() -> &'static [Table] {
    &[
        Rows(
            "text",
            r#"
SendTargets=All in a discovery session
discovery
> TEXT_REQUEST 6:0010 "SendTargets=All\0"
< TEXT_RESPONSE 7:60 THE_TARGET

SendTargets with the empty text in a discovery session
discovery
> TEXT_REQUEST 6:000D "SendTargets=\0"
< TEXT_RESPONSE 7:60 THE_TARGET

SendTargets with the empty text in a normal session
> TEXT_REQUEST 6:000D "SendTargets=\0"
< TEXT_RESPONSE 7:60 THE_TARGET

SendTargets with the target's name in a normal session
> TEXT_REQUEST 6:0023 "SendTargets=iqn.2000-01.test:array\0"
< TEXT_RESPONSE 7:60 THE_TARGET

SendTargets=All in a normal session
> TEXT_REQUEST 6:0010 "SendTargets=All\0"
< TEXT_RESPONSE 7:13 "SendTargets=Reject\0"

SendTargets=All in a normal session, behind its login
login 1
> LOGIN 7:56 HOST_A
> TEXT_REQUEST 7:10 "SendTargets=All\0"
< LOGGED_IN 7:36 WELCOME
< TEXT_RESPONSE 7:13 24:00000002 "SendTargets=Reject\0"
asked begin iqn.2000-01.test:a 400001370000 Normal

SendTargets with another name has no pairs
> TEXT_REQUEST 6:001F "SendTargets=iqn.2000-01.test:b\0"
< TEXT_RESPONSE 7:00

a key of a login, and one that nobody knows
> TEXT_REQUEST 6:0018 "HeaderDigest=None\0X-a=1\0"
< TEXT_RESPONSE 7:26 "HeaderDigest=Reject\0X-a=NotUnderstood\0"

no text, behind which a command is served; immediate, it takes no number
> TEXT_REQUEST 0:44
> TEST_UNIT_READY
< TEXT_RESPONSE 24:000000010000000100000020
< GOOD 24:00000002
asked 0 Ok(TestUnitReady)

outside the window it is ignored, whatever it has
> TEXT_REQUEST 1:40 24:00000000
> TEST_UNIT_READY
< GOOD
asked 0 Ok(TestUnitReady)

inside the window, but not the next, it leaves a gap, whatever it has
> TEXT_REQUEST 1:40 24:00000002
end Gap

a command in a discovery session, outside the window
discovery
> TEST_UNIT_READY 24:00000000

64 pairs
> TEXT_REQUEST 7:C0 64*"a=\0"
< TEXT_RESPONSE 6:0400 64*"a=NotUnderstood\0"

# One answer has 158 bytes.
an answer of 8216 bytes, where the initiator takes as many
MaxRecvDataSegmentLength 8216
portals 3
> TEXT_REQUEST 6:02A4 52*"SendTargets=\0"
< TEXT_RESPONSE 6:2018 52*TOLD_OF_FOUR
"#,
        ),
        // Each is rejected with its header segment, and ends the session.
        Rows(
            "refused in text and discovery",
            r#"
without F
> TEXT_REQUEST 1:00 6:0000
> TEXT_REQUEST 24:00000002
< REJECT 2:04 rejected TEXT_REQUEST 1:00 6:0000
end Rejected 04 04 00000001

with C
discovery
> TEXT_REQUEST 1:C0 6:0010 "SendTargets=All\0"
> TEXT_REQUEST 24:00000002
< REJECT 2:04 rejected TEXT_REQUEST 1:C0 6:0010
end Rejected 04 04 00000001

with a Target Transfer Tag
> TEXT_REQUEST 20:00000001 6:0000
> TEXT_REQUEST 24:00000002
< REJECT 2:04 rejected TEXT_REQUEST 20:00000001 6:0000
end Rejected 04 04 00000001

a pair without its zero byte
> TEXT_REQUEST 6:000F "SendTargets=All"
> TEXT_REQUEST 24:00000002
< REJECT 2:04 rejected TEXT_REQUEST 6:000F
end Rejected 04 04 00000001

a pair without =
> TEXT_REQUEST 6:000C "SendTargets\0"
> TEXT_REQUEST 24:00000002
< REJECT 2:04 rejected TEXT_REQUEST 6:000C
end Rejected 04 04 00000001

an empty key
> TEXT_REQUEST 6:0005 "=All\0"
> TEXT_REQUEST 24:00000002
< REJECT 2:04 rejected TEXT_REQUEST 6:0005
end Rejected 04 04 00000001

an empty pair
> TEXT_REQUEST 6:0001 "\0"
> TEXT_REQUEST 24:00000002
< REJECT 2:04 rejected TEXT_REQUEST 6:0001
end Rejected 04 04 00000001

a command in a discovery session
discovery
> TEST_UNIT_READY
< REJECT 2:04 rejected TEST_UNIT_READY
end Rejected 04 01 00000001

LOGICAL UNIT RESET in a discovery session
discovery
> TASK_REQUEST 1:85
< REJECT 2:04 rejected TASK_REQUEST 1:85
end Rejected 04 02 00000001

65 pairs
> TEXT_REQUEST 6:00C3 65*"a=\0"
> TEXT_REQUEST 24:00000002
< REJECT 2:04 rejected TEXT_REQUEST 6:00C3
end Rejected 04 04 00000001

an answer of 8216 bytes, where the initiator takes 8192
portals 3
> TEXT_REQUEST 6:02A4 52*"SendTargets=\0"
< REJECT 2:04 rejected TEXT_REQUEST 6:02A4
end Rejected 04 04 00000001

an answer of 8216 bytes, where the initiator takes 8215
MaxRecvDataSegmentLength 8215
portals 3
> TEXT_REQUEST 6:02A4 52*"SendTargets=\0"
< REJECT 2:04 rejected TEXT_REQUEST 6:02A4
end Rejected 04 04 00000001
"#,
        ),
    ]
}
