//! The first commands behind a login: their numbers (RFC 7143, 4.2.2 and 11.12.8), and what is none.
use crate::tables::Table;
use crate::tables::Table::Rows;

/// The tables.
pub fn tables() -> &'static [Table] {
    &[Rows(
        "the first commands",
        r#"
the first has the CmdSN of the login, and StatSN goes on
login 1
> LOGIN 7:56 HOST_A
> TEST_UNIT_READY
> TEST_UNIT_READY 24:00000002
< LOGGED_IN 7:36 WELCOME
< GOOD 24:00000002
< GOOD 24:000000030000000300000022
asked begin iqn.2000-01.test:a 400001370000 Normal
asked 0 Ok(TestUnitReady)
asked 0 Ok(TestUnitReady)

behind two requests the first status has StatSN 3
login 1
> LOGIN 1:81 7:43 NAMES
> LOGIN
> TEST_UNIT_READY
< LOGGED_IN 1:81 7:17 14:0000 "TargetPortalGroupTag=1\0"
< LOGGED_IN 7:1F 24:00000002 "MaxRecvDataSegmentLength=65536\0"
< GOOD 24:00000003
asked begin iqn.2000-01.test:a 400001370000 Normal
asked 0 Ok(TestUnitReady)

a login with the CmdSN FFFFFFFFh
login 1
> LOGIN 7:56 24:FFFFFFFF HOST_A
> TEST_UNIT_READY 24:FFFFFFFF
> TEST_UNIT_READY 24:00000000
< LOGGED_IN 7:36 24:00000001FFFFFFFF0000001E WELCOME
< GOOD 24:00000002000000000000001F
< GOOD 24:000000030000000100000020
asked begin iqn.2000-01.test:a 400001370000 Normal
asked 0 Ok(TestUnitReady)
asked 0 Ok(TestUnitReady)

a login with the CmdSN 0
login 1
> LOGIN 7:56 24:00000000 HOST_A
> TEST_UNIT_READY 24:00000000
< LOGGED_IN 7:36 24:00000001000000000000001F WELCOME
< GOOD 24:000000020000000100000020
asked begin iqn.2000-01.test:a 400001370000 Normal
asked 0 Ok(TestUnitReady)

outside the window it is ignored
login 1
> LOGIN 7:56 HOST_A
> TEST_UNIT_READY 24:00000021
> TEST_UNIT_READY 24:00000000
> TEST_UNIT_READY
< LOGGED_IN 7:36 WELCOME
< GOOD 24:00000002
asked begin iqn.2000-01.test:a 400001370000 Normal
asked 0 Ok(TestUnitReady)

inside the window, but not the next, it leaves a gap
login 1
> LOGIN 7:56 HOST_A
> TEST_UNIT_READY 24:00000002
> TEST_UNIT_READY
< LOGGED_IN 7:36 WELCOME
asked begin iqn.2000-01.test:a 400001370000 Normal
end Gap

another Login Request is rejected, as anything a session has not
login 1
> LOGIN 7:56 HOST_A
> LOGIN 7:56 HOST_A
> TEST_UNIT_READY
< LOGGED_IN 7:36 WELCOME
< REJECT 2:04 24:00000002 rejected LOGIN 7:56
asked begin iqn.2000-01.test:a 400001370000 Normal
end Rejected 04 03 00000001

also behind a command, and with the TSIH of the session
login 1
> LOGIN 7:56 HOST_A
> TEST_UNIT_READY
> LOGIN 7:56 14:0001 24:00000002 HOST_A
> TEST_UNIT_READY 24:00000002
< LOGGED_IN 7:36 WELCOME
< GOOD 24:00000002
< REJECT 2:04 24:000000030000000200000021 rejected LOGIN 7:56 14:0001 24:00000002
asked begin iqn.2000-01.test:a 400001370000 Normal
asked 0 Ok(TestUnitReady)
end Rejected 04 03 00000001
"#,
    )]
}
