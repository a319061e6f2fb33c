//! The command window (RFC 7143, 4.2.2.1).
use crate::tables::Table;
use crate::tables::Table::Rows;

/// The tables.
pub fn tables() -> &'static [Table] {
    &[Rows(
        "the window",
        r"
TEST UNIT READY
> TEST_UNIT_READY
< GOOD
asked 0 Ok(TestUnitReady)

CmdSN 0 is behind the window
> TEST_UNIT_READY 24:00000000

CmdSN FFFFFFFFh is behind the window
> TEST_UNIT_READY 24:FFFFFFFF

CmdSN 2 leaves a gap
> TEST_UNIT_READY 24:00000002
end Gap

CmdSN 3 leaves a gap
> TEST_UNIT_READY 24:00000003
end Gap

CmdSN 32, the last of the window, leaves a gap
> TEST_UNIT_READY 24:00000020
end Gap

CmdSN 33 is ahead of the window
> TEST_UNIT_READY 24:00000021

the command behind an ignored one is served
> TEST_UNIT_READY 24:00000000
> TEST_UNIT_READY
< GOOD
asked 0 Ok(TestUnitReady)

# StatSN FFFFFFFFh, ExpCmdSN 0 and MaxCmdSN 31; then StatSN 0, ExpCmdSN 1 and MaxCmdSN 32.
numbers wrap round
ExpCmdSN FFFFFFFF
StatSN FFFFFFFF
> TEST_UNIT_READY 24:FFFFFFFF
> TEST_UNIT_READY 24:00000000
< GOOD 24:FFFFFFFF000000000000001F
< GOOD 24:000000000000000100000020
asked 0 Ok(TestUnitReady)
asked 0 Ok(TestUnitReady)

an immediate command takes no number
> TEST_UNIT_READY 0:41 24:00000007
> TEST_UNIT_READY
< GOOD 24:000000010000000100000020
< GOOD 24:000000020000000200000021
asked 0 Ok(TestUnitReady)
asked 0 Ok(TestUnitReady)
",
    )]
}
