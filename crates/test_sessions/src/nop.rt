//! NOP-Out and NOP-In (RFC 7143, 11.18 and 11.19).
use crate::tables::Table;
use crate::tables::Table::Rows;

/// The tables.
pub fn tables() -> &'static [Table] {
    &[Rows(
        "nop out",
        r"
its data comes back, with its LUN and its tag
> NOP_OUT 7:05 8:4007 16:01020304 20:09090909 pattern 5
< NOP_IN 7:05 8:4007 16:01020304 pattern 5

of 8196 bytes 8192 come back
> NOP_OUT 6:2004 pattern 8196
< NOP_IN 6:2000 pattern 8192

an immediate one takes no number, and a StatSN
> NOP_OUT 0:40
> TEST_UNIT_READY
< NOP_IN 24:000000010000000100000020
< GOOD 24:00000002
asked 0 Ok(TestUnitReady)

a numbered one takes its number
> NOP_OUT
> TEST_UNIT_READY 24:00000002
< NOP_IN
< GOOD 24:000000020000000300000022
asked 0 Ok(TestUnitReady)

with the reserved tag there is no answer, and no StatSN is used
> NOP_OUT 0:40 16:FFFFFFFF
> TEST_UNIT_READY
< GOOD
asked 0 Ok(TestUnitReady)

with the reserved tag, but numbered, it takes its number
> NOP_OUT 16:FFFFFFFF
> TEST_UNIT_READY 24:00000002
< GOOD 24:000000010000000300000022
asked 0 Ok(TestUnitReady)

outside the window it is ignored
> NOP_OUT 24:00000021
> TEST_UNIT_READY
< GOOD
asked 0 Ok(TestUnitReady)

inside the window, but not the next, it leaves a gap
> NOP_OUT 24:00000002
> TEST_UNIT_READY
end Gap
",
    )]
}
