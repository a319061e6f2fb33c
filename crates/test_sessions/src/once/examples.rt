//! The worked examples of a session.
use crate::tables::Table;
use crate::tables::Table::OneUnit;

/// The tables.
pub fn tables() -> &'static [Table] {
    &[OneUnit(
        "worked examples of a session",
        r#"
# TEST UNIT READY; WRITE (10) of block 5 with 512 bytes 5Ah; READ (10) of it.
three commands
ends
> TEST_UNIT_READY
< GOOD
> COMMAND 1:A1 5:000200 16:00000002000002000000000200000002 32:2A0000000005000001 512*5A
< GOOD 16:00000002 24:000000020000000300000022
written 5 5A
> COMMAND 1:C1 16:00000003000002000000000300000003 32:280000000005000001
< DATA_IN 5:000200 16:00000003 24:000000000000000400000023 512*5A
< GOOD 16:00000003 24:00000003000000040000002300000001

TEST UNIT READY
> TEST_UNIT_READY
< GOOD

# WRITE (10) of block 7, for which 1024 bytes are announced and 512 come: U, and 512 of them are left.
more announced than needed
> COMMAND 1:A1 5:000200 20:00000400 32:2A0000000007000001 512*5A
< GOOD 1:82 44:00000200
written 7 5A

# The same with 256 bytes: O, INVALID FIELD IN CDB, and nothing is written.
less announced than needed
> COMMAND 1:A1 5:000100 20:00000100 32:2A0000000007000001 256*5A
< CHECK_CONDITION 1:84 44:00000100 0012700005000000000A00000000240000000000
"#,
    )]
}
