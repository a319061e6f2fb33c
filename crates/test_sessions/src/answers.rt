//! What a target answers, on the wire (RFC 7143, 11.4).
use crate::tables::Table;
use crate::tables::Table::Rows;

/// The tables.
pub fn tables() -> &'static [Table] {
    &[Rows(
        "answers of a target",
        r"
# READ (10) of block 5, of which 512 bytes are expected. The status BUSY (SAM-5, 5.3.1); none of them came.
busy
answer busy
> COMMAND 1:C1 20:00000200 32:28000000000500000100
< GOOD 1:820008 44:00000200
asked 0 Ok(Read { lba: 5, blocks: 1, fua: false })

gone: no answer, and no second command
answer gone
> TEST_UNIT_READY
> TEST_UNIT_READY
asked 0 Ok(TestUnitReady)
end Reinstated

# INVALID FIELD IN CDB, to a LUN that names no unit: its byte 2 is not 0.
sense
answer check 052400
> TEST_UNIT_READY 10:01
< CHECK_CONDITION 0012700005000000000A00000000240000000000
asked - Ok(TestUnitReady)
",
    )]
}
