//! LUNs: those that name unit 0, and those that name none. There is no other unit.
use crate::tables::Table;
use crate::tables::Table::OneUnit;

/// The tables.
pub fn tables() -> &'static [Table] {
    &[OneUnit(
        "LUNs",
        r#"
INQUIRY of a unit that is not there
> COMMAND 1:C1 8:0002 20:00000001 32:1200000001
< DATA_IN 5:000001 7F
< GOOD 36:00000001

TEST UNIT READY of unit 1
> TEST_UNIT_READY 8:0001
< CHECK_CONDITION 0012700005000000000A00000000250000000000

TEST UNIT READY of a LUN that names no unit
> TEST_UNIT_READY 8:0100
< CHECK_CONDITION 0012700005000000000A00000000250000000000

# Byte 0 of a LUN that names a unit is 00h or 40h (SAM-5, 4.7), byte 1 the unit, and all others are 0.
TEST UNIT READY of unit 0 by flat space addressing
> TEST_UNIT_READY 8:40
< GOOD

TEST UNIT READY of the first LUN behind 255 by flat space addressing
> TEST_UNIT_READY 8:41
< CHECK_CONDITION 0012700005000000000A00000000250000000000

# C1h begins the LUN of a well known logical unit. The array has none.
TEST UNIT READY of a well known logical unit
> TEST_UNIT_READY 8:C1
< CHECK_CONDITION 0012700005000000000A00000000250000000000

TEST UNIT READY of a LUN whose last byte is not 0
> TEST_UNIT_READY 15:01
< CHECK_CONDITION 0012700005000000000A00000000250000000000

# Block 5 of unit 0 stays of zeros.
WRITE (10) of block 5 of unit 5
> COMMAND 1:A1 5:000200 8:0005 20:00000200 32:2A0000000005000001 512*5A
< CHECK_CONDITION 0012700005000000000A00000000250000000000
"#,
    )]
}
