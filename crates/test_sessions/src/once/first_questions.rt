//! What an initiator asks first, from bytes to bytes.
use crate::tables::Table;
use crate::tables::Table::OneUnit;

/// The tables.
pub fn tables() -> &'static [Table] {
    &[OneUnit(
        "what an initiator asks first",
        r#"
# The answer's 36 bytes are fewer than the 255 that were expected.
INQUIRY
> COMMAND 1:C1 20:000000FF 32:12000000FF
< DATA_IN 5:000024 000006121F301002 "TWINCTL ALUA DISK       0001"
< GOOD 1:82 36:00000001 44:000000DB

REPORT LUNS of the one unit
> COMMAND 1:C1 20:00000010 32:A0000000000000000010
< DATA_IN 5:000010 00000008000000000000000000000000
< GOOD 36:00000001

# NO SENSE: `--once` takes the session's unit attention of the power on before it serves it.
REQUEST SENSE
> COMMAND 1:C1 20:00000012 32:0300000012
< DATA_IN 5:000012 700000000000000A00000000000000000000
< GOOD 36:00000001

MODE SENSE (6) of all pages
> COMMAND 1:C1 20:00000024 32:1A003F0024
< DATA_IN 5:000024 2300100008120400000000000000000000000000000000000A0A00100000000000000000
< GOOD 36:00000001
"#,
    )]
}
