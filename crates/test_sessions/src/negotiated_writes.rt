//! What comes in by the lengths that a login negotiated (RFC 7143, 13.10, 13.11, 13.13 and 13.14).
use crate::tables::Table;
use crate::tables::Table::Rows;

/// The tables.
pub fn tables() -> &'static [Table] {
    &[Rows(
        "writes by negotiated lengths",
        r#"
a write in R2Ts of MaxBurstLength
login 1
> LOGIN 7:57 NAMES "MaxBurstLength=1024\0"
> WRITE 20:00000600 32:2A0000000005000003
> DATA_OUT 6:0400 pattern 1024
> DATA_OUT 6:0200 20:00000001 40:00000400 pattern 1024+512
< LOGGED_IN 7:4A WELCOME "MaxBurstLength=1024\0"
< R2T 24:00000002 44:00000400
< R2T 20:00000001 24:00000002 36:000000010000040000000200
< GOOD 24:00000002
asked begin iqn.2000-01.test:a 400001370000 Normal
asked 0 Ok(Write { lba: 5, blocks: 3, fua: false })
given pattern 1536

ImmediateData=No: data with a command is rejected
login 1
> LOGIN 7:54 NAMES "ImmediateData=No\0"
> WRITE 6:0200 pattern 512
> TEST_UNIT_READY
< LOGGED_IN 7:47 WELCOME "ImmediateData=No\0"
< REJECT 2:04 24:00000002 rejected WRITE 6:0200
asked begin iqn.2000-01.test:a 400001370000 Normal
end Rejected 04 01 00000001

ImmediateData=No: all data comes by R2T
login 1
> LOGIN 7:54 NAMES "ImmediateData=No\0"
> WRITE
> DATA_OUT 6:0200 pattern 512
< LOGGED_IN 7:47 WELCOME "ImmediateData=No\0"
< R2T 24:00000002
< GOOD 24:00000002
asked begin iqn.2000-01.test:a 400001370000 Normal
asked 0 Ok(Write { lba: 5, blocks: 1, fua: false })
given pattern 512

FirstBurstLength=512: that much comes with a command, and the rest by R2T
login 1
> LOGIN 7:58 NAMES "FirstBurstLength=512\0"
> WRITE 6:0200 20:00000600 32:2A0000000005000003 pattern 512
> DATA_OUT 6:0400 40:00000200 pattern 512+1024
< LOGGED_IN 7:4B WELCOME "FirstBurstLength=512\0"
< R2T 24:00000002 40:0000020000000400
< GOOD 24:00000002
asked begin iqn.2000-01.test:a 400001370000 Normal
asked 0 Ok(Write { lba: 5, blocks: 3, fua: false })
given pattern 1536

FirstBurstLength=512: more with a command is rejected
login 1
> LOGIN 7:58 NAMES "FirstBurstLength=512\0"
> WRITE 6:0204 20:00000600 32:2A0000000005000003 pattern 516
> TEST_UNIT_READY
< LOGGED_IN 7:4B WELCOME "FirstBurstLength=512\0"
< REJECT 2:04 24:00000002 rejected WRITE 6:0204 20:00000600 32:2A0000000005000003
asked begin iqn.2000-01.test:a 400001370000 Normal
end Rejected 04 01 00000001
"#,
    )]
}
