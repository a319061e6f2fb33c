//! What goes out by the lengths that a login negotiated (RFC 7143, 13.12 and 13.13).
use crate::tables::Table;
use crate::tables::Table::{Alike, Rows};

/// The tables.
pub fn tables() -> &'static [Table] {
    &[
        // A read of three blocks in Data-In of 512 bytes, in runs of 1024. Of each login by which it goes so what it is answered, the
        // StatSN behind it, and its second request and response.
        Alike(
            "reads by negotiated lengths",
            r"
[0]
login 1
answer good pattern 1536
> LOGIN [1]
[4]
> COMMAND 1:C1 20:00000600 32:280000000005000003
< LOGGED_IN [2]
[5]
< DATA_IN 1:00 6:0200 pattern 512
< DATA_IN 6:0200 36:0000000100000200 pattern 512+512
< DATA_IN 6:0200 36:0000000200000400 pattern 1024+512
< GOOD 24:[3] 36:00000003
asked begin iqn.2000-01.test:a 400001370000 Normal
asked 0 Ok(Read { lba: 5, blocks: 3, fua: false })
",
            r#"
a read in Data-In of MaxRecvDataSegmentLength, in runs of MaxBurstLength;
  7:74 NAMES "MaxRecvDataSegmentLength=512\0MaxBurstLength=1024\0"; 7:4A WELCOME "MaxBurstLength=1024\0"; 00000002
the same, declared in stage 0 on the way to full feature phase;
  1:83 7:77 NAMES "MaxRecvDataSegmentLength=0x200\0MaxBurstLength=0X400\0";
  1:83 7:2B "TargetPortalGroupTag=1\0MaxBurstLength=1024\0"; 00000002
the lengths of stage 0 and of stage 1, behind the names again; 1:81 7:7A HOST_A "MaxBurstLength=1024\0AuthMethod=None\0";
  1:81 7:3B 14:0000 "TargetPortalGroupTag=1\0MaxBurstLength=1024\0AuthMethod=None\0"; 00000003;
  > LOGIN 7:81 HOST_A "MaxRecvDataSegmentLength=512\0InitialR2T=No\0";
  < LOGGED_IN 7:2E 24:00000002 "MaxRecvDataSegmentLength=65536\0InitialR2T=Yes\0"
"#,
        ),
        // The same read in one Data-In, where no length is in force: each login by which it goes so, and what it is answered.
        Alike(
            "reads by the usual lengths",
            r"
[0]
login 1
answer good pattern 1536
> LOGIN [1]
> COMMAND 1:C1 20:00000600 32:280000000005000003
< LOGGED_IN [2]
< DATA_IN 6:0600 pattern 1536
< GOOD 24:00000002 36:00000001
asked begin iqn.2000-01.test:a 400001370000 Normal
asked 0 Ok(Read { lba: 5, blocks: 3, fua: false })
",
            r#"
a read in one Data-In, where no length was negotiated; 7:56 HOST_A; 7:36 WELCOME
lengths out of their ranges are rejected, and those where nothing is negotiated are in force;
  7:8C NAMES "MaxRecvDataSegmentLength=511\0MaxBurstLength=16777216\0FirstBurstLength=-1\0";
  7:84 WELCOME "MaxRecvDataSegmentLength=Reject\0MaxBurstLength=Reject\0FirstBurstLength=Reject\0"
"#,
        ),
        // The longest Data-In, and a NOP-In.
        Rows(
            "the longest Data-In and a NOP-In",
            r#"
a Data-In of the target has at most 65536 bytes
login 1
answer good pattern 66048
> LOGIN 7:65 NAMES "MaxRecvDataSegmentLength=16777215\0"
> COMMAND 1:C1 20:00010200 32:280000000005000081
< LOGGED_IN 7:36 WELCOME
< DATA_IN 1:00 5:010000 pattern 65536
< DATA_IN 6:0200 36:0000000100010000 pattern 65536+512
< GOOD 24:00000002 36:00000002
asked begin iqn.2000-01.test:a 400001370000 Normal
asked 0 Ok(Read { lba: 5, blocks: 129, fua: false })

a NOP-In has at most MaxRecvDataSegmentLength
login 1
> LOGIN 7:60 NAMES "MaxRecvDataSegmentLength=512\0"
> NOP_OUT 6:0204 pattern 516
< LOGGED_IN 7:36 WELCOME
< NOP_IN 6:0200 24:00000002 pattern 512
asked begin iqn.2000-01.test:a 400001370000 Normal
"#,
        ),
    ]
}
