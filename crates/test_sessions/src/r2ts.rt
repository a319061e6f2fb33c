//! Writes whose data comes by R2T (RFC 7143, 11.7 and 11.8): what did not come with the command is asked for in
//! ranges of MaxBurstLength, one outstanding at a time, and the command is called once, with all of it.
use crate::tables::Table;
use crate::tables::Table::{Alike, Rows};

/// The tables.
pub fn tables() -> &'static [Table] {
    &[
        // A write of 512 bytes, of which none come with it. Of each the answer, its LUN, in the header segments and as a number, and
        // what the session begins with or the target answers. The R2T has the LUN of its command.
        Alike(
            "a write of a block by r2t",
            r"
[0]
[4]
> WRITE [2]
> DATA_OUT [2] pattern 512
< R2T [2]
< [1]
asked [3] Ok(Write { lba: 5, blocks: 1, fua: false })
given pattern 512
",
            r"
a write of 512 without its data; GOOD;; 0
ImmediateData is No, and none comes; GOOD;; 0; ImmediateData No
a write to LUN 3; GOOD; 9:03; 3
the answer is sense; CHECK_CONDITION 0012700003000000000A000000000C0000000000;; 0; answer check 030C00
",
        ),
        // Writes of which some data come with the command, or whose ranges are several.
        Rows(
            "writes that collect",
            r"
# The R2T tells the StatSN of the next status, and does not use it up.
512 bytes come with the command, 1024 in two Data-Out
> WRITE 6:0200 20:00000600 40:03 pattern 512
> DATA_OUT 1:00 40:00000200 pattern 512+512
> DATA_OUT 36:0000000100000400 pattern 1024+512
< R2T 40:0000020000000400
< GOOD
asked 0 Ok(Write { lba: 5, blocks: 3, fua: false })
given pattern 1536

# DataSN counts from 0 behind each R2T.
MaxBurstLength 1024: five blocks in three ranges
MaxBurstLength 1024
> WRITE 20:00000A00 40:05
> DATA_OUT 1:00 pattern 512
> DATA_OUT 36:0000000100000200 pattern 512+512
> DATA_OUT 6:0400 20:00000001 40:00000400 pattern 1024+1024
> DATA_OUT 20:00000002 40:00000800 pattern 2048+512
< R2T 40:0000000000000400
< R2T 20:00000001 36:000000010000040000000400
< R2T 20:00000002 36:000000020000080000000200
< GOOD
asked 0 Ok(Write { lba: 5, blocks: 5, fua: false })
given pattern 2560

no second R2T before the first is filled
MaxBurstLength 1024
> WRITE 20:00000A00 40:05
> DATA_OUT pattern 512
< R2T 40:0000000000000400

# The range begins behind the immediate data, not at a multiple of MaxBurstLength.
512 bytes come with the command, and 2048 in two ranges
MaxBurstLength 1024
> WRITE 6:0200 20:00000A00 40:05 pattern 512
> DATA_OUT 6:0400 40:00000200 pattern 512+1024
> DATA_OUT 6:0400 20:00000001 40:00000600 pattern 1536+1024
< R2T 40:0000020000000400
< R2T 20:00000001 36:000000010000060000000400
< GOOD
asked 0 Ok(Write { lba: 5, blocks: 5, fua: false })
given pattern 2560

as much immediate data as FirstBurstLength
FirstBurstLength 512
> WRITE 6:0200 20:00000400 40:02 pattern 512
> DATA_OUT 40:00000200 pattern 512+512
< R2T 40:00000200
< GOOD
asked 0 Ok(Write { lba: 5, blocks: 2, fua: false })
given pattern 1024
",
        ),
        // What is expected and what the command needs differ (RFC 7143, 11.4.5): as much is collected as both have.
        Rows(
            "residuals with r2t",
            r"
a write of 512 that expects 1024: U, and the R2T is for 512
> WRITE 20:00000400
> DATA_OUT pattern 512
< R2T
< GOOD 1:82 44:00000200
asked 0 Ok(Write { lba: 5, blocks: 1, fua: false })
given pattern 512

a write of 512 that expects 1024 and sends 256: U, and the R2T is for 256
> WRITE 6:0100 20:00000400 pattern 256
> DATA_OUT 6:0100 40:00000100 pattern 256+256
< R2T 40:0000010000000100
< GOOD 1:82 44:00000200
asked 0 Ok(Write { lba: 5, blocks: 1, fua: false })
given pattern 512

a write of 512 that expects 1024 and sends 1024 with the command: U, and no R2T
> WRITE 6:0400 20:00000400 pattern 1024
< GOOD 1:82 44:00000200
asked 0 Ok(Write { lba: 5, blocks: 1, fua: false })
given pattern 512

a write of 1536 that expects 1024 and sends 512: O, and no R2T
> WRITE 6:0200 20:00000400 40:03 pattern 512
< GOOD 1:84 44:00000200
asked 0 Ok(Write { lba: 5, blocks: 3, fua: false })
given pattern 512

a write of 512 that expects 256 and sends none: O, and no R2T
> WRITE 20:00000100
< GOOD 1:84 44:00000100
asked 0 Ok(Write { lba: 5, blocks: 1, fua: false })
",
        ),
    ]
}
