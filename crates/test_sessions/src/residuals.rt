//! How much moves, and the Residual Count with U and O (RFC 7143, 11.4.1 and 11.4.5): WRITE (10) and READ (10) of
//! block 5 (SBC-3), where the target returns 512 bytes of a read.
use crate::tables::Table;
use crate::tables::Table::{Alike, Rows};

/// The tables.
pub fn tables() -> &'static [Table] {
    &[
        Rows(
            "residuals",
            r"
a write of 512 that expects 512 and sends 512
> COMMAND 1:A1 6:0200 20:00000200 32:2A0000000005000001 pattern 512
< GOOD
asked 0 Ok(Write { lba: 5, blocks: 1, fua: false })
given pattern 512

a write of 512 that expects 1024 and sends 512
> COMMAND 1:A1 6:0200 20:00000400 32:2A0000000005000001 pattern 512
< GOOD 1:82 44:00000200
asked 0 Ok(Write { lba: 5, blocks: 1, fua: false })
given pattern 512

a write of 512 that expects 256 and sends 256
> COMMAND 1:A1 6:0100 20:00000100 32:2A0000000005000001 pattern 256
< GOOD 1:84 44:00000100
asked 0 Ok(Write { lba: 5, blocks: 1, fua: false })
given pattern 256

a read of 512 without R
answer good pattern 512
> COMMAND 1:81 20:00000200 32:280000000005000001
< GOOD 1:84 44:00000200
asked 0 Ok(Read { lba: 5, blocks: 1, fua: false })
",
        ),
        // Reads, whose CDB asks for 512 bytes. How much each expects, how much it is sent, in hexadecimal and in decimal, and what its GOOD
        // says of the difference. 3 bytes are padded to 4 (RFC 7143, 11.7.7).
        Alike(
            "residuals of reads",
            r"
[0]
answer good pattern 512
> COMMAND 1:C1 20:[1] 32:280000000005000001
< DATA_IN 6:[2] pattern [3]
< GOOD [4] 36:00000001 [5]
asked 0 Ok(Read { lba: 5, blocks: 1, fua: false })
",
            r"
a read of 512 that expects 512; 00000200; 0200; 512
a read of 512 that expects 256; 00000100; 0100; 256; 1:84; 44:00000100
a read of 512 that expects 1024; 00000400; 0200; 512; 1:82; 44:00000200
a read of 512 that expects 3; 00000003; 0003; 3; 1:84; 44:000001FD
",
        ),
    ]
}
