//! The data of a read in runs of MaxBurstLength (RFC 7143, 11.7.1 and 13.13): F stands at the end of each and of the data.
use crate::tables::Table;
use crate::tables::Table::Rows;

/// The tables.
pub fn tables() -> &'static [Table] {
    &[Rows(
        "runs",
        r"
# Five blocks in runs of 1024 bytes: F at 1024, 2048 and 2560.
runs of two segments, and a shorter one
MaxRecvDataSegmentLength 512
MaxBurstLength 1024
answer good 512*01 512*02 512*03 512*04 512*05
> COMMAND 1:C1 20:00000A00 32:280000000005000005
< DATA_IN 1:00 5:000200 36:0000000000000000 512*01
< DATA_IN 1:80 5:000200 36:0000000100000200 512*02
< DATA_IN 1:00 5:000200 36:0000000200000400 512*03
< DATA_IN 1:80 5:000200 36:0000000300000600 512*04
< DATA_IN 1:80 5:000200 36:0000000400000800 512*05
< GOOD 36:00000005
asked 0 Ok(Read { lba: 5, blocks: 5, fua: false })

# Three blocks in runs of 768 bytes: each ends with a shorter segment.
runs that are no multiple of a segment
MaxRecvDataSegmentLength 512
MaxBurstLength 768
answer good 512*01 256*02 512*03 256*04
> COMMAND 1:C1 20:00000600 32:280000000005000003
< DATA_IN 1:00 5:000200 36:0000000000000000 512*01
< DATA_IN 1:80 5:000100 36:0000000100000200 256*02
< DATA_IN 1:00 5:000200 36:0000000200000300 512*03
< DATA_IN 1:80 5:000100 36:0000000300000500 256*04
< GOOD 36:00000004
asked 0 Ok(Read { lba: 5, blocks: 3, fua: false })

# Three blocks in runs of 1024 bytes, where the initiator takes 8192.
runs shorter than a segment
MaxBurstLength 1024
answer good 1024*01 512*02
> COMMAND 1:C1 20:00000600 32:280000000005000003
< DATA_IN 1:80 5:000400 36:0000000000000000 1024*01
< DATA_IN 1:80 5:000200 36:0000000100000400 512*02
< GOOD 36:00000002
asked 0 Ok(Read { lba: 5, blocks: 3, fua: false })

a declared length of 65536
MaxRecvDataSegmentLength 65536
answer good 65536*01 65536*02
> COMMAND 1:C1 20:00020000 32:280000000000000100
< DATA_IN 1:00 5:010000 36:0000000000000000 65536*01
< DATA_IN 1:80 5:010000 36:0000000100010000 65536*02
< GOOD 36:00000002
asked 0 Ok(Read { lba: 0, blocks: 256, fua: false })

# No data segment of the target is longer than 65536 bytes.
a declared length above 65536
MaxRecvDataSegmentLength 16777215
MaxBurstLength 16777215
answer good 65536*01 512*02
> COMMAND 1:C1 20:00010200 32:280000000000000081
< DATA_IN 1:00 5:010000 36:0000000000000000 65536*01
< DATA_IN 1:80 5:000200 36:0000000100010000 512*02
< GOOD 36:00000002
asked 0 Ok(Read { lba: 0, blocks: 129, fua: false })

# 1301 of 1536 bytes: O, and 235 are left. 277 bytes are padded to 280.
less is expected than is read
MaxRecvDataSegmentLength 512
MaxBurstLength 1024
answer good 512*01 512*02 512*03
> COMMAND 1:C1 20:00000515 32:280000000005000003
< DATA_IN 1:00 5:000200 36:0000000000000000 512*01
< DATA_IN 1:80 5:000200 36:0000000100000200 512*02
< DATA_IN 1:80 5:000115 36:0000000200000400 277*03
< GOOD 1:84 36:00000003 44:000000EB
asked 0 Ok(Read { lba: 5, blocks: 3, fua: false })
",
    )]
}
