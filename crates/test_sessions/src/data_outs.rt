//! Data-Out and the task that they are for (RFC 7143, 11.7): what is dropped, and what a task takes.
use crate::tables::Table;
use crate::tables::Table::Rows;

/// The tables.
pub fn tables() -> &'static [Table] {
    &[Rows(
        "data out and its task",
        r"
a Data-Out for a tag that no task has is dropped
> DATA_OUT pattern 512
> TEST_UNIT_READY
< GOOD
asked 0 Ok(TestUnitReady)

a Data-Out for another tag is dropped, while a write waits
> WRITE
> DATA_OUT 19:02 pattern 100+512
> DATA_OUT pattern 512
< R2T
< GOOD
asked 0 Ok(Write { lba: 5, blocks: 1, fua: false })
given pattern 512

a Data-Out behind the end of its task is dropped
> WRITE
> DATA_OUT pattern 512
> DATA_OUT pattern 512
< R2T
< GOOD
asked 0 Ok(Write { lba: 5, blocks: 1, fua: false })
given pattern 512

# Its tag is free again, and the Target Transfer Tags count on.
the tag of a write that was answered, in a second write
> WRITE
> DATA_OUT pattern 512
> WRITE 27:02
> DATA_OUT 23:01 pattern 512+512
< R2T
< GOOD
< R2T 23:01 24:000000020000000300000021
< GOOD 24:000000020000000300000022
asked 0 Ok(Write { lba: 5, blocks: 1, fua: false })
asked 0 Ok(Write { lba: 5, blocks: 1, fua: false })
given pattern 1024

F is not looked at: not on the last, but on the first
> WRITE
> DATA_OUT 6:0100 pattern 256
> DATA_OUT 1:00 6:0100 36:0000000100000100 pattern 256+256
< R2T
< GOOD
asked 0 Ok(Write { lba: 5, blocks: 1, fua: false })
given pattern 512

a Data-Out without data has its DataSN
> WRITE
> DATA_OUT 6:0000
> DATA_OUT 39:01 pattern 512
< R2T
< GOOD
asked 0 Ok(Write { lba: 5, blocks: 1, fua: false })
given pattern 512

# Of 3 bytes and 509, each with its padding (RFC 7143, 11.7.7).
Data-Out of lengths that are no multiples of four
> WRITE
> DATA_OUT 6:0003 pattern 3
> DATA_OUT 6:01FD 36:0000000100000003 pattern 3+509
< R2T
< GOOD
asked 0 Ok(Write { lba: 5, blocks: 1, fua: false })
given pattern 512

TEST UNIT READY behind a write that waits is answered first
> WRITE
> TEST_UNIT_READY 19:09 24:00000002
> DATA_OUT pattern 512
< R2T
< GOOD 19:09 24:000000010000000300000021
< GOOD 24:000000020000000300000022
asked 0 Ok(TestUnitReady)
asked 0 Ok(Write { lba: 5, blocks: 1, fua: false })
given pattern 512

# Until it has its data, a write is not called.
the input ends before all data came
> WRITE
> DATA_OUT 6:0100 pattern 256
< R2T
",
    )]
}
