//! Several writes that wait for their data at once, and other commands between: answers come in the order in which commands
//! are completed (RFC 7143, 4.2.2 and 11.8).
use crate::tables::Table;
use crate::tables::Table::Rows;

/// The tables.
pub fn tables() -> &'static [Table] {
    &[
        Rows(
            "tasks at once",
            r"
# Of two writes of two blocks the second is complete first; a read is answered between.
two writes, their Data-Out interleaved, and a read
answer good pattern 512
> WRITE 20:00000400 40:02
> WRITE 19:02 20:00000400 27:02 37:09 40:02
> DATA_OUT 19:02 23:01 pattern 512
> DATA_OUT pattern 1024+512
> COMMAND 1:C1 19:03 20:00000200 27:03 32:280000000005000001
> DATA_OUT 19:02 23:01 36:0000000100000200 pattern 512+512
> DATA_OUT 36:0000000100000200 pattern 1536+512
< R2T 46:0400
< R2T 19:02 23:01 31:03 46:0400
< DATA_IN 6:0200 19:03 31:0400000021 pattern 512
< GOOD 19:03 24:000000010000000400000021 36:00000001
< GOOD 19:02 24:000000020000000400000022
< GOOD 24:000000030000000400000023
asked 0 Ok(Read { lba: 5, blocks: 1, fua: false })
asked 0 Ok(Write { lba: 9, blocks: 2, fua: false })
asked 0 Ok(Write { lba: 5, blocks: 2, fua: false })
given pattern 2048

# The write waits with CmdSN FFFFFFFFh: ExpCmdSN 0 and MaxCmdSN 30. TEST UNIT READY with CmdSN 0 moves both on. What
# lies below the window is passed over, and with the write's end MaxCmdSN is 32.
numbers wrap round while a write waits
ExpCmdSN FFFFFFFF
StatSN FFFFFFFF
> WRITE 24:FFFFFFFF
> TEST_UNIT_READY 19:02 27:00
> TEST_UNIT_READY 19:03 24:FFFFFFFF
> DATA_OUT pattern 512
< R2T 24:FFFFFFFF000000000000001E
< GOOD 19:02 24:FFFFFFFF000000010000001F
< GOOD 24:000000000000000100000020
asked 0 Ok(TestUnitReady)
asked 0 Ok(Write { lba: 5, blocks: 1, fua: false })
given pattern 512

# An immediate write takes no number, and the window is not smaller by it.
an immediate write waits, and a numbered one is served
> WRITE 0:41
> TEST_UNIT_READY 19:02
> DATA_OUT pattern 512
< R2T 31:01
< GOOD 19:02
< GOOD 27:02
asked 0 Ok(TestUnitReady)
asked 0 Ok(Write { lba: 5, blocks: 1, fua: false })
given pattern 512

# TASK SET FULL (SAM-5, 5.3.1).
a second immediate command, while an immediate write waits
> WRITE 0:41
> TEST_UNIT_READY 0:41 19:02
> DATA_OUT pattern 512
> TEST_UNIT_READY 0:41 19:02
< R2T 31:01
< GOOD 3:28 19:02 31:0100000020
< GOOD 27:020000000100000020
< GOOD 19:02 27:030000000100000020
asked 0 Ok(Write { lba: 5, blocks: 1, fua: false })
asked 0 Ok(TestUnitReady)
given pattern 512

an immediate command, while a numbered write waits
> WRITE
> TEST_UNIT_READY 0:41 19:02 27:02
< R2T
< GOOD 19:02 35:20
asked 0 Ok(TestUnitReady)
",
        ),
        // 32 numbered writes that wait, of which the window is full, and what comes behind them.
        Rows(
            "a full window of writes",
            r"
behind 32 numbered writes that wait
# CmdSN and tag count from 1 on.
> WRITE 19:01 27:01
> WRITE 19:02 27:02
> WRITE 19:03 27:03
> WRITE 19:04 27:04
> WRITE 19:05 27:05
> WRITE 19:06 27:06
> WRITE 19:07 27:07
> WRITE 19:08 27:08
> WRITE 19:09 27:09
> WRITE 19:0A 27:0A
> WRITE 19:0B 27:0B
> WRITE 19:0C 27:0C
> WRITE 19:0D 27:0D
> WRITE 19:0E 27:0E
> WRITE 19:0F 27:0F
> WRITE 19:10 27:10
> WRITE 19:11 27:11
> WRITE 19:12 27:12
> WRITE 19:13 27:13
> WRITE 19:14 27:14
> WRITE 19:15 27:15
> WRITE 19:16 27:16
> WRITE 19:17 27:17
> WRITE 19:18 27:18
> WRITE 19:19 27:19
> WRITE 19:1A 27:1A
> WRITE 19:1B 27:1B
> WRITE 19:1C 27:1C
> WRITE 19:1D 27:1D
> WRITE 19:1E 27:1E
> WRITE 19:1F 27:1F
> WRITE 19:20 27:20
# CmdSN 33, which the window has not: it is passed over.
> TEST_UNIT_READY 19:28 27:21
# An immediate write waits; a second one, and TEST UNIT READY, find the task set full.
> WRITE 0:41 19:21 27:21
> WRITE 0:41 19:22 27:21
> TEST_UNIT_READY 0:41 19:23 27:21
# One write is complete: CmdSN 33 has its place, and no other.
> DATA_OUT pattern 512
> TEST_UNIT_READY 19:24 27:22
> TEST_UNIT_READY 19:24 27:21
> DATA_OUT 19:21 23:20 pattern 512+512
> TEST_UNIT_READY 0:41 19:25 27:22
# Each moves ExpCmdSN on, and MaxCmdSN stays 32.
< R2T 19:01 23:00 31:02
< R2T 19:02 23:01 31:03
< R2T 19:03 23:02 31:04
< R2T 19:04 23:03 31:05
< R2T 19:05 23:04 31:06
< R2T 19:06 23:05 31:07
< R2T 19:07 23:06 31:08
< R2T 19:08 23:07 31:09
< R2T 19:09 23:08 31:0A
< R2T 19:0A 23:09 31:0B
< R2T 19:0B 23:0A 31:0C
< R2T 19:0C 23:0B 31:0D
< R2T 19:0D 23:0C 31:0E
< R2T 19:0E 23:0D 31:0F
< R2T 19:0F 23:0E 31:10
< R2T 19:10 23:0F 31:11
< R2T 19:11 23:10 31:12
< R2T 19:12 23:11 31:13
< R2T 19:13 23:12 31:14
< R2T 19:14 23:13 31:15
< R2T 19:15 23:14 31:16
< R2T 19:16 23:15 31:17
< R2T 19:17 23:16 31:18
< R2T 19:18 23:17 31:19
< R2T 19:19 23:18 31:1A
< R2T 19:1A 23:19 31:1B
< R2T 19:1B 23:1A 31:1C
< R2T 19:1C 23:1B 31:1D
< R2T 19:1D 23:1C 31:1E
< R2T 19:1E 23:1D 31:1F
< R2T 19:1F 23:1E 31:20
< R2T 19:20 23:1F 31:21
< R2T 19:21 23:20 31:21
< GOOD 3:28 19:22 27:010000002100000020
< GOOD 3:28 19:23 27:020000002100000020
< GOOD 27:030000002100000021
< GOOD 19:24 27:040000002200000022
< GOOD 19:21 27:050000002200000022
< GOOD 19:25 27:060000002200000022
asked 0 Ok(Write { lba: 5, blocks: 1, fua: false })
asked 0 Ok(TestUnitReady)
asked 0 Ok(Write { lba: 5, blocks: 1, fua: false })
asked 0 Ok(TestUnitReady)
given pattern 1024
",
        ),
    ]
}
