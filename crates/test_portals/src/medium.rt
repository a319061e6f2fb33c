//! Blocks, through both controllers.

pub fn scripts() -> &'static str {
    r#"
what one controller writes the other reads
A and B
# WRITE (10) of block 2047, and READ (10)
A does WRITE 5:000200 34:000007FF pattern 512
B reads 20:00000200 32:2800000007FF00000100 / 5:000200 pattern 512
# unit 1 has blocks of its own
B power 9:01
B reads 9:01 20:00000200 32:2800000007FF00000100 / 5:000200 512*00

two that compare and write
# Both expect zeros in block 10.
A and B
gate hold 0
A > WRITE 5:000400 20:00000400 32:8900000000000000000A000000010000 512*00 512*"a"
B > WRITE 5:000400 20:00000400 32:8900000000000000000A000000010000 512*00 512*"b"
gate held 2
gate open
AB race GOOD / CHECK_CONDITION 0012 F0000E00000000 0A00000000 1D00 00000000
B reads 20:00000200 32:28000000000A00000100 / 5:000200 512*WON

long data
# Data so long that no desk copies it: 64 blocks, of which the last is read.
A and B
B does WRITE 5:008000 20:00008000 32:2A000000000500004000 pattern 32768
A reads 20:00000200 32:28000000004400000100 / 5:000200 pattern 32256+512
desks close
B > WRITE 5:008000 20:00008000 32:2A000000000500004000 32768*FF
B < GOOD 3:08
"#
}
