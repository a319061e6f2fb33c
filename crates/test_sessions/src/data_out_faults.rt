//! Data-Out that does not continue the R2T that is outstanding, and other PDUs that a command that waits makes wrong:
//! each is a Reject for a protocol error and the end, and nothing is called (RFC 7143, 7.3 and 11.7).
use crate::tables::Table;
use crate::tables::Table::Alike;

/// The tables.
pub fn tables() -> &'static [Table] {
    &[
        // A write of 17 blocks brings 8192 bytes, and its R2T is for the 512 bytes at 8192. The command behind would be served,
        // had the session not ended. Of each fault the header segment, the data, the opcode, and what comes before it.
        Alike(
            "faults of data out",
            r"
[0]
> WRITE 6:2000 20:00002200 40:11 pattern 8192
[4]
> [1] [2]
> TEST_UNIT_READY 19:09 24:00000002
< R2T 42:20
< REJECT 2:04 31:02 rejected [1]
end Rejected 04 [3] 00000001
",
            r#"
the offset 8196, where the R2T is at 8192; DATA_OUT 6:0004 40:00002004; pattern 8196+4; 05
the offset 8188, where the R2T is at 8192; DATA_OUT 6:0004 40:00001FFC; pattern 8188+4; 05
the Target Transfer Tag of no R2T; DATA_OUT 23:01 40:00002000; pattern 8192+512; 05
the Target Transfer Tag that asks for nothing; DATA_OUT 20:FFFFFFFF 40:00002000; pattern 8192+512; 05
the DataSN 1 before 0; DATA_OUT 36:0000000100002000; pattern 8192+512; 05
a byte past the range; DATA_OUT 6:0201 40:00002000; pattern 8192+513; 05
a Data-Out that comes twice; DATA_OUT 6:0100 40:00002000; pattern 8192+256; 05; > DATA_OUT 6:0100 40:00002000 pattern 8192+256
a byte past the range, in the second Data-Out; DATA_OUT 6:0101 36:0000000100002100; pattern 8448+257; 05;
  > DATA_OUT 6:0100 40:00002000 pattern 8192+256
the tag of a write that waits, in a second command; TEST_UNIT_READY 27:02;; 01
the tag of a write that waits, in an immediate command; TEST_UNIT_READY 0:41;; 01
the tag of a write that waits, in a NOP-Out; NOP_OUT 27:02;; 00
the tag of a write that waits, in an immediate NOP-Out; NOP_OUT 0:40;; 00
the tag of a write that waits, in a Text Request that would be answered; TEXT_REQUEST 6:000D 27:02; "SendTargets=\0"; 04
the tag of a write that waits, in an ABORT TASK of that write; TASK_REQUEST 0:4281 23:01;; 02
the tag of a write that waits, in a Logout; LOGOUT 27:02;; 06
"#,
        ),
    ]
}
