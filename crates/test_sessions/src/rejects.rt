//! What is rejected (RFC 7143, 11.17.1): 04 is a protocol error, 05 a command not supported, 09 an invalid PDU field.
use crate::tables::Table;
use crate::tables::Table::Rows;

/// The tables.
pub fn tables() -> &'static [Table] {
    &[
        // Each is rejected with its header segment, and ends the session: the target is asked nothing, also of what is behind.
        Rows(
            "rejects",
            r"
an opcode that no PDU has
> COMMAND 0:07
> TEST_UNIT_READY
< REJECT 2:05 rejected COMMAND 0:07
end Rejected 05 07 00000001

the opcode 07h, and 47 zeros behind it
> COMMAND 0:0700 16:00000000000000000000000000000000
< REJECT 2:05 rejected COMMAND 0:0700 16:00000000000000000000000000000000
end Rejected 05 07 00000000

a Login Request, behind the login
> LOGIN 8:00000000 31:01
> TEST_UNIT_READY
< REJECT 2:04 rejected LOGIN 8:00000000 31:01
end Rejected 04 03 00000001

a PDU of a target
> GOOD
> TEST_UNIT_READY
< REJECT 2:05 rejected GOOD
end Rejected 05 21 00000001

a NOP-In, which is a target's
> NOP_IN
> TEST_UNIT_READY
< REJECT 2:05 rejected NOP_IN
end Rejected 05 20 00000001

R and W
> TEST_UNIT_READY 1:E1
> TEST_UNIT_READY
< REJECT 2:09 rejected TEST_UNIT_READY 1:E1
end Rejected 09 01 00000001

without F
> TEST_UNIT_READY 1:01
> TEST_UNIT_READY
< REJECT 2:09 rejected TEST_UNIT_READY 1:01
end Rejected 09 01 00000001

R without F
> TEST_UNIT_READY 1:41
> TEST_UNIT_READY
< REJECT 2:09 rejected TEST_UNIT_READY 1:41
end Rejected 09 01 00000001

an additional header segment
> TEST_UNIT_READY 4:01
> TEST_UNIT_READY
< REJECT 2:09 rejected TEST_UNIT_READY 4:01
end Rejected 09 01 00000001

a data segment of 65537 bytes
> TEST_UNIT_READY 5:010001
> TEST_UNIT_READY
< REJECT 2:09 rejected TEST_UNIT_READY 5:010001
end Rejected 09 01 00000001

the reserved tag
> TEST_UNIT_READY 16:FFFFFFFF
> TEST_UNIT_READY
< REJECT 2:04 rejected TEST_UNIT_READY 16:FFFFFFFF
end Rejected 04 01 FFFFFFFF

more immediate data than is expected
> COMMAND 1:A1 6:0204 20:00000200 32:2A0000000005000001 pattern 516
> TEST_UNIT_READY
< REJECT 2:04 rejected COMMAND 1:A1 6:0204 20:00000200 32:2A0000000005000001
end Rejected 04 01 00000001

more immediate data than FirstBurstLength
FirstBurstLength 1023
> COMMAND 1:A1 6:0400 20:00000400 32:2A0000000005000002 pattern 1024
> TEST_UNIT_READY
< REJECT 2:04 rejected COMMAND 1:A1 6:0400 20:00000400 32:2A0000000005000002
end Rejected 04 01 00000001

immediate data where ImmediateData is No
ImmediateData No
> COMMAND 1:A1 6:0400 20:00000400 32:2A0000000005000002 pattern 1024
> TEST_UNIT_READY
< REJECT 2:04 rejected COMMAND 1:A1 6:0400 20:00000400 32:2A0000000005000002
end Rejected 04 01 00000001
",
        ),
    ]
}
