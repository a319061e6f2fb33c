//! A unit that does not answer, or whose device does not.

pub fn scripts() -> &'static str {
    r#"
a unit that does not answer
# A's command waits before unit 1; meanwhile B is served by unit 0, and C logs in.
A comes 1 / HOST_A / WELCOME
A power 9:01
B comes 2 / HOST_B / 15:02 WELCOME_2
B power
gate hold 1
A > TEST_UNIT_READY 9:01
gate held 1
B does WRITE 5:000200 pattern 512
B reads 20:00000200 32:28000000000500000100 / 5:000200 pattern 512
C comes 1 / HOST_B / 15:03 WELCOME
C power
gate open
A < GOOD

a device that hangs
# A's write hangs in the device of unit 0; meanwhile B is served by unit 1.
A alone
B comes 2 / HOST_B / 15:02 WELCOME_2
B power 9:01
disk hold 0
A > WRITE 5:000200 pattern 512
disk held 1
B does WRITE 9:01 5:000200 pattern 512
B reads 9:01 20:00000200 32:28000000000500000100 / 5:000200 pattern 512
disk open
A < GOOD

a desk with writes of a unit whose device hangs
# Unit 1 moves to controller 1, so that both units are served by way of one desk. Eight writes of unit 0 stand before it, and the
# first that reaches its device hangs there; meanwhile B is served by unit 1, and unit 0's row is read.
8 enter 1 LOGIN 7:56 HOST_A
all power
B comes 2 / HOST_B / 15:09 WELCOME_2
B power 9:01
B does WRITE 9:01 7:08 20:00000008 32:A40A00000000000000080000 0000000000000001
gate hold 0
all > WRITE 5:000200 pattern 512
gate held 8
disk hold 0
gate open
disk held 1
B does WRITE 9:01 5:000200 pattern 512
B reads 9:01 20:00000200 32:28000000000500000100 / 5:000200 pattern 512
0 shows 17
disk open
all < GOOD
0 shows 25

short commands behind a write that hangs
# A's write hangs in the device of unit 0, and a short command of each of eight sessions waits behind it: more than are served past
# the desk's queue at a time. Meanwhile B's go by way of the queue of the same desk, and are served by unit 1.
8 enter 1 LOGIN 7:56 HOST_A
all power
A comes 1 / HOST_B / 15:09 WELCOME
A power
B comes 2 / HOST_B / 15:0A WELCOME_2
B power 9:01
B does WRITE 9:01 7:08 20:00000008 32:A40A00000000000000080000 0000000000000001
disk hold 0
A > WRITE 5:000200 pattern 512
disk held 1
all > TEST_UNIT_READY
B does TEST_UNIT_READY 9:01
B does WRITE 9:01 5:000200 pattern 512
B reads 9:01 20:00000200 32:28000000000500000100 / 5:000200 pattern 512
0 shows 19
disk open
A < GOOD
all < GOOD
0 shows 28

closed desks are busy
# Both desks are closed while A is logged in: each command is BUSY, and what is no command goes on.
A alone
A does TEST_UNIT_READY
desks close
A > TEST_UNIT_READY
A < GOOD 3:08
A > WRITE 5:000200 pattern 512
A < GOOD 3:08
A > TEST_UNIT_READY 9:01
A < GOOD 3:08
A > LOGOUT
A < LOGGED_OUT
A over
0 shows 4
"#
}
