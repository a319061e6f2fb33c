//! Sessions that begin beside others.

pub fn scripts() -> &'static str {
    r#"
sessions that come again
# The same name, ISID and controller take the place of the first session; another controller does not.
A alone
A does TEST_UNIT_READY
B comes 1 / HOST_A / 15:02 WELCOME
A over
B power
C comes 2 / HOST_A / 15:03 WELCOME_2
D at 1
D > LOGIN 7:37 FINDS
D < LOGGED_IN 7:1F 15:04 "MaxRecvDataSegmentLength=65536\0"
B does TEST_UNIT_READY
C power
C does TEST_UNIT_READY

sessions that find no room
# 64 sessions leave no room for another until they are over.
A comes 1 / HOST_A / WELCOME
63 enter 2 LOGIN 7:56 HOST_A
B refused 1 / 7:56 HOST_B / 36:0302
A power
# A session of discovery needs none.
D at 1
D > LOGIN 7:37 FINDS
D < LOGGED_IN 7:1F 15:41 "MaxRecvDataSegmentLength=65536\0"
all leave LOGOUT
C comes 1 / HOST_B / 15:42 WELCOME
C power
A does TEST_UNIT_READY

sessions of discovery take no room
200 enter 1 LOGIN 7:37 FINDS
A comes 2 / HOST_A / 15:C9 WELCOME_2
A power
A does TEST_UNIT_READY

two logins of one nexus
# A's write hangs in the device of unit 1. B waits for that unit before it is attached to any. C comes by the same nexus, and is attached
# to no unit before B is to both; so it is the later one at each, and lives.
A alone
A power 9:01
disk hold 1
A > WRITE 9:01 5:000200 pattern 512
disk held 1
B at 1
B > LOGIN 7:56 HOST_B
clock 1
0 shows 2
C at 1
C > LOGIN 7:56 HOST_B
clock 1
0 shows 2
disk open
A < GOOD
C < LOGGED_IN 7:36 15:03 WELCOME
C power
C power 9:01
C does TEST_UNIT_READY 9:01

connections that do not log in
# As many wait for their login as may: 128. Of those that come then the first one has A closed, which has waited longest. It leaves its
# place when it has logged in, so the next one finds room; and once 128 wait again, the one behind has B closed. Those that have logged
# in stay.
H comes 1 / HOST_A / WELCOME
H power
A at 1
B at 1
126 wait 1
C comes 1 / HOST_B / 15:02 WELCOME
A over
C power
D at 1
D > LOGIN 7:56 13:01 HOST_A
D < LOGGED_IN 7:36 13:010003 WELCOME
D power
1 wait 1
E at 1
E > LOGIN 7:5A OTHER_HOST
E < LOGGED_IN 7:36 15:04 WELCOME
B over
E power
H does TEST_UNIT_READY
C does TEST_UNIT_READY
D does TEST_UNIT_READY
"#
}
