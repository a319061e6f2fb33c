//! Units that move between the controllers, and an array of as many units as there may be.
use crate::runs::perform_all;
use std::test::*;

/// Scripts (`script.rt`). Behind the name of each stands how often each unit is opened before an open fails.
fn scripts() -> &'static str {
    r#"
a session sets the owner; 9 9
# A session on controller 2 sets group 2; the report tells that it was altered so. The session on controller 1 is told, and then
# served by the new owner.
attach 0 1 = done
attach 0 2 = done
send-1 0 test = check 062900
send-1 1 test = check 062900
send-1 1 set = good
send-2 1 report = good 00000018 810F0001 00010001 00000001 000F0002 00010001 00000002
board 0 = 2 1 0 6
send-1 0 test = moved 2
send-2 0 test = check 062A06
send-2 0 read = good 512*00
send-2 1 test = good
board 0 = 2 1 0 9
board 1 = 2 1 0 0

an owner that is not opened; 0 9
# The same where the blocks cannot be opened for the new owner: nothing has changed.
attach 0 1 = done
attach 0 2 = done
send-1 0 test = check 062900
send-1 1 test = check 062900
send-1 1 set = check 04670A
send-1 1 report = good 00000018 800F0001 00000001 00000001 010F0002 00000001 00000002
send-1 0 test = good
send-1 0 read = good 512*00
move 0 2 = unopened
board 0 = 1 0 1 8

the array moves a unit; 9 9
# By itself, and every session is told.
attach 0 1 = done
send-1 0 test = check 062900
move 0 none = list
move 0 short = length
move 0 2 = done
board 0 = 2 1 0 3
send-2 0 test = check 062A06
send-2 0 read = good 512*00

each controller goes down; 9 9
# A session on the one that is down is told so.
attach 0 1 = done
send-1 0 test = check 062900
down 1 = done
board 0 = 2 3 0 3
board 1 = 2 3 0 1
send-2 0 test = check 062A06
send-2 0 read = check 02040C
down 2 = done
board 0 = 1 0 3 6
board 1 = 1 0 3 2

what moved stays moved; 9 0
# Unit 1 cannot be opened for another owner: group 2 owns it, so that controller 1 goes down. Controller 2 does not: unit 0 is moved
# and stays so, and unit 1 is told.
down 1 = done
down 2 = unopened 1
board 0 = 1 0 3 2
board 1 = 2 3 0 1

the first that does not move ends it; 0 9
# Unit 0 cannot: it is told, and unit 1 is not asked.
down 1 = unopened 0
board 0 = 1 0 1 0
board 1 = 2 1 0 0

eight units; 9 9 9 9 9 9 9 9
# Each is served by its owner, and its history is its own.
attach 0 1 = done; send-1 0 test = check 062900
attach 1 1 = done; send-2 1 test = check 062900
attach 2 1 = done; send-1 2 test = check 062900
attach 3 1 = done; send-2 3 test = check 062900
attach 4 1 = done; send-1 4 test = check 062900
attach 5 1 = done; send-2 5 test = check 062900
attach 6 1 = done; send-1 6 test = check 062900
attach 7 1 = done; send-2 7 test = check 062900
board 0 = 1 0 1 2; board 1 = 2 1 0 2; board 2 = 1 0 1 2; board 3 = 2 1 0 2
board 4 = 1 0 1 2; board 5 = 2 1 0 2; board 6 = 1 0 1 2; board 7 = 2 1 0 2
"#
}

#[test]
fn units_that_move(rt: HostRuntime) {
    perform_all(&rt, rt.alloc(), scripts());
}
