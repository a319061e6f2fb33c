//! A desk without lanes, and sessions of one unit, one call behind another.
use crate::runs::perform_all;
use std::test::*;

/// Scripts, as in `moves.rt`.
fn scripts() -> &'static str {
    r#"
a desk without lanes; 9 9
# Sessions of units 0 and 1 in turn hand in 64 jobs. One more is not taken in, nor any once the desk is closed. A worker serves at once,
# past those that wait, as often as it comes. The jobs come back in their order, and no more. A session of unit 0 is told that power
# came on, and one of unit 1 that group 2 owns it.
32 times attach 0 1 = done; hand last spare = waits; attach 1 1 = done; hand last spare = waits
attach 0 1 = done
hand 64 spare = full
desk 64 test = check 062900
4 times desk 64 test = good
close = done
attach 1 1 = done
hand 65 spare = closed
32 times first = job 0; first = job 1
first = no-job
32 times collect next = check 062900; collect next = moved 2

a job keeps the memory of its reply; 9
# Whoever serves a job reads into the memory that came with it.
attach 0 1 = done
hand 0 test = waits
first = job 0
collect 0 = check 062900
hand 0 read = waits
first = job 0
collect 0 = good 512*00
kept 0 = done
hand 0 read = waits
own 0 = good 512*00
kept 0 = done

two thousand commands; 9
# All but the first, which tells of the power on, are GOOD. By the other group it is moved, which is no entry; by the owner it is one.
# The nexus attaches again: the session before is gone, and neither its command nor its reset is an entry. The new session resets the
# unit, and ends; the session before does not end once more.
attach 0 1 = done
send-1 0 test = check 062900
1999 times send-1 0 test = good
board 0 = 1 0 1 2001
send-2 0 test = moved 1
board 0 = 1 0 1 2001
send-1 0 test = good
board 0 = 1 0 1 2002
again 0 1 = done
board 0 = 1 0 1 2003
send-1 0 test = gone
reset 0 = failed
board 0 = 1 0 1 2003
reset 1 = done
board 0 = 1 0 1 2004
retire 0 = failed
retire 1 = done
board 0 = 1 0 1 2005

more sessions in turn than at once; 9
# Three entries each.
65 times attach 0 1 = done; send-1 last test = check 062900; retire last = done
board 0 = 1 0 1 195
"#
}

#[test]
fn a_desk_and_sessions_in_turn(rt: HostRuntime) {
    perform_all(&rt, rt.alloc(), scripts());
}
