//! Sessions, their serials, and the group that owns a unit.

pub fn rows() -> &'static str {
    r#"
# A session's id is the number of the unit's entries before it.
serials
the session attaches; attach 1 1;; ATTACHED 0
its second command first; serial 0 2 00;; GONE
no command; serial 0 0 00;; GONE
its first; send 0 00;; CHECK 06 29 00
its first again; serial 0 1 00;; GONE
its second; send 0 2A 00 00000005 00 0001; 512*22; GOOD
its second again; serial 0 2 2A 00 00000005 00 0001; 512*5A; GONE
its third, refused; send 0 04;; CHECK 05 20 00
its third again; serial 0 3 2A 00 00000005 00 0001; 512*5A; GONE
its fifth; serial 0 5 2A 00 00000005 00 0001; 512*5A; GONE
its fourth; send 0 28 00 00000005 00 0001;; GOOD 512*22
a session that never was; serial 7 1 2A 00 00000005 00 0001; 512*5A; GONE
the session's next id; serial 1 1 2A 00 00000005 00 0001; 512*5A; GONE
written 5 22

unit 0
a session through the second group; attach 1 2;; ATTACHED 0
its command by that group; send 0 00;; MOVED 1
by the first; forward 0 00;; CHECK 06 29 00
a write by the second; send 0 2A 00 00000005 00 0001; 512*5A; MOVED 1
an INQUIRY by the second; send 0 12 00 00 0024;; MOVED 1
a write by the first; forward 0 2A 00 00000005 00 0001; 512*11; GOOD
a session through the first; attach 1 1;; ATTACHED 3
its command; send 1 00;; CHECK 06 29 00
its read; send 1 28 00 00000005 00 0001;; GOOD 512*11
written 5 11

unit 1
unit 1
a session through the first group; attach 1 1;; ATTACHED 0
its command by that group; send 0 00;; MOVED 2
by the second; forward 0 00;; CHECK 06 29 00
a write by the second; forward 0 2A 00 00000005 00 0001; 512*11; GOOD
a session through the second; attach 1 2;; ATTACHED 3
its command; send 1 00;; CHECK 06 29 00
its read; send 1 28 00 00000005 00 0001;; GOOD 512*11
written 5 11

nexuses
attach; attach 1 1;; ATTACHED 0
the power on; send 0 00;; CHECK 06 29 00
the same port through the second group; attach 1 2;; ATTACHED 2
another port; attach 2 1;; ATTACHED 3
the first session beside them; send 0 2A 00 00000005 00 0001; 512*11; GOOD
the nexus of the first session; attach 1 1;; ATTACHED 5
the session that it had; send 0 2A 00 00000005 00 0001; 512*5A; GONE
its new session; send 3 00;; CHECK 06 29 00
its read; send 3 28 00 00000005 00 0001;; GOOD 512*11
the second group's session; forward 1 00;; CHECK 06 29 00
the other port's session; send 2 00;; CHECK 06 29 00
written 5 11

a session that has ended
it attaches; attach 1 1;; ATTACHED 0
its power on; send 0 00;; CHECK 06 29 00
it ends; detach 0;; DONE
its command; send 0 00;; GONE
its reset; reset 0;; GONE
it ends again; detach 0;; GONE
its nexus attaches; attach 1 1;; ATTACHED 3

64 sessions of as many nexuses
numbers 0 64
one of 64; attach N 1;; ATTACHED N
numbers 0 1
a new nexus; attach 64 1;; TOO-MANY
a port that is there, through the other group; attach 5 2;; TOO-MANY
a nexus that is there; attach 5 1;; ATTACHED 64
the session that it had; send 5 00;; GONE
its new one; send 64 00;; CHECK 06 29 00
another; send 6 00;; CHECK 06 29 00
a new nexus again; attach 64 1;; TOO-MANY
one that ends; detach 6;; DONE
a new nexus in its place; attach 64 1;; ATTACHED 68
its command; send 65 00;; CHECK 06 29 00
"#
}
