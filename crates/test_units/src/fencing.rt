//! Persistent reservations: who registers, who is fenced, who hears of it (SPC-4, 5.13, 6.15 and 6.16).

// Four sessions that were told of their power on.
pub fn four() -> &'static str {
    r#"
the first session; attach 1 1;; ATTACHED 0
its power on; send 0 00;; CHECK 06 29 00
the second session; attach 2 1;; ATTACHED 2
its power on; send 1 00;; CHECK 06 29 00
the third session; attach 3 1;; ATTACHED 4
its power on; send 2 00;; CHECK 06 29 00
the fourth session; attach 4 1;; ATTACHED 6
its power on; send 3 00;; CHECK 06 29 00
"#
}

// PERSISTENT RESERVE OUT is 5Fh, with its service action, and the type of the reservation; its list begins with a reservation key and
// a service action reservation key of eight bytes each. PERSISTENT RESERVE IN is 5Eh.
pub fn rows() -> &'static str {
    r#"
# Keys 11h, 22h, 11h and 33h; the first reserves with type 5, and the second preempts 11h with type 6.
a holder is preempted
the first registers; send 0 5F 00 00 0000 00000018; 15*00 11 8*00; GOOD
the second registers; send 1 5F 00 00 0000 00000018; 15*00 22 8*00; GOOD
the third registers; send 2 5F 00 00 0000 00000018; 15*00 11 8*00; GOOD
the fourth registers; send 3 5F 00 00 0000 00000018; 15*00 33 8*00; GOOD
the first reserves; send 0 5F 01 05 0000 00000018; 7*00 11 16*00; GOOD
the second preempts; send 1 5F 04 06 0000 00000018; 7*00 22 7*00 11 8*00; GOOD
the first lost its registration; send 0 2A 00 00000000 00 0001; 512*5A; CHECK 06 2A 05
its write is fenced; send 0 2A 00 00000000 00 0001; 512*5A; CONFLICT
its read is fenced; send 0 28 00 00000000 00 0001;; CONFLICT
its wrong write is fenced; send 0 2A 00 00000000 00 0801;; CONFLICT
its flush is fenced; send 0 35;; CONFLICT
it asks who the unit is; send 0 00;; GOOD
the third lost its registration; send 2 00;; CHECK 06 2A 05
the fourth hears of the other type; send 3 00;; CHECK 06 2A 04
the fourth hears nothing more; send 3 00;; GOOD
the second hears nothing; send 1 00;; GOOD
the keys; send 1 5E 00 0000000000 00FF;; GOOD 00 00 00 05 00 00 00 10 7*00 22 7*00 33
the reservation; send 0 5E 01 0000000000 00FF;; GOOD 00 00 00 05 00 00 00 10 7*00 22 5*00 06 00 00
a registrant writes; send 3 2A 00 00000001 00 0001; 512*5A; GOOD
written 1 5A

# The holder of type 5 is preempted by one that reserves with the same type, and then writes.
a write is fenced
the first registers; send 0 5F 00 00 0000 00000018; 15*00 11 8*00; GOOD
the first reserves; send 0 5F 01 05 0000 00000018; 7*00 11 16*00; GOOD
its reservation; send 0 5E 01 0000000000 00FF;; GOOD 00 00 00 01 00 00 00 10 7*00 11 5*00 05 00 00
the second registers; send 1 5F 00 00 0000 00000018; 15*00 22 8*00; GOOD
the second preempts; send 1 5F 04 05 0000 00000018; 7*00 22 7*00 11 8*00; GOOD
the first writes; send 0 2A 00 00000000 00 0001; 512*5A; CHECK 06 2A 05
the first writes again; send 0 2A 00 00000000 00 0001; 512*5A; CONFLICT
the second writes; send 1 2A 00 00000001 00 0001; 512*5A; GOOD
written 1 5A

all registrants hold
the first registers; send 0 5F 00 00 0000 00000018; 15*00 11 8*00; GOOD
the second registers; send 1 5F 00 00 0000 00000018; 15*00 22 8*00; GOOD
the first reserves; send 0 5F 01 07 0000 00000018; 7*00 11 16*00; GOOD
the third may not write; send 2 2A 00 00000000 00 0001; 512*5A; CONFLICT
the first unregisters; send 0 5F 00 00 0000 00000018; 7*00 11 16*00; GOOD
the second holds it still; send 1 5E 01 0000000000 00FF;; GOOD 00 00 00 03 00 00 00 10 13*00 07 00 00
the second unregisters; send 1 5F 00 00 0000 00000018; 7*00 22 16*00; GOOD
nobody holds it; send 1 5E 01 0000000000 00FF;; GOOD 00 00 00 04 00 00 00 00
the third writes; send 2 2A 00 00000001 00 0001; 512*5A; GOOD
written 1 5A

cleared
the first registers; send 0 5F 00 00 0000 00000018; 15*00 11 8*00; GOOD
the second registers; send 1 5F 00 00 0000 00000018; 15*00 22 8*00; GOOD
the first reserves; send 0 5F 01 05 0000 00000018; 7*00 11 16*00; GOOD
the second clears; send 1 5F 03 00 0000 00000018; 7*00 22 16*00; GOOD
the second hears nothing; send 1 00;; GOOD
the first hears of it; send 0 00;; CHECK 06 2A 03
no key; send 0 5E 00 0000000000 00FF;; GOOD 00 00 00 03 00 00 00 00
no reservation; send 0 5E 01 0000000000 00FF;; GOOD 00 00 00 03 00 00 00 00
the third writes; send 2 2A 00 00000001 00 0001; 512*5A; GOOD
written 1 5A

fields and nexuses
what a fresh unit can; send 0 5E 02 0000000000 00FF;; GOOD 00 08 05 80 EA 01 00 00
no key; send 0 5E 00 0000000000 00FF;; GOOD 8*00
a list of 23 bytes; send 0 5F 00 00 0000 00000017; 23*00; CHECK 05 1A 00
a list of 25 bytes; send 0 5F 00 00 0000 00000019; 15*00 11 9*00; CHECK 05 1A 00
a list that came short; send 0 5F 00 00 0000 00000018; 23*00; CHECK 05 24 00
for ports in the list; send 0 5F 00 00 0000 00000018; 15*00 11 4*00 08 3*00; CHECK 05 26 00
a wrong key; send 0 5F 00 00 0000 00000018; 7*00 11 7*00 22 8*00; CONFLICT
a RESERVE of no registrant; send 0 5F 01 05 0000 00000018; 7*00 11 16*00; CONFLICT
a RESERVE of no type; send 0 5F 01 02 0000 00000018; 7*00 11 16*00; CHECK 05 24 00
it registers; send 0 5F 00 00 0000 00000018; 15*00 11 8*00; GOOD
it reserves; send 0 5F 01 05 0000 00000018; 7*00 11 16*00; GOOD
it releases another type; send 0 5F 02 06 0000 00000018; 7*00 11 16*00; CHECK 05 26 04
its port through the other controller; attach 1 2;; ATTACHED 20
its power on; forward 4 00;; CHECK 06 29 00
another nexus is fenced; forward 4 2A 00 00000000 00 0001; 512*5A; CONFLICT
another nexus reads; forward 4 28 00 00000000 00 0001;; GOOD 512*00
it registers too; forward 4 5F 06 00 0000 00000018; 15*00 11 8*00; GOOD
it writes; forward 4 2A 00 00000001 00 0001; 512*5A; GOOD
written 1 5A

# With ALL_TG_PT the first registers both nexuses of its port, and both write, until the second preempts their key.
every port
the first registers by every port; send 0 5F 00 00 0000 00000018; 15*00 11 4*00 04 3*00; GOOD
the full status; send 0 5E 03 0000000000 00FF;; GOOD 00 00 00 01 00 00 00 90 7*00 11 11*00 01 00 00 00 30 45 00 00 2C PORT_1 7*00 11
  11*00 02 00 00 00 30 45 00 00 2C PORT_1
it reserves; send 0 5F 01 05 0000 00000018; 7*00 11 16*00; GOOD
its port through the other controller; attach 1 2;; ATTACHED 11
its power on; forward 4 00;; CHECK 06 29 00
it writes; forward 4 2A 00 00000001 00 0001; 512*5A; GOOD
it releases, which changes nothing; forward 4 5F 02 05 0000 00000018; 7*00 11 16*00; GOOD
the reservation is as it was; forward 4 5E 01 0000000000 00FF;; GOOD 00 00 00 01 00 00 00 10 7*00 11 5*00 05 00 00
the second registers; send 1 5F 00 00 0000 00000018; 15*00 22 8*00; GOOD
the second preempts; send 1 5F 04 05 0000 00000018; 7*00 22 7*00 11 8*00; GOOD
the first lost its registration; send 0 2A 00 00000000 00 0001; 512*5A; CHECK 06 2A 05
so did its port through the other controller; forward 4 2A 00 00000000 00 0001; 512*5A; CHECK 06 2A 05
its write is fenced; send 0 2A 00 00000000 00 0001; 512*5A; CONFLICT
its write through the other controller too; forward 4 2A 00 00000000 00 0001; 512*5A; CONFLICT
the keys; send 1 5E 00 0000000000 00FF;; GOOD 00 00 00 03 00 00 00 08 7*00 22
written 1 5A
"#
}

// 62 registrants, each session registered by three entries. The first has key 11h, the others have 22h.
pub fn sixty_two() -> &'static str {
    r#"
a session; attach 0 1;; ATTACHED 0
its power on; send 0 00;; CHECK 06 29 00
it registers; send 0 5F 00 00 0000 00000018; 15*00 11 8*00; GOOD
numbers 1 62
a session; attach N 1;; ATTACHED 3N
its power on; send N 00;; CHECK 06 29 00
it registers; send N 5F 00 00 0000 00000018; 15*00 22 8*00; GOOD
"#
}

// What comes behind them.
pub fn many() -> &'static str {
    r#"
# Two more have 22h, and there is no room for a 65th registrant. The first preempts the others.
64 registrants
numbers 62 64
a session; attach N 1;; ATTACHED 3N
its power on; send N 00;; CHECK 06 29 00
it registers; send N 5F 00 00 0000 00000018; 15*00 22 8*00; GOOD
numbers 0 1
the last session ends, and stays registered; detach 63;; DONE
a new nexus attaches; attach 64 1;; ATTACHED 193
its power on; send 64 00;; CHECK 06 29 00
a 65th registrant; send 64 5F 00 00 0000 00000018; 15*00 33 8*00; CHECK 05 55 04
the first by every port; send 0 5F 06 00 0000 00000018; 15*00 11 4*00 04 3*00; CHECK 05 55 04
64 changes, and as many keys; send 0 5E 00 0000000000 0008;; GOOD 00 00 00 40 00 00 02 00
the first preempts; send 0 5F 04 05 0000 00000018; 7*00 11 7*00 22 8*00; GOOD
its key alone; send 0 5E 00 0000000000 00FF;; GOOD 00 00 00 41 00 00 00 08 7*00 11
numbers 1 63
another hears of it; send N 00;; CHECK 06 2A 05

# Both nexuses of a port have room, and both of one more have none. The first is registered by one of its own, so it has room.
62 registrants
a port attaches; attach 62 1;; ATTACHED 186
its power on; send 62 00;; CHECK 06 29 00
it registers by every port; send 62 5F 00 00 0000 00000018; 15*00 33 4*00 04 3*00; GOOD
63 changes, and 64 keys; send 0 5E 00 0000000000 0008;; GOOD 00 00 00 3F 00 00 02 00
it leaves by every port; send 62 5F 00 00 0000 00000018; 7*00 33 12*00 04 3*00; GOOD
it registers alone; send 62 5F 00 00 0000 00000018; 15*00 22 8*00; GOOD
another port attaches; attach 63 1;; ATTACHED 192
its power on; send 63 00;; CHECK 06 29 00
it registers by every port; send 63 5F 00 00 0000 00000018; 15*00 33 4*00 04 3*00; CHECK 05 55 04
63 keys; send 0 5E 00 0000000000 0008;; GOOD 00 00 00 41 00 00 01 F8
the first by every port; send 0 5F 06 00 0000 00000018; 15*00 11 4*00 04 3*00; GOOD
64 keys; send 0 5E 00 0000000000 0008;; GOOD 00 00 00 42 00 00 02 00
"#
}
