//! Access states: what each serves, who changes them, and who hears of it (SPC-4, 5.15.2, 6.37 and 6.45).

// Each session was told of its power on.
pub fn two_sessions() -> &'static str {
    r#"
a session through the first group; attach 1 1;; ATTACHED 0
its power on; send 0 00;; CHECK 06 29 00
a session through the second; attach 2 2;; ATTACHED 2
its power on; forward 1 00;; CHECK 06 29 00
the states; send 0 A3 0A 00000000 000000FF;; GOOD 00 00 00 18 80 0F 00 01 00 00 00 01 00 00 00 01 01 0F 00 02 00 00 00 01 00 00 00 02
"#
}

// SET TARGET PORT GROUPS is A4h; its list has four bytes, and four for each group, of which the first is the state and the last the
// group. REPORT TARGET PORT GROUPS is A3h.
pub fn rows() -> &'static str {
    r#"
# One open is asked for.
group 2 takes over
opens 1
the second makes its group active/optimized; forward 1 A4 0A 00000000 00000008; 00 00 00 00 00 00 00 02; GOOD
the states; send 1 A3 0A 00000000 000000FF;; GOOD 00 00 00 18 81 0F 00 01 00 01 00 01 00 00 00 01 00 0F 00 02 00 01 00 01 00 00 00 02
the sender hears nothing; send 1 00;; GOOD
the first by its own group; send 0 00;; MOVED 2
it hears of the change; forward 0 00;; CHECK 06 2A 06
it hears once; forward 0 00;; GOOD
its read is forwarded; forward 0 28 00 00000001 00 0001;; GOOD 512*00
its write by its own group; send 0 2A 00 00000001 00 0001; 512*11; MOVED 2
its write is forwarded; forward 0 2A 00 00000001 00 0001; 512*5A; GOOD
the second reads it; send 1 28 00 00000001 00 0001;; GOOD 512*5A
written 1 5A

# No open succeeds.
group 2 can't take over
opens 0
the second makes its group active/optimized; forward 1 A4 0A 00000000 00000008; 00 00 00 00 00 00 00 02;
  CHECK 70 00 04 00 00 00 00 0A 00 00 00 00 67 0A 00 00 00 00
it takes over, and the first is unavailable; forward 1 A4 0A 00000000 0000000C; 00 00 00 00 00 00 00 02 03 00 00 01; CHECK 04 67 0A
a move that does the same; move; 00 00 00 00 00 00 00 02 03 00 00 01; NOT-OPENED
the states are as they were; send 0 A3 0A 00000000 000000FF;; GOOD 00 00 00 18 80 0F 00 01 00 00 00 01 00 00 00 01 01 0F 00 02 00 00 00
  01 00 00 00 02
the first owns it still; send 1 00;; MOVED 1
the first hears nothing; send 0 00;; GOOD
the second hears nothing; forward 1 00;; GOOD
the first writes; send 0 2A 00 00000001 00 0001; 512*5A; GOOD
written 1 5A

# The owner stays, so that no open is asked for.
group 2 in standby
opens 0
the first puts group 2 in standby; send 0 A4 0A 00000000 00000008; 00 00 00 00 02 00 00 02; GOOD
the states; send 0 A3 0A 00000000 000000FF;; GOOD 00 00 00 18 80 0F 00 01 00 00 00 01 00 00 00 01 02 0F 00 02 00 01 00 01 00 00 00 02
the second hears of it; forward 1 28 00 00000001 00 0001;; CHECK 06 2A 06
its read; forward 1 28 00 00000001 00 0001;; CHECK 70 00 02 00 00 00 00 0A 00 00 00 00 04 0B 00 00 00 00
its bad read; forward 1 28 00 00000000 00 0801;; CHECK 02 04 0B
its write; forward 1 2A 00 00000001 00 0001; 512*11; CHECK 02 04 0B
an unknown operation code; forward 1 04;; CHECK 05 20 00
its MODE SENSE; forward 1 1A 00 08 00 04;; GOOD 17 00 10 00
its MODE SENSE of saved values; forward 1 1A 00 FF 00 FF;; CHECK 05 39 00
the first hears nothing; send 0 00;; GOOD
the first writes; send 0 2A 00 00000001 00 0001; 512*5A; GOOD
the same list again; send 0 A4 0A 00000000 00000008; 00 00 00 00 02 00 00 02; GOOD
nobody hears of it; forward 1 A3 0A 00000000 000000FF;; GOOD 00 00 00 18 80 0F 00 01 00 00 00 01 00 00 00 01 02 0F 00 02 00 01 00 01 00
  00 00 02
written 1 5A

lists
opens 0
a list of 6 bytes; send 0 A4 0A 00000000 00000006; 6*00; CHECK 05 1A 00
a list of 264 bytes; send 0 A4 0A 00000000 00000108; 264*00; CHECK 05 1A 00
no list; send 0 A4 0A 00000000 00000000;; GOOD
a list that names nothing; send 0 A4 0A 00000000 00000004; 4*00; GOOD
a list that came short; send 0 A4 0A 00000000 00000008; 7*00; CHECK 05 24 00
a list of which more came; send 0 A4 0A 00000000 00000004; 00 00 00 00 00 00 00 02; GOOD
no owner; send 0 A4 0A 00000000 00000008; 00 00 00 00 01 00 00 01; CHECK 05 26 00
two owners; send 0 A4 0A 00000000 0000000C; 00 00 00 00 00 00 00 01 00 00 00 02; CHECK 05 26 00
an unknown group; send 0 A4 0A 00000000 00000008; 00 00 00 00 00 00 00 03; CHECK 05 26 00
a group twice; send 0 A4 0A 00000000 0000000C; 00 00 00 00 02 00 00 02 02 00 00 02; CHECK 05 26 00
another state; send 0 A4 0A 00000000 00000008; 00 00 00 00 0E 00 00 02; CHECK 05 26 00
state 4; send 0 A4 0A 00000000 00000008; 00 00 00 00 04 00 00 02; CHECK 05 26 00
state 4 behind a good one; send 0 A4 0A 00000000 0000000C; 00 00 00 00 00 00 00 01 04 00 00 02; CHECK 05 26 00
neither group an owner; send 0 A4 0A 00000000 0000000C; 00 00 00 00 02 00 00 01 03 00 00 02; CHECK 05 26 00
a group twice, with two states; send 0 A4 0A 00000000 0000000C; 00 00 00 00 02 00 00 02 03 00 00 02; CHECK 05 26 00
group 0; send 0 A4 0A 00000000 00000008; 00 00 00 00 02 00 00 00; CHECK 05 26 00
group 3 behind group 2; send 0 A4 0A 00000000 0000000C; 00 00 00 00 02 00 00 02 02 00 00 03; CHECK 05 26 00
group 0102h; send 0 A4 0A 00000000 00000008; 00 00 00 00 02 00 01 02; CHECK 05 26 00
three descriptors; send 0 A4 0A 00000000 00000010; 00 00 00 00 00 00 00 01 01 00 00 02 01 00 00 02; CHECK 05 26 00
260 bytes; send 0 A4 0A 00000000 00000104; 260*00; CHECK 05 26 00
1 byte; send 0 A4 0A 00000000 00000001; 00; CHECK 05 1A 00
3 bytes; send 0 A4 0A 00000000 00000003; 3*00; CHECK 05 1A 00
5 bytes; send 0 A4 0A 00000000 00000005; 5*00; CHECK 05 1A 00
9 bytes; send 0 A4 0A 00000000 00000009; 9*00; CHECK 05 1A 00
262 bytes; send 0 A4 0A 00000000 00000106; 262*00; CHECK 05 1A 00
state 4 by a move; move; 00 00 00 00 04 00 00 02; BAD-LIST
two owners by a move; move; 00 00 00 00 00 00 00 01 00 00 00 02; BAD-LIST
260 bytes by a move; move; 260*00; BAD-LIST
264 bytes by a move; move; 264*00; BAD-LENGTH
the states are as they were; send 0 A3 0A 00000000 000000FF;; GOOD 00 00 00 18 80 0F 00 01 00 00 00 01 00 00 00 01 01 0F 00 02 00 00 00
  01 00 00 00 02
the second hears nothing; forward 1 00;; GOOD
the first 4 bytes; send 0 A3 0A 00000000 00000004;; GOOD 00 00 00 18
another format; send 0 A3 2A 00000000 000000FF;; CHECK 05 24 00
the first writes; send 0 2A 00 00000001 00 0001; 512*5A; GOOD
written 1 5A

# What stays keeps its status code.
lists that are taken
reserved bytes; send 0 A4 0A 00000000 00000004; 4*FF; GOOD
group 1 as it is; send 0 A4 0A 00000000 00000008; 00 00 00 00 00 00 00 01; GOOD
both as they are; send 0 A4 0A 00000000 0000000C; 00 00 00 00 00 00 00 01 01 00 00 02; GOOD
the second hears nothing; forward 1 00;; GOOD
group 2 in standby, with reserved bits; send 0 A4 0A 00000000 00000008; FF FF FF FF F2 FF 00 02; GOOD
the states; send 0 A3 0A 00000000 000000FF;; GOOD 00 00 00 18 80 0F 00 01 00 00 00 01 00 00 00 01 02 0F 00 02 00 01 00 01 00 00 00 02
the same by a move; move; 00 00 00 00 02 00 00 02; NEITHER-CHANGES
the owner beside it; send 0 A4 0A 00000000 00000008; 00 00 00 00 00 00 00 01; GOOD
the states; send 0 A3 0A 00000000 000000FF;; GOOD 00 00 00 18 80 0F 00 01 00 00 00 01 00 00 00 01 02 0F 00 02 00 01 00 01 00 00 00 02
group 2 takes over by a move; move; 00 00 00 00 00 00 00 02; BOTH-CHANGE 2
the first hears of it; forward 0 00;; CHECK 06 2A 06
the states; forward 0 A3 0A 00000000 000000FF;; GOOD 00 00 00 18 81 0F 00 01 00 02 00 01 00 00 00 01 00 0F 00 02 00 02 00 01 00 00 00 02

a group beside the owner
group 2 unavailable; send 0 A4 0A 00000000 0000000C; 00 00 00 00 00 00 00 01 03 00 00 02; GOOD
the states; send 0 A3 0A 00000000 000000FF;; GOOD 00 00 00 18 80 0F 00 01 00 00 00 01 00 00 00 01 03 0F 00 02 00 01 00 01 00 00 00 02
group 1 unavailable, named first; send 0 A4 0A 00000000 0000000C; 00 00 00 00 03 00 00 01 00 00 00 02; GOOD
the states; forward 0 A3 0A 00000000 000000FF;; GOOD 00 00 00 18 83 0F 00 01 00 01 00 01 00 00 00 01 00 0F 00 02 00 01 00 01 00 00 00 02
the owner again; forward 0 A4 0A 00000000 00000008; 00 00 00 00 00 00 00 01; GOOD
group 1 unavailable, named last; send 0 A4 0A 00000000 0000000C; 00 00 00 00 00 00 00 02 03 00 00 01; GOOD
the states; forward 0 A3 0A 00000000 000000FF;; GOOD 00 00 00 18 83 0F 00 01 00 01 00 01 00 00 00 01 00 0F 00 02 00 01 00 01 00 00 00 02

# To a reservation a SET TARGET PORT GROUPS is a write.
a reservation
opens 0
the first registers; send 0 5F 00 00 0000 00000018; 15*00 11 8*00; GOOD
it reserves, to write alone; send 0 5F 01 01 0000 00000018; 7*00 11 16*00; GOOD
the second sets; forward 1 A4 0A 00000000 00000008; 00 00 00 00 00 00 00 02; CONFLICT
the second sets a bad list; forward 1 A4 0A 00000000 00000008; 00 00 00 00 01 00 00 01; CONFLICT
the second asks for the states; forward 1 A3 0A 00000000 000000FF;; GOOD 00 00 00 18 80 0F 00 01 00 00 00 01 00 00 00 01 01 0F 00 02 00
  00 00 01 00 00 00 02
the first sets; send 0 A4 0A 00000000 00000008; 00 00 00 00 02 00 00 02; GOOD
the second hears of it; forward 1 2A 00 00000001 00 0001; 512*11; CHECK 06 2A 06
its write is refused for the state first; forward 1 2A 00 00000001 00 0001; 512*11; CHECK 02 04 0B
the first writes; send 0 2A 00 00000001 00 0001; 512*5A; GOOD
written 1 5A

# Two opens are asked for, and then one that fails.
opens
opens 2
the second takes over; forward 1 A4 0A 00000000 00000008; 00 00 00 00 00 00 00 02; GOOD
it takes over again; send 1 A4 0A 00000000 00000008; 00 00 00 00 00 00 00 02; GOOD
it takes over a third time; send 1 A4 0A 00000000 00000008; 00 00 00 00 00 00 00 02; GOOD
the first group in standby; send 1 A4 0A 00000000 00000008; 00 00 00 00 02 00 00 01; GOOD
the unit moves nowhere; move;; NEITHER-CHANGES
the unit moves back; move; 00 00 00 00 00 00 00 01; BOTH-CHANGE 1
the second hears of it; forward 1 00;; CHECK 06 2A 06
the second takes over, and the open fails; forward 1 A4 0A 00000000 00000008; 00 00 00 00 00 00 00 02; CHECK 04 67 0A
the first still owns it; send 1 00;; MOVED 1
the unit does not move; move; 00 00 00 00 00 00 00 02; NOT-OPENED
the first hears what it had to; send 0 2A 00 00000001 00 0001; 512*11; CHECK 06 2A 06
the first writes; send 0 2A 00 00000001 00 0001; 512*5A; GOOD
written 1 5A

# A move is an entry, and one that is refused is none: a session's id tells how many entries there were.
moves
opens 2
a list of 6 bytes; move; 6*00; BAD-LENGTH
no owner; move; 00 00 00 00 01 00 00 01; BAD-LIST
a flush; flush;; DONE
another session; attach 3 1;; ATTACHED 5
the second takes over, and the first is unavailable; move; 00 00 00 00 00 00 00 02 03 00 00 01; BOTH-CHANGE 2
another session; attach 4 1;; ATTACHED 7
the first hears of it; forward 0 00;; CHECK 06 2A 06
the second hears of it; send 1 00;; CHECK 06 2A 06
the third hears of its power on first; forward 2 00;; CHECK 06 29 00
then of the move; forward 2 00;; CHECK 06 2A 06
the fourth came behind it; forward 3 00;; CHECK 06 29 00
the states; forward 0 A3 0A 00000000 000000FF;; GOOD 00 00 00 18 83 0F 00 01 00 02 00 01 00 00 00 01 00 0F 00 02 00 02 00 01 00 00 00 02
the first is served no more; forward 0 00;; CHECK 70 00 02 00 00 00 00 0A 00 00 00 00 04 0C 00 00 00 00
nor the fourth; forward 3 2A 00 00000001 00 0001; 512*11; CHECK 02 04 0C
the same again; move; 00 00 00 00 00 00 00 02 03 00 00 01; NEITHER-CHANGES
the states; forward 0 A3 0A 00000000 000000FF;; GOOD 00 00 00 18 83 0F 00 01 00 02 00 01 00 00 00 01 00 0F 00 02 00 02 00 01 00 00 00 02
the first brings its group back beside the owner; forward 0 A4 0A 00000000 00000008; 00 00 00 00 01 00 00 01; GOOD
the states; forward 0 A3 0A 00000000 000000FF;; GOOD 00 00 00 18 81 0F 00 01 00 01 00 01 00 00 00 01 00 0F 00 02 00 02 00 01 00 00 00 02
the first makes it the owner; forward 0 A4 0A 00000000 00000008; 00 00 00 00 00 00 00 01; GOOD
the states; send 0 A3 0A 00000000 000000FF;; GOOD 00 00 00 18 80 0F 00 01 00 01 00 01 00 00 00 01 01 0F 00 02 00 01 00 01 00 00 00 02
the first writes; send 0 2A 00 00000001 00 0001; 512*5A; GOOD
written 1 5A

a flush that fails
calls 0
a flush; flush;; FAILED
another session; attach 3 1;; ATTACHED 5
"#
}
