//! Unit attention conditions, each told to a session once (SAM-5, 5.14): a power on, a reset, a reservation that another session
//! changed, access states that changed. REQUEST SENSE tells one as its data (SPC-4, 6.39).

pub fn rows() -> &'static str {
    r#"
TEST UNIT READY
a session attaches; attach 1 1;; ATTACHED 0
TEST UNIT READY; send 0 00;; CHECK 70 00 06 00 00 00 00 0A 00 00 00 00 29 00 00 00 00 00
TEST UNIT READY again; send 0 00;; GOOD

an unknown operation code
a session attaches; attach 1 1;; ATTACHED 0
an unknown operation code; send 0 04;; CHECK 06 29 00
the same again; send 0 04;; CHECK 05 20 00

a unit attention is told before a fault of the command
a session attaches; attach 1 1;; ATTACHED 0
a WRITE; send 0 2A 00 00000005 00 0001; 512*5A; CHECK 06 29 00
its nexus attaches again; attach 1 1;; ATTACHED 2
a bad field; send 1 28 00 00000000 00 0801;; CHECK 06 29 00
the same again; send 1 28 00 00000000 00 0801;; CHECK 05 24 00
its nexus attaches a third time; attach 1 1;; ATTACHED 5
a range past the end; send 2 28 00 0000000F 00 0002;; CHECK 06 29 00
the same again; send 2 28 00 0000000F 00 0002;; CHECK 05 21 00

commands that pass
a session attaches; attach 1 1;; ATTACHED 0
INQUIRY; send 0 12 00 00 0001;; GOOD 00
REPORT LUNS; send 0 A0 00 00 000000 00000004;; GOOD 00000010
a bad INQUIRY; send 0 12 00 80 0001;; CHECK 05 24 00
a bad REPORT LUNS; send 0 A0 00 03 000000 00000010;; CHECK 05 24 00
a bad REQUEST SENSE; send 0 03 01 0000 FC;; CHECK 05 24 00
what is still to be told; send 0 00;; CHECK 06 29 00
nothing more; send 0 00;; GOOD

REQUEST SENSE
a session attaches; attach 1 1;; ATTACHED 0
REQUEST SENSE; send 0 03 00 0000 FC;; GOOD 70 00 06 00 00 00 00 0A 00 00 00 00 29 00 00 00 00 00
TEST UNIT READY; send 0 00;; GOOD
REQUEST SENSE with nothing to tell; send 0 03 00 0000 FC;; GOOD 70 00 00 00 00 00 00 0A 10*00
another session attaches; attach 2 1;; ATTACHED 4
its REQUEST SENSE with the allocation length 0, which clears its power on; send 1 03 00 0000 00;; GOOD
its TEST UNIT READY is told nothing; send 1 00;; GOOD

# When the first session resets the unit, the third has not been told of its power on. It is told of both at once: 29/00 stands for either.
resets and the end of a session
the first session; attach 1 1;; ATTACHED 0
its power on; send 0 00;; CHECK 06 29 00
the second session; attach 2 1;; ATTACHED 2
its power on; send 1 00;; CHECK 06 29 00
the third session; attach 3 1;; ATTACHED 4
the first resets the unit; reset 0;; DONE
the sender is told nothing; send 0 00;; GOOD
the second is told; send 1 00;; CHECK 06 29 00
the second is told once; send 1 00;; GOOD
the third is told; send 2 00;; CHECK 06 29 00
the third is told once; send 2 00;; GOOD
the second resets the unit; reset 1;; DONE
the second resets it again; reset 1;; DONE
the first is told; send 0 00;; CHECK 06 29 00
the first is told once; send 0 00;; GOOD
the second session ends; detach 1;; DONE
the first is told nothing; send 0 00;; GOOD
its nexus attaches; attach 2 1;; ATTACHED 17
the new session; send 3 00;; CHECK 06 29 00

# B is registered by the other nexus of its port, whose ALL_TG_PT registers both; so it hears of all without a command of its own.
five attentions, each once, in the order in which they came
A; attach 1 1;; ATTACHED 0
its power on; send 0 00;; CHECK 06 29 00
the other nexus of B; attach 2 2;; ATTACHED 2
its power on; forward 1 00;; CHECK 06 29 00
B, which waits for its power on; attach 2 1;; ATTACHED 4
A registers; send 0 5F 00 00 0000 00000018; 15*00 11 8*00; GOOD
A reserves; send 0 5F 01 05 0000 00000018; 7*00 11 16*00; GOOD
both nexuses of B are registered; forward 1 5F 00 00 0000 00000018; 15*00 22 4*00 04 3*00; GOOD
A releases; send 0 5F 02 05 0000 00000018; 7*00 11 16*00; GOOD
A reserves and releases again; send 0 5F 01 05 0000 00000018; 7*00 11 16*00; GOOD
the same code again; send 0 5F 02 05 0000 00000018; 7*00 11 16*00; GOOD
A preempts both; send 0 5F 04 05 0000 00000018; 7*00 11 7*00 22 8*00; GOOD
the other nexus hears of a release; forward 1 00;; CHECK 06 2A 04
and of the preempt; forward 1 00;; CHECK 06 2A 05
both are registered once more; forward 1 5F 00 00 0000 00000018; 15*00 22 4*00 04 3*00; GOOD
A clears; send 0 5F 03 00 0000 00000018; 7*00 11 16*00; GOOD
A makes the second group standby; send 0 A4 0A 00000000 00000008; 4*00 02 00 00 02; GOOD
B hears of its power on; send 2 00;; CHECK 06 29 00
of the release; send 2 00;; CHECK 06 2A 04
of the preempt; send 2 00;; CHECK 06 2A 05
of the clear; send 2 00;; CHECK 06 2A 03
of the access states; send 2 00;; CHECK 06 2A 06
and of nothing more; send 2 00;; GOOD
A hears of none of its own; send 0 00;; GOOD
"#
}
