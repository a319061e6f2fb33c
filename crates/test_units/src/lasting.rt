//! What of the registrations outlasts a loss of power (SPC-4, 5.13.5).

// In a list of PERSISTENT RESERVE OUT, the byte 01h behind both keys and four bytes is APTPL.
pub fn rows() -> &'static str {
    r#"
# A restart begins with PRGENERATION 0, and with the sessions that attach then.
what lasts
opens 0
saves always
what a fresh unit can; send 0 5E 02 0000000000 00FF;; GOOD 00 08 05 80 EA 01 00 00
it registers, to last; send 0 5F 00 00 0000 00000018; 15*00 11 4*00 01 3*00; GOOD
what the unit says then; send 0 5E 02 0000000000 00FF;; GOOD 00 08 05 81 EA 01 00 00
it reserves; send 0 5F 01 05 0000 00000018; 7*00 11 16*00; GOOD
the power is lost; restart;; DONE
it attaches; attach 1 1;; ATTACHED 0
the power on; send 0 00;; CHECK 06 29 00
its key; send 0 5E 00 0000000000 00FF;; GOOD 7*00 08 7*00 11
its reservation; send 0 5E 01 0000000000 00FF;; GOOD 7*00 10 7*00 11 5*00 05 00 00
what the unit says; send 0 5E 02 0000000000 00FF;; GOOD 00 08 05 81 EA 01 00 00
another attaches; attach 2 1;; ATTACHED 5
the power on; send 1 00;; CHECK 06 29 00
its write is fenced; send 1 2A 00 00000001 00 0001; 512*11; CONFLICT
the first writes; send 0 2A 00 00000001 00 0001; 512*5A; GOOD
it registers again, not to last; send 0 5F 00 00 0000 00000018; 7*00 11 7*00 11 8*00; GOOD
what the unit says then; send 0 5E 02 0000000000 00FF;; GOOD 00 08 05 80 EA 01 00 00
it still holds the reservation; send 1 2A 00 00000001 00 0001; 512*11; CONFLICT
the power is lost; restart;; DONE
it attaches; attach 1 1;; ATTACHED 0
the power on; send 0 00;; CHECK 06 29 00
nobody is registered; send 0 5E 00 0000000000 00FF;; GOOD 8*00
what the unit says; send 0 5E 02 0000000000 00FF;; GOOD 00 08 05 80 EA 01 00 00
written 1 5A

# Two saves are done, and then none. What saves nothing calls no device, until a save has failed.
saves
opens 0
saves 8
it registers, to last; send 0 5F 00 00 0000 00000018; 15*00 11 4*00 01 3*00; GOOD
it reserves; send 0 5F 01 05 0000 00000018; 7*00 11 16*00; GOOD
it reserves again; send 0 5F 01 05 0000 00000018; 7*00 11 16*00; GOOD
a conflict; send 0 5F 00 00 0000 00000018; 15*00 22 4*00 01 3*00; CONFLICT
it releases, and the save fails; send 0 5F 02 05 0000 00000018; 7*00 11 16*00; CHECK 70 00 04 00 00 00 00 0A 00 00 00 00 44 00 00 00 00
  00
it holds the reservation still; send 0 5E 01 0000000000 00FF;; GOOD 00 00 00 01 00 00 00 10 7*00 11 5*00 05 00 00
it reserves again, in doubt; send 0 5F 01 05 0000 00000018; 7*00 11 16*00; CHECK 04 44 00
a conflict, in doubt; send 0 5F 00 00 0000 00000018; 15*00 22 4*00 01 3*00; CONFLICT
it writes; send 0 2A 00 00000001 00 0001; 512*5A; GOOD
the power is lost; restart;; DONE
it attaches; attach 1 1;; ATTACHED 0
the power on; send 0 00;; CHECK 06 29 00
its reservation; send 0 5E 01 0000000000 00FF;; GOOD 7*00 10 7*00 11 5*00 05 00 00
it releases; send 0 5F 02 05 0000 00000018; 7*00 11 16*00; GOOD
the power is lost; restart;; DONE
it attaches; attach 1 1;; ATTACHED 0
the power on; send 0 00;; CHECK 06 29 00
no reservation; send 0 5E 01 0000000000 00FF;; GOOD 8*00
written 1 5A

# Two saves are done, and then none: nobody hears of a PREEMPT that could not be saved.
a PREEMPT that is not saved
opens 0
saves 8
another session; attach 2 1;; ATTACHED 2
its power on; send 1 00;; CHECK 06 29 00
the first registers, to last; send 0 5F 00 00 0000 00000018; 15*00 11 4*00 01 3*00; GOOD
the second registers, to last; send 1 5F 00 00 0000 00000018; 15*00 22 4*00 01 3*00; GOOD
the first preempts the second; send 0 5F 04 05 0000 00000018; 7*00 11 7*00 22 8*00; CHECK 04 44 00
the second hears nothing; send 1 00;; GOOD
both keys, and as many changes; send 1 5E 00 0000000000 00FF;; GOOD 00 00 00 02 00 00 00 10 7*00 11 7*00 22
the first writes; send 0 2A 00 00000001 00 0001; 512*5A; GOOD
written 1 5A

# A registration that is not to last is not saved.
not to last
opens 0
saves 0
it registers; send 0 5F 00 00 0000 00000018; 15*00 11 8*00; GOOD
it reserves; send 0 5F 01 05 0000 00000018; 7*00 11 16*00; GOOD
it writes; send 0 2A 00 00000001 00 0001; 512*5A; GOOD
the power is lost; restart;; DONE
it attaches; attach 1 1;; ATTACHED 0
the power on; send 0 00;; CHECK 06 29 00
nobody is registered; send 0 5E 00 0000000000 00FF;; GOOD 8*00
written 1 5A

# A save that fails at each of its calls, and one that is done: the root is written in the last call but one.
a save behind so many calls
opens 0
saves N
each 5
it registers, to last; send 0 5F 00 00 0000 00000018; 15*00 11 4*00 01 3*00; CHECK 70 00 04 00 00 00 00 0A 00 00 00 00 44 00 00 00 00 00
  | CHECK 70 00 04 00 00 00 00 0A 00 00 00 00 44 00 00 00 00 00
  | CHECK 70 00 04 00 00 00 00 0A 00 00 00 00 44 00 00 00 00 00
  | CHECK 70 00 04 00 00 00 00 0A 00 00 00 00 44 00 00 00 00 00 | GOOD
who is registered; send 0 5E 00 0000000000 00FF;; GOOD 8*00 | GOOD 8*00 | GOOD 8*00 | GOOD 8*00
  | GOOD 00 00 00 01 00 00 00 08 7*00 11
what the unit says; send 0 5E 02 0000000000 00FF;; GOOD 00 08 05 80 EA 01 00 00 | GOOD 00 08 05 80 EA 01 00 00
  | GOOD 00 08 05 80 EA 01 00 00 | GOOD 00 08 05 80 EA 01 00 00 | GOOD 00 08 05 81 EA 01 00 00
the power is lost; restart;; DONE
it attaches; attach 1 1;; ATTACHED 0
the power on; send 0 00;; CHECK 06 29 00
who is registered then; send 0 5E 00 0000000000 00FF;; GOOD 8*00 | GOOD 8*00 | GOOD 8*00 | GOOD 7*00 08 7*00 11
  | GOOD 7*00 08 7*00 11
"#
}

// 64 registrants with the key 5A5A5A5A5A5A5A5Ah, to last. All of them are found behind a restart, and hold a reservation.
pub fn many() -> (&'static str, &'static str) {
    let form = "[0]
opens 0
saves always
numbers 0 [1]
a session; attach N 1;; ATTACHED 3N
its power on; send N 00;; CHECK 06 29 00
it registers, to last; send N 5F 00 00 0000 00000018; 8*00 8*5A 4*00 [2] 3*00; GOOD
numbers 0 1
the first reserves; send 0 5F 01 08 0000 00000018; 8*5A 16*00; GOOD
the power is lost; restart;; DONE
it attaches; attach 0 1;; ATTACHED 0
the power on; send 0 00;; CHECK 06 29 00
64 keys; send 0 5E 00 0000000000 0208;; GOOD 6*00 02 00 512*5A
their reservation; send 0 5E 01 0000000000 00FF;; GOOD 7*00 10 13*00 08 00 00";
    let lines = "64 ports, each through one group; 64; 01
32 ports, each through both groups; 32; 05";
    (form, lines)
}
