//! Devices of 16 blocks that fail. Each call of a device is the read or the write of a run, or a flush.

/// Each command is the first of a session, which is ready behind it. Of each: behind how many calls the device fails, the command, its
/// data, its end, how many blocks the run lands at which the device fails, and what is written then.
pub fn commands() -> (&'static str, &'static str) {
    let form = "
[0]
calls [1]
[5]
the command; send 0 [2]; [3]; [4]
TEST UNIT READY; send 0 00;; GOOD
[6]
[7]
[8]
[9]
";
    let rows = "
WRITE of 4 blocks fails; 0; 2A 00 0000000A 00 0004; 2048*5A; CHECK 70 00 03 00 00 00 00 0A 00 00 00 00 0C 00 00 00 00 00
WRITE of 4 blocks fails behind two; 0; 2A 00 0000000A 00 0004; 2048*5A; CHECK 03 0C 00; lands 2; written 10 5A;
  written 11 5A
WRITE of 4 blocks fails behind the last; 0; 2A 00 0000000A 00 0004; 2048*5A; CHECK 03 0C 00; lands 4; written 10 5A;
  written 11 5A; written 12 5A; written 13 5A
WRITE of no block; 0; 2A 00 0000000A 00 0000;; GOOD
WRITE with FUA, the flush fails; 1; 2A 08 00000000 00 0001; 512*5A; CHECK 03 0C 00;; written 0 5A
WRITE without FUA flushes nothing; 1; 2A 00 00000000 00 0001; 512*5A; GOOD;; written 0 5A
READ fails; 0; 28 00 0000000A 00 0002;; CHECK 03 11 00
READ, one call; 1; 28 00 0000000A 00 0002;; GOOD 1024*00
READ with FUA, the flush fails; 0; 28 08 0000000A 00 0002;; CHECK 03 0C 00
READ with FUA, the read fails; 1; 28 08 0000000A 00 0002;; CHECK 03 11 00
READ with FUA, two calls; 2; 28 08 0000000A 00 0002;; GOOD 1024*00
SYNCHRONIZE CACHE, the flush fails; 0; 35;; CHECK 03 0C 00
SYNCHRONIZE CACHE, one call; 1; 35;; GOOD
a range past the end, before the device; 0; 28 00 0000000F 00 0002;; CHECK 05 21 00
# The range is compared, then written, and with FUA there is a flush.
no call; 0; 89 00 000000000000000A 000000 02; 1024*00 1024*5A; CHECK 03 11 00
one call; 1; 89 00 000000000000000A 000000 02; 1024*00 1024*5A; CHECK 03 0C 00
one call, and one block of the second; 1; 89 00 000000000000000A 000000 02; 1024*00 1024*5A; CHECK 03 0C 00; lands 1;
  written 10 5A
two calls; 2; 89 00 000000000000000A 000000 02; 1024*00 1024*5A; GOOD;; written 10 5A; written 11 5A
two calls with FUA; 2; 89 08 000000000000000A 000000 02; 1024*00 1024*5A; CHECK 03 0C 00;; written 10 5A; written 11 5A
three calls with FUA; 3; 89 08 000000000000000A 000000 02; 1024*00 1024*5A; GOOD;; written 10 5A; written 11 5A
one call, and a difference; 1; 89 08 000000000000000A 000000 02; 1023*00 1025*5A;
  CHECK F0 00 0E 00 00 03 FF 0A 00 00 00 00 1D 00 00 00 00 00
";
    (form, rows)
}
