//! What a unit says of itself (SPC-4, 6.6, 6.13 and 6.33; SBC-3, READ CAPACITY commands).

pub fn rows() -> &'static str {
    r#"
identity
the first 8 bytes of the standard INQUIRY data; send 0 12 00 00 0008;; GOOD 00 00 06 12 1F 30 10 02
the pages that there are; send 0 12 01 00 00FF;; GOOD 00 00 00 04 00 80 83 B0
the designators through group 1; send 0 12 01 83 00FF;; GOOD 00 83 00 1C 01 03 00 08 30 00 00 00 00 01 00 00 51 94 00 04 00 00 00 01 51
  95 00 04 00 00 00 01
MODE SENSE (6) of all pages; send 0 1A 00 3F 00 FF;; GOOD 23 00 10 00 08 12 04 17*00 0A 0A 00 10 8*00
MODE SENSE (6) of saved values; send 0 1A 00 FF 00 FF;; CHECK 05 39 00
MODE SENSE (10) of saved values; send 0 5A 00 C8 00 000000 00FF;; CHECK 05 39 00
MODE SENSE (6) of an unknown page; send 0 1A 00 DC 00 FF;; CHECK 05 24 00
REPORT LUNS; send 0 A0 00 00 000000 000000FF;; GOOD 00 00 00 10 13*00 01 6*00
READ CAPACITY (10); send 0 25;; GOOD 0000000F 00000200
READ CAPACITY (16); send 0 9E 10 0000000000000000 000000FF;; GOOD 000000000000000F 00000200 20*00
a session through the second group; attach 1 2;; ATTACHED 12
the designators through group 2; forward 1 12 01 83 00FF;; GOOD 00 83 00 1C 01 03 00 08 30 00 00 00 00 01 00 00 51 94 00 04 00 00 00 02
  51 95 00 04 00 00 00 02
the standard INQUIRY data; send 0 12 00 00 00FF;; GOOD 00 00 06 12 1F 30 10 02 "TWINCTL ALUA DISK       0001"
the serial number; send 0 12 01 80 00FF;; GOOD 00 80 00 0A "0000000100"
block limits; send 0 12 01 B0 00FF;; GOOD 00 B0 00 3C 00 20 00 01 00 00 08 00 00 00 08 00 48*00
MODE SENSE (6) of the Control page; send 0 1A 00 8A 00 FF;; GOOD 0F 00 10 00 0A 0A 00 10 8*00
MODE SENSE (10) of the Caching page; send 0 5A 00 88 00 000000 00FF;; GOOD 00 1A 00 10 00 00 00 00 08 12 04 17*00
MODE SENSE (6) of what may be changed; send 0 1A 00 7F 00 FF;; GOOD 23 00 10 00 08 12 18*00 0A 0A 10*00
MODE SENSE (10) of what may be changed; send 0 5A 00 7F 00 000000 00FF;; GOOD 00 26 00 10 00 00 00 00 08 12 18*00 0A 0A 10*00
REPORT LUNS of all; send 0 A0 00 02 000000 000000FF;; GOOD 00 00 00 10 13*00 01 6*00
REPORT LUNS of well known logical units; send 0 A0 00 01 000000 000000FF;; GOOD 8*00
"#
}
