//! The data of PERSISTENT RESERVE IN, byte for byte; flags; and what lasts.

/// Rows as `run.rt` says.
pub fn rows() -> &'static str {
    r#"
the reservation of a holder
A Register 0 0 11; Good;; 1; 11; 0 0
A Reserve 5 11 0; Good;; 1; 11; 11 5
reservation 0
reservation 9 00000001 00000010 00
reservation 24 00000001 00000010 0000000000000011 00000000 00 05 0000
reservation 25 00000001 00000010 0000000000000011 00000000 00 05 0000

the full status of a registrant
A_LONG Register 0 0 11; Good;; 1; 11; 0 0
full-status 65535 00000001 00000040 0000000000000011 00000000 00 00 00000000 0001 00000028
 45 00 0024 "iqn.2000-01.test:a,i,0x400001370000\0"

the full status of every port
A_LONG Register 0 0 11 ALL_TG_PT; Good;; 1; 11 11; 0 0
full-status 65535 00000001 00000080
 0000000000000011 00000000 00 00 00000000 0001 00000028 45 00 0024 "iqn.2000-01.test:a,i,0x400001370000\0"
 0000000000000011 00000000 00 00 00000000 0002 00000028 45 00 0024 "iqn.2000-01.test:a,i,0x400001370000\0"

the full status of a holder
A Register 0 0 11; Good;; 1; 11; 0 0
A Reserve 5 11 0; Good;; 1; 11; 11 5
full-status 28 00000001 00000040 0000000000000011 00000000 01 05 00000000 0001

the capabilities without APTPL
capabilities 8 0008 05 80 EA01 0000
A Register 0 0 11; Good;; 1; 11; 0 0
capabilities 8 0008 05 80 EA01 0000

the capabilities with APTPL
A Register 0 0 11 APTPL; Good;; 1; 11; 0 0
capabilities 8 0008 05 81 EA01 0000

# SPEC_I_PT comes before the key, and ALL_TG_PT is looked at only where a nexus registers.
SPEC_I_PT
A Register 0 0 11 SPEC_I_PT; Illegal 26 00;; 0;; 0 0
A Reserve 5 11 0 SPEC_I_PT; Illegal 26 00;; 0;; 0 0

ALL_TG_PT
A Register 0 0 11 ALL_TG_PT; Good;; 1; 11 11; 0 0

ALL_TG_PT without a registration
A Reserve 5 11 0 ALL_TG_PT; Conflict;; 0;; 0 0

with APTPL
A Register 0 0 11 APTPL; Good;; 1; 11; 0 0
A Reserve 5 11 0; Good;; 1; 11; 11 5
copied
full-status 999 00000001 00000040 0000000000000011 00000000 01 05 00000000 0001 00000028
 45 00 0024 "iqn.2000-01.test:a,i,0x000000000000\0"
lasted
reservation 999 00000000 00000010 0000000000000011 00000000 00 05 0000
full-status 999 00000000 00000040 0000000000000011 00000000 01 05 00000000 0001 00000028
 45 00 0024 "iqn.2000-01.test:a,i,0x000000000000\0"

without APTPL
A Register 0 0 11; Good;; 1; 11; 0 0
A Reserve 5 11 0; Good;; 1; 11; 11 5
lasted
reservation 999 00000000 00000000
full-status 999 00000000 00000000
"#
}
