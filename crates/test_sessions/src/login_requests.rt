//! Logins of several requests that are accepted (RFC 7143, 6.2, 6.3 and 11.12).
use crate::tables::Table;
use crate::tables::Table::{Alike, Rows};

/// The tables.
pub fn tables() -> &'static [Table] {
    &[
        // A second request, of which each row says what of it does not count: it is answered as if that were not there.
        Alike(
            "what does not count of a second request",
            r#"
[0]
login 1
> LOGIN 1:81 7:43 NAMES
> LOGIN [1]
< LOGGED_IN 1:81 7:17 14:0000 "TargetPortalGroupTag=1\0"
< LOGGED_IN 7:1F 24:00000002 "MaxRecvDataSegmentLength=65536\0"
asked begin iqn.2000-01.test:a 400001370000 Normal
"#,
            r#"
other names in the second request: those of the first stand;
  7:55 "InitiatorName=iqn.2000-01.test:b\0TargetName=iqn.2000-01.test:b\0SessionType=Discovery\0"
a name twice in the second request: it is passed over; 7:27 "SessionType=Discovery\0SessionType=None\0"
Version-min and TSIH of a later request are not looked at; 3:01 14:0007
"#,
        ),
        // Login responses have TSIH 0 until the last.
        Rows(
            "several requests",
            r#"
stage 0, then stage 1, with the names again
login 1
each-place
> LOGIN 1:81 7:66 HOST_A "AuthMethod=None\0"
> LOGIN 7:CD HOST_A "HeaderDigest=CRC32C,None\0InitialR2T=No\0MaxBurstLength=16776192\0"
  "FirstBurstLength=262144\0MaxRecvDataSegmentLength=262144\0"
< LOGGED_IN 1:81 7:27 14:0000 "TargetPortalGroupTag=1\0AuthMethod=None\0"
< LOGGED_IN 7:6D 24:00000002 "MaxRecvDataSegmentLength=65536\0HeaderDigest=None\0InitialR2T=Yes\0"
  "MaxBurstLength=262144\0FirstBurstLength=65536\0"
asked begin iqn.2000-01.test:a 400001370000 Normal

requests that stay in their stage; NSG is not looked at then, and 0 in the response
login 1
> LOGIN 1:00 7:43 NAMES
> LOGIN 1:03
> LOGIN 1:81
> LOGIN 1:04
> LOGIN 1:07 7:11 "ImmediateData=No\0"
> LOGIN
< LOGGED_IN 1:00 7:17 14:0000 "TargetPortalGroupTag=1\0"
< LOGGED_IN 1:00 14:0000 24:00000002
< LOGGED_IN 1:81 14:0000 24:00000003
< LOGGED_IN 1:04 7:1F 14:0000 24:00000004 "MaxRecvDataSegmentLength=65536\0"
< LOGGED_IN 1:04 7:11 14:0000 24:00000005 "ImmediateData=No\0"
< LOGGED_IN 24:00000006
asked begin iqn.2000-01.test:a 400001370000 Normal

a text in several requests: each with C has an empty response
login 1
> LOGIN 1:40 7:19 "InitiatorName=iqn.2000-01"
> LOGIN 1:40 7:2E ".test:a\0TargetName=iqn.2000-01.test:array\0Auth"
> LOGIN 1:81 7:0C "Method=None\0"
> LOGIN 1:44 7:0F "ImmediateData=N"
> LOGIN 7:02 "o\0"
< LOGGED_IN 1:00 14:0000
< LOGGED_IN 1:00 14:0000 24:00000002
< LOGGED_IN 1:81 7:27 14:0000 24:00000003 "TargetPortalGroupTag=1\0AuthMethod=None\0"
< LOGGED_IN 1:04 14:0000 24:00000004
< LOGGED_IN 7:30 24:00000005 "MaxRecvDataSegmentLength=65536\0ImmediateData=No\0"
asked begin iqn.2000-01.test:a 400001370000 Normal

the same in stage 1 alone: what the target says by itself waits for the last
login 1
> LOGIN 1:44 7:27 "InitiatorName=iqn.2000-01.test:a\0Target"
> LOGIN 7:1C "Name=iqn.2000-01.test:array\0"
< LOGGED_IN 1:04 14:0000
< LOGGED_IN 7:36 24:00000002 WELCOME
asked begin iqn.2000-01.test:a 400001370000 Normal

the CmdSN of the first request alone counts
login 1
> LOGIN 1:81 7:43 24:00000007 NAMES
> LOGIN 24:00000009
> TEST_UNIT_READY 24:00000007
< LOGGED_IN 1:81 7:17 14:0000 24:000000010000000700000026 "TargetPortalGroupTag=1\0"
< LOGGED_IN 7:1F 24:000000020000000700000026 "MaxRecvDataSegmentLength=65536\0"
< GOOD 24:000000030000000800000027
asked begin iqn.2000-01.test:a 400001370000 Normal
asked 0 Ok(TestUnitReady)
"#,
        ),
    ]
}
