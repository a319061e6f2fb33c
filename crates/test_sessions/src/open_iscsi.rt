//! What the initiator open-iscsi sends, by what is known of it, and the answers by the rules. The keys and their order are
//! those of its `usr/login.c`, the values those that its `iscsid.conf` documents as defaults, and the discovery is that of
//! `iscsiadm -m discovery -t st`. The ISID and CmdSN 1 are such as it chooses; the tags stand for any.
use crate::tables::Table;
use crate::tables::Table::Rows;

/// The tables.
pub fn tables() -> &'static [Table] {
    &[
        // INQUIRY is answered by standard data of a disk (SPC-4, 6.6.2), READ CAPACITY (10) by 2048 blocks of 512 bytes (SBC-3).
        Rows(
            "what open iscsi sends",
            r#"
open-iscsi: a session, its first commands, and its logout
login 1
answer in-turn 000006121F301002 "TWINCTL ALUA DISK       0001" | | 000007FF00000200
> LOGIN 1:81 7:8E 8:00023D000000 16:00000000 24:0000000100000000
  "InitiatorName=iqn.1993-08.org.debian:01:5d4a7c91e2f0\0InitiatorAlias=host\0TargetName=iqn.2000-01.test:array\0"
  "SessionType=Normal\0AuthMethod=None\0"
> LOGIN 1:87 6:0137 8:00023D000000 16:00000000 24:0000000100000002 OPEN_ISCSI_KEYS
  "InitialR2T=No\0ImmediateData=Yes\0MaxBurstLength=16776192\0FirstBurstLength=262144\0MaxOutstandingR2T=1\0"
  "MaxConnections=1\0DataPDUInOrder=Yes\0DataSequenceInOrder=Yes\0MaxRecvDataSegmentLength=262144\0"
> COMMAND 1:C1 16:10000001000000240000000100000003120000002400
> TEST_UNIT_READY 16:10000002000000000000000200000004000000000000
> COMMAND 1:C1 16:1000000300000008000000030000000525000000000000000000
> LOGOUT 0:46 16:10000004 24:0000000400000006
< LOGGED_IN 1:81 7:27 8:00023D0000000000 16:00000000 24:000000010000000100000020 "TargetPortalGroupTag=1\0"
  "AuthMethod=None\0"
< LOGGED_IN 1:87 6:0134 8:00023D0000000001 16:00000000 24:000000020000000100000020 "MaxRecvDataSegmentLength=65536\0"
  OPEN_ISCSI_KEYS "InitialR2T=Yes\0ImmediateData=Yes\0MaxBurstLength=262144\0FirstBurstLength=65536\0"
  "MaxOutstandingR2T=1\0MaxConnections=1\0DataPDUInOrder=Yes\0DataSequenceInOrder=Yes\0"
< DATA_IN 7:24 16:10000001 28:0000000200000021 000006121F301002 "TWINCTL ALUA DISK       0001"
< GOOD 16:10000001 24:000000030000000200000021 36:00000001
< GOOD 16:10000002 24:000000040000000300000022
< DATA_IN 7:08 16:10000003 28:0000000400000023 000007FF00000200
< GOOD 16:10000003 24:000000050000000400000023 36:00000001
< LOGGED_OUT 16:10000004 24:000000060000000400000023
asked begin iqn.1993-08.org.debian:01:5d4a7c91e2f0 00023D000000 Normal
asked 0 Ok(Inquiry { page: Standard, allocation: 36 })
asked 0 Ok(TestUnitReady)
asked 0 Ok(ReadCapacity10)
end LoggedOut

open-iscsi: discovery
login 1
> LOGIN 1:81 7:6F 8:00023D000000 16:00000000 24:0000000100000000
  "InitiatorName=iqn.1993-08.org.debian:01:5d4a7c91e2f0\0InitiatorAlias=host\0SessionType=Discovery\0"
  "AuthMethod=None\0"
> LOGIN 1:87 7:96 8:00023D000000 16:00000000 24:0000000100000002 OPEN_ISCSI_KEYS
  "MaxRecvDataSegmentLength=32768\0"
> TEXT_REQUEST 7:10 16:00000001 24:0000000100000003 "SendTargets=All\0"
> LOGOUT 0:46 16:00000002 24:0000000200000004
< LOGGED_IN 1:81 7:10 8:00023D0000000000 16:00000000 24:000000010000000100000020 "AuthMethod=None\0"
< LOGGED_IN 1:87 7:96 8:00023D0000000001 16:00000000 24:000000020000000100000020 "MaxRecvDataSegmentLength=65536\0"
  OPEN_ISCSI_KEYS
< TEXT_RESPONSE 7:60 24:000000030000000200000021 THE_TARGET
< LOGGED_OUT 16:00000002 24:000000040000000200000021
asked begin iqn.1993-08.org.debian:01:5d4a7c91e2f0 00023D000000 Discovery
end LoggedOut
"#,
        ),
    ]
}
