//! What the tools of libiscsi send from their login to their logout, and the answers by the rules. The bytes of the login, of a
//! discovery and of the commands are those that the tools of Debian 12 (libiscsi-bin 1.19.0) sent to an array, where `srand` of
//! the C library did nothing: ISID, tag and CmdSN are random, and these are the first three numbers of its `rand`.
use crate::tables::Table;
use crate::tables::Table::Rows;

/// The tables.
pub fn tables() -> &'static [Table] {
    &[
        // INQUIRY is answered by standard data of a disk (SPC-4, 6.6.2), READ CAPACITY (16) by 2048 blocks of 512 bytes (SBC-3).
        Rows(
            "what libiscsi sends",
            r#"
libiscsi: the session of iscsi-inq, which asks for the capacity too
login 1
answer in-turn | 000006121F301002 "TWINCTL ALUA DISK       0001" |
  00000000000007FF000002000000000000000000000000000000000000000000
> LOGIN 6:01B2 8:808B45670000 16:327B23C6 24:643C986900000001
  "InitiatorName=iqn.2007-10.com.github:sahlberg:libiscsi:iscsi-inq\0TargetName=iqn.2000-01.test:array\0"
  "SessionType=Normal\0HeaderDigest=None,CRC32C\0" LIBISCSI_OFFERS
> TEST_UNIT_READY 16:327B23C700000000643C986900000002
> COMMAND 1:C1 16:327B23C800000040643C986A00000003120000004000
> COMMAND 1:C1 16:327B23C900000020643C986B000000049E100000000000000000000000200000
> LOGOUT 0:46 16:327B23CA 24:643C986C00000005
< LOGGED_IN 6:014B 8:808B456700000001 16:327B23C6 24:00000001643C9869643C9888 WELCOME LIBISCSI_AGREED
< GOOD 16:327B23C7 24:00000002643C986A643C9889
< DATA_IN 7:24 16:327B23C8 28:643C986B643C988A 000006121F301002 "TWINCTL ALUA DISK       0001"
< GOOD 1:82 16:327B23C8 24:00000003643C986B643C988A 36:00000001 44:0000001C
< DATA_IN 7:20 16:327B23C9 28:643C986C643C988B 00000000000007FF000002000000000000000000000000000000000000000000
< GOOD 16:327B23C9 24:00000004643C986C643C988B 36:00000001
< LOGGED_OUT 16:327B23CA 24:00000005643C986C643C988B
asked begin iqn.2007-10.com.github:sahlberg:libiscsi:iscsi-inq 808B45670000 Normal
asked 0 Ok(TestUnitReady)
asked 0 Ok(Inquiry { page: Standard, allocation: 64 })
asked 0 Ok(ReadCapacity16 { allocation: 32 })
end LoggedOut

libiscsi: the discovery of iscsi-ls
login 1
> LOGIN 6:018B 8:808B45670000 16:327B23C6 24:643C986900000001
  "InitiatorName=iqn.2007-10.com.github:sahlberg:libiscsi:iscsi-ls\0SessionType=Discovery\0HeaderDigest=None\0"
  LIBISCSI_OFFERS
> TEXT_REQUEST 0:44 7:10 16:327B23C7 24:643C986900000002 "SendTargets=All\0"
> LOGOUT 0:46 16:327B23C8 24:643C986900000003
< LOGGED_IN 6:0134 8:808B456700000001 16:327B23C6 24:00000001643C9869643C9888 "MaxRecvDataSegmentLength=65536\0"
  LIBISCSI_AGREED
< TEXT_RESPONSE 7:60 16:327B23C7 24:00000002643C9869643C9888 THE_TARGET
< LOGGED_OUT 16:327B23C8 24:00000003643C9869643C9888
asked begin iqn.2007-10.com.github:sahlberg:libiscsi:iscsi-ls 808B45670000 Discovery
end LoggedOut
"#,
        ),
    ]
}
