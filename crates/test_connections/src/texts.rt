//! Texts of logins that tests of several crates name (RFC 7143, 13).
use crate::lines::Texts;

/// What the initiator `a` says of itself, and what it logs in to: a normal session.
pub const HOST_A: &str =
    r"InitiatorName=iqn.2000-01.test:a\0TargetName=iqn.2000-01.test:array\0SessionType=Normal\0";

/// What controller 1 says by itself.
pub const WELCOME: &str = r"TargetPortalGroupTag=1\0MaxRecvDataSegmentLength=65536\0";

/// What the target tells of itself: its name, and a portal of each controller.
pub const THE_TARGET: &str =
    r"TargetName=iqn.2000-01.test:array\0TargetAddress=127.0.0.1:3260,1\0TargetAddress=127.0.0.1:3264,2\0";

/// What the tools of libiscsi 1.19.0 (that of Debian 12) offer in a login without a user, behind the names, SessionType and
/// HeaderDigest, which is `None` in a discovery session and `None,CRC32C` in a normal one. The login is one request, of stage 1.
pub const LIBISCSI_OFFERS: &str =
    "DataDigest=None\\0InitialR2T=No\\0ImmediateData=Yes\\0MaxBurstLength=262144\\0FirstBurstLength=262144\\0\
     DefaultTime2Wait=2\\0DefaultTime2Retain=0\\0MaxOutstandingR2T=1\\0ErrorRecoveryLevel=0\\0IFMarker=No\\0\
     OFMarker=No\\0MaxConnections=1\\0MaxRecvDataSegmentLength=262144\\0DataPDUInOrder=Yes\\0\
     DataSequenceInOrder=Yes\\0";

/// What they are answered, behind what the target says by itself.
pub const LIBISCSI_AGREED: &str =
    "HeaderDigest=None\\0DataDigest=None\\0InitialR2T=Yes\\0ImmediateData=Yes\\0MaxBurstLength=262144\\0\
     FirstBurstLength=65536\\0DefaultTime2Wait=2\\0DefaultTime2Retain=0\\0MaxOutstandingR2T=1\\0\
     ErrorRecoveryLevel=0\\0IFMarker=No\\0OFMarker=No\\0MaxConnections=1\\0DataPDUInOrder=Yes\\0\
     DataSequenceInOrder=Yes\\0";

/// What the initiators `a`, `b` and `other` say of themselves in a login, and `a` in one of discovery; what each controller says by
/// itself; what the tools of libiscsi offer, and are answered.
pub fn host_texts() -> Texts<'static> {
    &[
        ("HOST_A", HOST_A),
        (
            "HOST_B",
            r"InitiatorName=iqn.2000-01.test:b\0TargetName=iqn.2000-01.test:array\0SessionType=Normal\0",
        ),
        (
            "OTHER_HOST",
            r"InitiatorName=iqn.2000-01.test:other\0TargetName=iqn.2000-01.test:array\0SessionType=Normal\0",
        ),
        (
            "FINDS",
            r"InitiatorName=iqn.2000-01.test:a\0SessionType=Discovery\0",
        ),
        ("WELCOME", WELCOME),
        (
            "WELCOME_2",
            r"TargetPortalGroupTag=2\0MaxRecvDataSegmentLength=65536\0",
        ),
        ("LIBISCSI_OFFERS", LIBISCSI_OFFERS),
        ("LIBISCSI_AGREED", LIBISCSI_AGREED),
    ]
}
