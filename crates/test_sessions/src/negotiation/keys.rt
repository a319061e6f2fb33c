//! Each key: values below, in and above its range, of a wrong form, and absent.
use crate::ends::must;
use crate::run::{part, run_form, spells};
use login::{Key, in_force};
use std::alloc::Global;
use std::process::Abort;
use std::test::*;

// A login that comes to stage 1 and makes an offer there. What the target says by itself takes 31 bytes.
fn form() -> &'static str {
    r#"
[0]: [1] is answered [3], and is then [5]
login 1
> LOGIN 1:81 7:43 NAMES
> LOGIN 7:[2] "[1]\0"
< LOGGED_IN 1:81 7:17 14:0000 "TargetPortalGroupTag=1\0"
< LOGGED_IN 7:[4] 24:00000002 "MaxRecvDataSegmentLength=65536\0[3]"
asked begin iqn.2000-01.test:a 400001370000 Normal
"#
}

// A line has a key, an offer in stage 1 and how many bytes it takes, the answer to it, if there is one, and how many bytes the target
// says then, and the key's value in force then (`Value`).
fn lists_of_words() -> &'static str {
    r"
AuthMethod; AuthMethod=None; 10; AuthMethod=None\0; 2F; Word(Unused)
AuthMethod; AuthMethod=CHAP,None; 15; AuthMethod=None\0; 2F; Word(Unused)
AuthMethod; InitiatorAlias=a; 11; ; 1F; Unset
HeaderDigest; HeaderDigest=None; 12; HeaderDigest=None\0; 31; Word(Unused)
HeaderDigest; HeaderDigest=CRC32C,None; 19; HeaderDigest=None\0; 31; Word(Unused)
HeaderDigest; HeaderDigest=CRC32C; 14; HeaderDigest=Reject\0; 33; Word(Unused)
HeaderDigest; HeaderDigest=; 0E; HeaderDigest=Reject\0; 33; Word(Unused)
HeaderDigest; HeaderDigest=none; 12; HeaderDigest=Reject\0; 33; Word(Unused)
HeaderDigest; InitiatorAlias=a; 11; ; 1F; Word(Unused)
DataDigest; DataDigest=CRC32C,None; 17; DataDigest=None\0; 2F; Word(Unused)
DataDigest; DataDigest=NoneOfThese; 17; DataDigest=Reject\0; 31; Word(Unused)
DataDigest; InitiatorAlias=a; 11; ; 1F; Word(Unused)
TaskReporting; TaskReporting=RFC3720; 16; TaskReporting=RFC3720\0; 35; Word(Rfc3720)
TaskReporting; TaskReporting=FastAbort,ResponseFence,RFC3720; 2E; TaskReporting=RFC3720\0; 35; Word(Rfc3720)
TaskReporting; TaskReporting=FastAbort; 18; TaskReporting=Reject\0; 34; Word(Rfc3720)
TaskReporting; InitiatorAlias=a; 11; ; 1F; Word(Rfc3720)
"
}

fn booleans() -> &'static str {
    r"
InitialR2T; InitialR2T=Yes; 0F; InitialR2T=Yes\0; 2E; Flag(true)
InitialR2T; InitialR2T=No; 0E; InitialR2T=Yes\0; 2E; Flag(true)
InitialR2T; InitialR2T=yes; 0F; InitialR2T=Reject\0; 31; Flag(true)
InitialR2T; InitiatorAlias=a; 11; ; 1F; Flag(true)
ImmediateData; ImmediateData=Yes; 12; ImmediateData=Yes\0; 31; Flag(true)
ImmediateData; ImmediateData=No; 11; ImmediateData=No\0; 30; Flag(false)
ImmediateData; ImmediateData=; 0F; ImmediateData=Reject\0; 34; Flag(true)
ImmediateData; InitiatorAlias=a; 11; ; 1F; Flag(true)
DataPDUInOrder; DataPDUInOrder=No; 12; DataPDUInOrder=Yes\0; 32; Flag(true)
DataPDUInOrder; DataPDUInOrder=1; 11; DataPDUInOrder=Reject\0; 35; Flag(true)
DataPDUInOrder; InitiatorAlias=a; 11; ; 1F; Flag(true)
DataSequenceInOrder; DataSequenceInOrder=No; 17; DataSequenceInOrder=Yes\0; 37; Flag(true)
DataSequenceInOrder; DataSequenceInOrder=NoNo; 19; DataSequenceInOrder=Reject\0; 3A; Flag(true)
DataSequenceInOrder; InitiatorAlias=a; 11; ; 1F; Flag(true)
IFMarker; IFMarker=Yes; 0D; IFMarker=No\0; 2B; Flag(false)
IFMarker; IFMarker=No; 0C; IFMarker=No\0; 2B; Flag(false)
IFMarker; IFMarker=2048; 0E; IFMarker=Reject\0; 2F; Flag(false)
IFMarker; InitiatorAlias=a; 11; ; 1F; Flag(false)
OFMarker; OFMarker=Yes; 0D; OFMarker=No\0; 2B; Flag(false)
OFMarker; OFMarker=; 0A; OFMarker=Reject\0; 2F; Flag(false)
OFMarker; InitiatorAlias=a; 11; ; 1F; Flag(false)
"
}

fn texts_and_unknown_keys() -> &'static str {
    r"
IFMarkInt; IFMarkInt=2048~65535; 15; IFMarkInt=Reject\0; 30; Unset
OFMarkInt; OFMarkInt=1; 0C; OFMarkInt=Reject\0; 30; Unset
InitiatorName; InitiatorName=iqn.2000-01.test:b; 21; ; 1F; Unset
InitiatorAlias; InitiatorAlias=; 10; ; 1F; Unset
TargetName; TargetName=iqn.2000-01.test:other; 22; ; 1F; Unset
SessionType; SessionType=Discovery; 16; ; 1F; Unset
TargetPortalGroupTag; TargetPortalGroupTag=7; 17; ; 1F; Unset
InitialR2T; X-com.vendor.key=Yes; 15; X-com.vendor.key=NotUnderstood\0; 3E; Flag(true)
InitialR2T; RDMAExtensions=Yes; 13; RDMAExtensions=NotUnderstood\0; 3C; Flag(true)
InitialR2T; InitiatorRecvDataSegmentLength=8192; 24; InitiatorRecvDataSegmentLength=NotUnderstood\0; 4C; Flag(true)
InitialR2T; iSCSIProtocolLevel=1; 15; iSCSIProtocolLevel=NotUnderstood\0; 40; Flag(true)
InitialR2T; SendTargets=All; 10; SendTargets=NotUnderstood\0; 39; Flag(true)
InitialR2T; initialr2t=No; 0E; initialr2t=NotUnderstood\0; 38; Flag(true)
"
}

fn lengths() -> &'static str {
    r"
MaxBurstLength; MaxBurstLength=511; 13; MaxBurstLength=Reject\0; 35; Number(262144)
MaxBurstLength; MaxBurstLength=512; 13; MaxBurstLength=512\0; 32; Number(512)
MaxBurstLength; MaxBurstLength=262145; 16; MaxBurstLength=262144\0; 35; Number(262144)
MaxBurstLength; MaxBurstLength=16777215; 18; MaxBurstLength=262144\0; 35; Number(262144)
MaxBurstLength; MaxBurstLength=16777216; 18; MaxBurstLength=Reject\0; 35; Number(262144)
MaxBurstLength; MaxBurstLength=0x10000; 17; MaxBurstLength=65536\0; 34; Number(65536)
MaxBurstLength; MaxBurstLength=0X3fFfF; 17; MaxBurstLength=262143\0; 35; Number(262143)
MaxBurstLength; MaxBurstLength=0x; 12; MaxBurstLength=Reject\0; 35; Number(262144)
MaxBurstLength; MaxBurstLength=1000h; 15; MaxBurstLength=Reject\0; 35; Number(262144)
MaxBurstLength; MaxBurstLength=99999999999999999999999; 27; MaxBurstLength=Reject\0; 35; Number(262144)
MaxBurstLength; MaxBurstLength=; 10; MaxBurstLength=Reject\0; 35; Number(262144)
MaxBurstLength; InitiatorAlias=a; 11; ; 1F; Number(262144)
FirstBurstLength; FirstBurstLength=511; 15; FirstBurstLength=Reject\0; 37; Number(65536)
FirstBurstLength; FirstBurstLength=8192; 16; FirstBurstLength=8192\0; 35; Number(8192)
FirstBurstLength; FirstBurstLength=262144; 18; FirstBurstLength=65536\0; 36; Number(65536)
FirstBurstLength; FirstBurstLength=16777215; 1A; FirstBurstLength=65536\0; 36; Number(65536)
FirstBurstLength; FirstBurstLength=16777216; 1A; FirstBurstLength=Reject\0; 37; Number(65536)
FirstBurstLength; FirstBurstLength=+8192; 17; FirstBurstLength=Reject\0; 37; Number(65536)
FirstBurstLength; InitiatorAlias=a; 11; ; 1F; Number(65536)
MaxRecvDataSegmentLength; MaxRecvDataSegmentLength=511; 1D; MaxRecvDataSegmentLength=Reject\0; 3F; Number(8192)
MaxRecvDataSegmentLength; MaxRecvDataSegmentLength=512; 1D; ; 1F; Number(512)
MaxRecvDataSegmentLength; MaxRecvDataSegmentLength=16777215; 22; ; 1F; Number(16777215)
MaxRecvDataSegmentLength; MaxRecvDataSegmentLength=16777216; 22; MaxRecvDataSegmentLength=Reject\0; 3F; Number(8192)
MaxRecvDataSegmentLength; MaxRecvDataSegmentLength=Yes; 1D; MaxRecvDataSegmentLength=Reject\0; 3F; Number(8192)
MaxRecvDataSegmentLength; InitiatorAlias=a; 11; ; 1F; Number(8192)
"
}

fn numbers() -> &'static str {
    r"
MaxConnections; MaxConnections=0; 11; MaxConnections=Reject\0; 35; Number(1)
MaxConnections; MaxConnections=8; 11; MaxConnections=1\0; 30; Number(1)
MaxConnections; MaxConnections=65535; 15; MaxConnections=1\0; 30; Number(1)
MaxConnections; MaxConnections=65536; 15; MaxConnections=Reject\0; 35; Number(1)
MaxConnections; MaxConnections=one; 13; MaxConnections=Reject\0; 35; Number(1)
MaxConnections; InitiatorAlias=a; 11; ; 1F; Number(1)
MaxOutstandingR2T; MaxOutstandingR2T=0; 14; MaxOutstandingR2T=Reject\0; 38; Number(1)
MaxOutstandingR2T; MaxOutstandingR2T=65535; 18; MaxOutstandingR2T=1\0; 33; Number(1)
MaxOutstandingR2T; MaxOutstandingR2T=65536; 18; MaxOutstandingR2T=Reject\0; 38; Number(1)
MaxOutstandingR2T; MaxOutstandingR2T=1,2; 16; MaxOutstandingR2T=Reject\0; 38; Number(1)
MaxOutstandingR2T; InitiatorAlias=a; 11; ; 1F; Number(1)
DefaultTime2Wait; DefaultTime2Wait=0; 13; DefaultTime2Wait=2\0; 32; Number(2)
DefaultTime2Wait; DefaultTime2Wait=3600; 16; DefaultTime2Wait=3600\0; 35; Number(3600)
DefaultTime2Wait; DefaultTime2Wait=3601; 16; DefaultTime2Wait=Reject\0; 37; Number(2)
DefaultTime2Wait; DefaultTime2Wait=-1; 14; DefaultTime2Wait=Reject\0; 37; Number(2)
DefaultTime2Wait; InitiatorAlias=a; 11; ; 1F; Number(2)
DefaultTime2Retain; DefaultTime2Retain=0; 15; DefaultTime2Retain=0\0; 34; Number(0)
DefaultTime2Retain; DefaultTime2Retain=3600; 18; DefaultTime2Retain=0\0; 34; Number(0)
DefaultTime2Retain; DefaultTime2Retain=3601; 18; DefaultTime2Retain=Reject\0; 39; Number(20)
DefaultTime2Retain; DefaultTime2Retain=20s; 17; DefaultTime2Retain=Reject\0; 39; Number(20)
DefaultTime2Retain; InitiatorAlias=a; 11; ; 1F; Number(20)
ErrorRecoveryLevel; ErrorRecoveryLevel=0; 15; ErrorRecoveryLevel=0\0; 34; Number(0)
ErrorRecoveryLevel; ErrorRecoveryLevel=2; 15; ErrorRecoveryLevel=0\0; 34; Number(0)
ErrorRecoveryLevel; ErrorRecoveryLevel=3; 15; ErrorRecoveryLevel=Reject\0; 39; Number(0)
ErrorRecoveryLevel; ErrorRecoveryLevel=No; 16; ErrorRecoveryLevel=Reject\0; 39; Number(0)
ErrorRecoveryLevel; InitiatorAlias=a; 11; ; 1F; Number(0)
"
}

// The value that is in force behind the offer of a line.
fn check_value(rt: &impl Abort, alloc: Global, line: &str) {
    let key = Key::named(part(line, 0).as_bytes()).expect(rt, line);
    let offer = format!(in alloc; "{}\0", part(line, 1)).expect(rt, "memory");
    let found = in_force(offer.as_bytes(), key);
    let is_right = spells(rt, alloc, &found, part(line, 5));
    must(rt, is_right, line, &found);
}

#[test]
fn each_key(rt: HostRuntime) {
    for lines in &[
        lists_of_words(),
        booleans(),
        texts_and_unknown_keys(),
        lengths(),
        numbers(),
    ] {
        run_form(&rt, rt.alloc(), "keys", form(), lines);
        for line in lines.trim().split('\n') {
            check_value(&rt, rt.alloc(), line);
        }
    }
}
