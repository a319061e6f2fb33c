//! Logins that are refused at a later request (RFC 7143, 6.2, 6.3 and 11.13.5).
use crate::tables::Table;
use crate::tables::Table::{Alike, Rows};

/// The tables.
pub fn tables() -> &'static [Table] {
    &[
        // The flags of the first of two requests, what the second one has, and the refusal with its status: for flags, and for texts.
        Alike(
            "flags and texts of later requests",
            r#"
[0]
login 1
> LOGIN [1] 7:43 NAMES
> LOGIN [2]
> LOGIN 7:56 HOST_A
< LOGGED_IN [1] 7:17 14:0000 "TargetPortalGroupTag=1\0"
< LOGIN_REFUSED [3]
end LoginRefused [4]
"#,
            r#"
stage 1, where stage 0 stays; 1:00;; 24:00000002; 0200
stage 0, where stage 1 is next; 1:81; 1:81; 1:00 24:00000002; 0200
stage 3, where stage 1 is next; 1:81; 1:8F; 1:0C 24:00000002; 0200
T with C; 1:00; 1:C1; 1:00 24:00000002; 0200
from stage 1 to stage 1; 1:81; 1:85; 24:00000002; 0200
a pair without =; 1:81; 7:04 "X-a\0"; 24:00000002; 0200
a last pair without its zero byte; 1:81; 7:10 "ImmediateData=No"; 24:00000002; 0200
a key twice; 1:81; 7:22 "ImmediateData=No\0ImmediateData=No\0"; 24:00000002; 0200
AuthMethod without None; 1:00; 1:81 7:10 "AuthMethod=CHAP\0"; 1:00 24:00000002 37:01; 0201
"#,
        ),
        Rows(
            "keys and limits of a negotiation",
            r#"
a key of an earlier request
login 1
> LOGIN 1:00 7:54 NAMES "ImmediateData=No\0"
> LOGIN 1:83 7:11 "ImmediateData=No\0"
> LOGIN 7:56 HOST_A
< LOGGED_IN 1:00 7:28 14:0000 "TargetPortalGroupTag=1\0ImmediateData=No\0"
< LOGIN_REFUSED 1:00 24:00000002
end LoginRefused 0200

64 pairs, and one more
login 1
> LOGIN 1:00 6:0179 NAMES "k00=\0k01=\0k02=\0k03=\0k04=\0k05=\0k06=\0k07=\0k08=\0k09=\0k10=\0k11=\0k12=\0k13=\0k14=\0"
  "k15=\0k16=\0k17=\0k18=\0k19=\0k20=\0k21=\0k22=\0k23=\0k24=\0k25=\0k26=\0k27=\0k28=\0k29=\0k30=\0k31=\0k32=\0k33=\0"
  "k34=\0k35=\0k36=\0k37=\0k38=\0k39=\0k40=\0k41=\0k42=\0k43=\0k44=\0k45=\0k46=\0k47=\0k48=\0k49=\0k50=\0k51=\0k52=\0"
  "k53=\0k54=\0k55=\0k56=\0k57=\0k58=\0k59=\0k60=\0k61=\0"
> LOGIN 1:83 7:05 "X-a=\0"
> LOGIN 7:56 HOST_A
< LOGGED_IN 1:00 6:0473 14:0000 "TargetPortalGroupTag=1\0k00=NotUnderstood\0k01=NotUnderstood\0k02=NotUnderstood\0"
  "k03=NotUnderstood\0k04=NotUnderstood\0k05=NotUnderstood\0k06=NotUnderstood\0k07=NotUnderstood\0k08=NotUnderstood\0"
  "k09=NotUnderstood\0k10=NotUnderstood\0k11=NotUnderstood\0k12=NotUnderstood\0k13=NotUnderstood\0k14=NotUnderstood\0"
  "k15=NotUnderstood\0k16=NotUnderstood\0k17=NotUnderstood\0k18=NotUnderstood\0k19=NotUnderstood\0k20=NotUnderstood\0"
  "k21=NotUnderstood\0k22=NotUnderstood\0k23=NotUnderstood\0k24=NotUnderstood\0k25=NotUnderstood\0k26=NotUnderstood\0"
  "k27=NotUnderstood\0k28=NotUnderstood\0k29=NotUnderstood\0k30=NotUnderstood\0k31=NotUnderstood\0k32=NotUnderstood\0"
  "k33=NotUnderstood\0k34=NotUnderstood\0k35=NotUnderstood\0k36=NotUnderstood\0k37=NotUnderstood\0k38=NotUnderstood\0"
  "k39=NotUnderstood\0k40=NotUnderstood\0k41=NotUnderstood\0k42=NotUnderstood\0k43=NotUnderstood\0k44=NotUnderstood\0"
  "k45=NotUnderstood\0k46=NotUnderstood\0k47=NotUnderstood\0k48=NotUnderstood\0k49=NotUnderstood\0k50=NotUnderstood\0"
  "k51=NotUnderstood\0k52=NotUnderstood\0k53=NotUnderstood\0k54=NotUnderstood\0k55=NotUnderstood\0k56=NotUnderstood\0"
  "k57=NotUnderstood\0k58=NotUnderstood\0k59=NotUnderstood\0k60=NotUnderstood\0k61=NotUnderstood\0"
< LOGIN_REFUSED 1:00 24:00000002
end LoginRefused 0200

64 pairs in a run with C, and one more: they are counted at once
login 1
> LOGIN 1:44 7:C0 64*"a=\0"
> LOGIN 1:44 7:03 "a=\0"
> LOGIN 7:56 HOST_A
< LOGGED_IN 1:04 14:0000
< LOGIN_REFUSED 24:00000002
end LoginRefused 0200

in a run with C the limit is met at once
login 1
> LOGIN 1:40 6:2000 NAMES "X-a=" 8121*61
> LOGIN 1:40 7:01 "\0"
> LOGIN 7:56 HOST_A
< LOGGED_IN 1:00 14:0000
< LOGIN_REFUSED 1:00 24:00000002
end LoginRefused 0200

what a run with C comes to is looked at behind it
login 1
> LOGIN 1:44 7:34 "InitiatorName=iqn.2000-01.test:a\0TargetName=iqn.2000"
> LOGIN 7:0B "-01.test:b\0"
> LOGIN 7:56 HOST_A
< LOGGED_IN 1:04 14:0000
< LOGIN_REFUSED 24:00000002 37:03
end LoginRefused 0203
"#,
        ),
        Rows(
            "runs that are refused",
            r#"
a run with C of another stage
login 1
> LOGIN 1:44 7:34 "InitiatorName=iqn.2000-01.test:a\0TargetName=iqn.2000"
> LOGIN 1:83 7:0F "-01.test:array\0"
> LOGIN 7:56 HOST_A
< LOGGED_IN 1:04 14:0000
< LOGIN_REFUSED 1:00 24:00000002
end LoginRefused 0200

a run with C that names a session
login 1
> LOGIN 1:44 7:19 14:0009 "InitiatorName=iqn.2000-01"
> LOGIN 7:2A 14:0009 ".test:a\0TargetName=iqn.2000-01.test:array\0"
> LOGIN 7:56 HOST_A
< LOGGED_IN 1:04 14:0000
< LOGIN_REFUSED 14:0009 24:00000002 37:0A
asked lives 9 iqn.2000-01.test:a 400001370000
end LoginRefused 020A

the target begins no session: the text of the last request is not answered
login 1
begin refused
> LOGIN 1:81 7:43 NAMES
> LOGIN 7:11 "ImmediateData=No\0"
> LOGIN 7:56 HOST_A
< LOGGED_IN 1:81 7:17 14:0000 "TargetPortalGroupTag=1\0"
< LOGIN_REFUSED 24:00000002 36:0302
asked begin iqn.2000-01.test:a 400001370000 Normal
end LoginRefused 0302
"#,
        ),
    ]
}
