//! Logins of one request that are accepted (RFC 7143, 6.3, 11.12 and 11.13).
use crate::tables::Table;
use crate::tables::Table::Rows;

/// The tables.
pub fn tables() -> &'static [Table] {
    &[
        // 86 bytes are the text of a login of one request, 67 of them the names of both sides; 54 bytes are what the target says
        // by itself. The target is asked once to begin the session.
        Rows(
            "one request",
            r#"
one request of stage 1
login 1
each-place
> LOGIN 7:56 HOST_A
< LOGGED_IN 7:36 WELCOME
asked begin iqn.2000-01.test:a 400001370000 Normal

without SessionType it is a normal session
login 1
> LOGIN 7:43 NAMES
< LOGGED_IN 7:36 WELCOME
asked begin iqn.2000-01.test:a 400001370000 Normal

the target gives the last TSIH
login 1
begin 65535
> LOGIN 7:56 HOST_A
< LOGGED_IN 7:36 14:FFFF WELCOME
asked begin iqn.2000-01.test:a 400001370000 Normal

by a portal of group 2
login 2
> LOGIN 7:56 HOST_A
< LOGGED_IN 7:36 "TargetPortalGroupTag=2\0MaxRecvDataSegmentLength=65536\0"
asked begin iqn.2000-01.test:a 400001370000 Normal

another ISID and tag; Version-max, CID and ExpStatSN are not looked at
login 1
> LOGIN 2:05 7:56 8:80123456789A 16:0A0B0C0D 20:0009 28:01020304 HOST_A
< LOGGED_IN 7:36 8:80123456789A 16:0A0B0C0D WELCOME
asked begin iqn.2000-01.test:a 80123456789A Normal

from stage 0 straight to full feature phase: the target does not say its length
login 1
> LOGIN 1:83 7:53 NAMES "AuthMethod=None\0"
< LOGGED_IN 1:83 7:27 "TargetPortalGroupTag=1\0AuthMethod=None\0"
asked begin iqn.2000-01.test:a 400001370000 Normal

a key of 63 bytes that nobody knows
login 1
> LOGIN 7:85 NAMES "X-aaaaaaaaaaaaaaaaaaaaaaaaaaaaaaaaaaaaaaaaaaaaaaaaaaaaaaaaaaaaa=1\0"
< LOGGED_IN 7:84 WELCOME "X-aaaaaaaaaaaaaaaaaaaaaaaaaaaaaaaaaaaaaaaaaaaaaaaaaaaaaaaaaaaaa=NotUnderstood\0"
asked begin iqn.2000-01.test:a 400001370000 Normal

64 pairs
login 1
> LOGIN 6:0179 NAMES "k00=\0k01=\0k02=\0k03=\0k04=\0k05=\0k06=\0k07=\0k08=\0k09=\0k10=\0k11=\0k12=\0k13=\0k14=\0"
  "k15=\0k16=\0k17=\0k18=\0k19=\0k20=\0k21=\0k22=\0k23=\0k24=\0k25=\0k26=\0k27=\0k28=\0k29=\0k30=\0k31=\0k32=\0k33=\0"
  "k34=\0k35=\0k36=\0k37=\0k38=\0k39=\0k40=\0k41=\0k42=\0k43=\0k44=\0k45=\0k46=\0k47=\0k48=\0k49=\0k50=\0k51=\0k52=\0"
  "k53=\0k54=\0k55=\0k56=\0k57=\0k58=\0k59=\0k60=\0k61=\0"
< LOGGED_IN 6:0492 WELCOME "k00=NotUnderstood\0k01=NotUnderstood\0k02=NotUnderstood\0k03=NotUnderstood\0"
  "k04=NotUnderstood\0k05=NotUnderstood\0k06=NotUnderstood\0k07=NotUnderstood\0k08=NotUnderstood\0k09=NotUnderstood\0"
  "k10=NotUnderstood\0k11=NotUnderstood\0k12=NotUnderstood\0k13=NotUnderstood\0k14=NotUnderstood\0k15=NotUnderstood\0"
  "k16=NotUnderstood\0k17=NotUnderstood\0k18=NotUnderstood\0k19=NotUnderstood\0k20=NotUnderstood\0k21=NotUnderstood\0"
  "k22=NotUnderstood\0k23=NotUnderstood\0k24=NotUnderstood\0k25=NotUnderstood\0k26=NotUnderstood\0k27=NotUnderstood\0"
  "k28=NotUnderstood\0k29=NotUnderstood\0k30=NotUnderstood\0k31=NotUnderstood\0k32=NotUnderstood\0k33=NotUnderstood\0"
  "k34=NotUnderstood\0k35=NotUnderstood\0k36=NotUnderstood\0k37=NotUnderstood\0k38=NotUnderstood\0k39=NotUnderstood\0"
  "k40=NotUnderstood\0k41=NotUnderstood\0k42=NotUnderstood\0k43=NotUnderstood\0k44=NotUnderstood\0k45=NotUnderstood\0"
  "k46=NotUnderstood\0k47=NotUnderstood\0k48=NotUnderstood\0k49=NotUnderstood\0k50=NotUnderstood\0k51=NotUnderstood\0"
  "k52=NotUnderstood\0k53=NotUnderstood\0k54=NotUnderstood\0k55=NotUnderstood\0k56=NotUnderstood\0k57=NotUnderstood\0"
  "k58=NotUnderstood\0k59=NotUnderstood\0k60=NotUnderstood\0k61=NotUnderstood\0"
asked begin iqn.2000-01.test:a 400001370000 Normal

8192 bytes
login 1
> LOGIN 6:2000 NAMES "X-a=" 8120*61 1*00
< LOGGED_IN 7:48 WELCOME "X-a=NotUnderstood\0"
asked begin iqn.2000-01.test:a 400001370000 Normal
"#,
        ),
        // In a text of its own, whose lines can be broken.
        Rows(
            "the longest name",
            "
a name of 223 bytes
login 1
> LOGIN 6:0110 \"TargetName=iqn.2000-01.test:array\\0InitiatorName=\" 223*61 1*00
< LOGGED_IN 7:36 WELCOME
asked begin \
     aaaaaaaaaaaaaaaaaaaaaaaaaaaaaaaaaaaaaaaaaaaaaaaaaaaaaaaaaaaaaaaaaaaaaaaaaaaaaaaaaaaaaaaaaaaaaaaaaaaaaaaaaaaaaaaa\
     aaaaaaaaaaaaaaaaaaaaaaaaaaaaaaaaaaaaaaaaaaaaaaaaaaaaaaaaaaaaaaaaaaaaaaaaaaaaaaaaaaaaaaaaaaaaaaaaaaaaaaaaaaaaaaa 400001370000 Normal
",
        ),
    ]
}
