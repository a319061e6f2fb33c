//! Logins that are refused for the form and the length of their texts (RFC 7143, 6.1 and 6.2).
use crate::tables::Table;
use crate::tables::Table::Rows;

/// The tables.
pub fn tables() -> &'static [Table] {
    &[
        // Each is refused with 0200.
        Rows(
            "texts",
            r#"
a pair without =
login 1
> LOGIN 7:47 NAMES "X-a\0"
> LOGIN 7:56 HOST_A
< LOGIN_REFUSED
end LoginRefused 0200

an empty key
login 1
> LOGIN 7:46 NAMES "=1\0"
> LOGIN 7:56 HOST_A
< LOGIN_REFUSED
end LoginRefused 0200

a key of 64 bytes
login 1
> LOGIN 7:86 NAMES "X-aaaaaaaaaaaaaaaaaaaaaaaaaaaaaaaaaaaaaaaaaaaaaaaaaaaaaaaaaaaaaa=1\0"
> LOGIN 7:56 HOST_A
< LOGIN_REFUSED
end LoginRefused 0200

an empty pair
login 1
> LOGIN 7:44 NAMES "\0"
> LOGIN 7:56 HOST_A
< LOGIN_REFUSED
end LoginRefused 0200

a last pair without its zero byte
login 1
> LOGIN 7:55 NAMES "SessionType=Normal"
> LOGIN 7:56 HOST_A
< LOGIN_REFUSED
end LoginRefused 0200

a key twice
login 1
> LOGIN 7:67 NAMES "ImmediateData=Yes\0ImmediateData=Yes\0"
> LOGIN 7:56 HOST_A
< LOGIN_REFUSED
end LoginRefused 0200

a key twice that nobody knows
login 1
> LOGIN 7:4F NAMES "X-a=1\0X-a=2\0"
> LOGIN 7:56 HOST_A
< LOGIN_REFUSED
end LoginRefused 0200

the text comes before the names
login 1
> LOGIN 7:0C "X-a=1\0X-a=2\0"
> LOGIN 7:56 HOST_A
< LOGIN_REFUSED
end LoginRefused 0200

a name twice
login 1
> LOGIN 7:64 NAMES "InitiatorName=iqn.2000-01.test:a\0"
> LOGIN 7:56 HOST_A
< LOGIN_REFUSED
end LoginRefused 0200

65 pairs
login 1
> LOGIN 6:017E NAMES "k00=\0k01=\0k02=\0k03=\0k04=\0k05=\0k06=\0k07=\0k08=\0k09=\0k10=\0k11=\0k12=\0k13=\0k14=\0"
  "k15=\0k16=\0k17=\0k18=\0k19=\0k20=\0k21=\0k22=\0k23=\0k24=\0k25=\0k26=\0k27=\0k28=\0k29=\0k30=\0k31=\0k32=\0k33=\0"
  "k34=\0k35=\0k36=\0k37=\0k38=\0k39=\0k40=\0k41=\0k42=\0k43=\0k44=\0k45=\0k46=\0k47=\0k48=\0k49=\0k50=\0k51=\0k52=\0"
  "k53=\0k54=\0k55=\0k56=\0k57=\0k58=\0k59=\0k60=\0k61=\0k62=\0"
> LOGIN 7:56 HOST_A
< LOGIN_REFUSED
end LoginRefused 0200

8193 bytes
login 1
> LOGIN 6:2001 NAMES "X-a=" 8121*61 1*00
> LOGIN 7:56 HOST_A
< LOGIN_REFUSED
end LoginRefused 0200

65536 bytes
login 1
> LOGIN 5:010000 NAMES "X-a=" 65464*61 1*00
> LOGIN 7:56 HOST_A
< LOGIN_REFUSED
end LoginRefused 0200

an empty InitiatorName
login 1
> LOGIN 7:31 "InitiatorName=\0TargetName=iqn.2000-01.test:array\0"
> LOGIN 7:56 HOST_A
< LOGIN_REFUSED
end LoginRefused 0200

an InitiatorName of 224 bytes
login 1
> LOGIN 6:0111 "TargetName=iqn.2000-01.test:array\0InitiatorName=" 224*61 1*00
> LOGIN 7:56 HOST_A
< LOGIN_REFUSED
end LoginRefused 0200

a TargetName of 224 bytes
login 1
> LOGIN 6:010D "InitiatorName=iqn.2000-01.test:a\0TargetName=" 224*61 1*00
> LOGIN 7:56 HOST_A
< LOGIN_REFUSED
end LoginRefused 0200
"#,
        ),
    ]
}
