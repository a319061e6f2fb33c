//! Logins that are refused for their names, session types, TSIH and AuthMethod (RFC 7143, 6.3 and 11.13.5).
use crate::tables::Table;
use crate::tables::Table::Rows;

/// The tables.
pub fn tables() -> &'static [Table] {
    &[
        Rows(
            "names that are missing",
            r#"
no text
login 1
> LOGIN
> LOGIN 7:56 HOST_A
< LOGIN_REFUSED 37:07
end LoginRefused 0207

no InitiatorName
login 1
> LOGIN 7:35 "TargetName=iqn.2000-01.test:array\0SessionType=Normal\0"
> LOGIN 7:56 HOST_A
< LOGIN_REFUSED 37:07
end LoginRefused 0207

no InitiatorName, in a discovery session of an unknown target
login 1
> LOGIN 7:34 "SessionType=Discovery\0TargetName=iqn.2000-01.test:b\0"
> LOGIN 7:56 HOST_A
< LOGIN_REFUSED 37:07
end LoginRefused 0207

no InitiatorName, and a session type that there is not
login 1
> LOGIN 7:34 "TargetName=iqn.2000-01.test:array\0SessionType=Other\0"
> LOGIN 7:56 HOST_A
< LOGIN_REFUSED 37:07
end LoginRefused 0207

a session type that there is not
login 1
> LOGIN 7:55 NAMES "SessionType=Other\0"
> LOGIN 7:56 HOST_A
< LOGIN_REFUSED 37:09
end LoginRefused 0209

an empty session type
login 1
> LOGIN 7:50 NAMES "SessionType=\0"
> LOGIN 7:56 HOST_A
< LOGIN_REFUSED 37:09
end LoginRefused 0209

the session type comes before the names of targets
login 1
> LOGIN 7:37 "InitiatorName=iqn.2000-01.test:a\0SessionType=discovery\0"
> LOGIN 7:56 HOST_A
< LOGIN_REFUSED 37:09
end LoginRefused 0209

no TargetName in a normal session
login 1
> LOGIN 7:34 "InitiatorName=iqn.2000-01.test:a\0SessionType=Normal\0"
> LOGIN 7:56 HOST_A
< LOGIN_REFUSED 37:07
end LoginRefused 0207

nor a SessionType
login 1
> LOGIN 7:21 "InitiatorName=iqn.2000-01.test:a\0"
> LOGIN 7:56 HOST_A
< LOGIN_REFUSED 37:07
end LoginRefused 0207
"#,
        ),
        Rows(
            "targets that are not there",
            r#"
an unknown target
login 1
> LOGIN 7:52 "InitiatorName=iqn.2000-01.test:a\0TargetName=iqn.2000-01.test:b\0SessionType=Normal\0"
> LOGIN 7:56 HOST_A
< LOGIN_REFUSED 37:03
end LoginRefused 0203

an empty TargetName
login 1
> LOGIN 7:2D "InitiatorName=iqn.2000-01.test:a\0TargetName=\0"
> LOGIN 7:56 HOST_A
< LOGIN_REFUSED 37:03
end LoginRefused 0203

a TargetName of 223 bytes
login 1
> LOGIN 6:010C "InitiatorName=iqn.2000-01.test:a\0TargetName=" 223*61 1*00
> LOGIN 7:56 HOST_A
< LOGIN_REFUSED 37:03
end LoginRefused 0203

a beginning of the target's name
login 1
> LOGIN 7:42 "InitiatorName=iqn.2000-01.test:a\0TargetName=iqn.2000-01.test:arra\0"
> LOGIN 7:56 HOST_A
< LOGIN_REFUSED 37:03
end LoginRefused 0203

a discovery session of an unknown target
login 1
> LOGIN 7:55 "InitiatorName=iqn.2000-01.test:a\0SessionType=Discovery\0TargetName=iqn.2000-01.test:b\0"
> LOGIN 7:56 HOST_A
< LOGIN_REFUSED 37:03
end LoginRefused 0203

an unknown target and a TSIH: the target is not asked
login 1
lives
> LOGIN 7:3F 14:0007 "InitiatorName=iqn.2000-01.test:a\0TargetName=iqn.2000-01.test:b\0"
> LOGIN 7:56 HOST_A
< LOGIN_REFUSED 14:0007 37:03
end LoginRefused 0203
"#,
        ),
        Rows(
            "sessions that are named",
            r#"
one connection more in a session that lives
login 1
lives
> LOGIN 7:56 14:0007 HOST_A
> LOGIN 7:56 HOST_A
< LOGIN_REFUSED 14:0007 37:06
asked lives 7 iqn.2000-01.test:a 400001370000
end LoginRefused 0206

a connection in a session that does not live
login 1
> LOGIN 7:56 14:0007 HOST_A
> LOGIN 7:56 HOST_A
< LOGIN_REFUSED 14:0007 37:0A
asked lives 7 iqn.2000-01.test:a 400001370000
end LoginRefused 020A

the TSIH FFFFh in a discovery session, from stage 0
login 1
> LOGIN 1:83 7:37 14:FFFF "InitiatorName=iqn.2000-01.test:a\0SessionType=Discovery\0"
> LOGIN 7:56 HOST_A
< LOGIN_REFUSED 1:00 14:FFFF 37:0A
asked lives 65535 iqn.2000-01.test:a 400001370000
end LoginRefused 020A

the TSIH comes before the authentication
login 1
lives
> LOGIN 7:66 14:1234 HOST_A "AuthMethod=CHAP\0"
> LOGIN 7:56 HOST_A
< LOGIN_REFUSED 14:1234 37:06
asked lives 4660 iqn.2000-01.test:a 400001370000
end LoginRefused 0206
"#,
        ),
        Rows(
            "what comes last",
            r#"
AuthMethod without None
login 1
> LOGIN 1:81 7:6A HOST_A "AuthMethod=CHAP,SRP\0"
> LOGIN 7:56 HOST_A
< LOGIN_REFUSED 1:00 37:01
end LoginRefused 0201

AuthMethod without None in stage 1
login 1
> LOGIN 7:66 HOST_A "AuthMethod=none\0"
> LOGIN 7:56 HOST_A
< LOGIN_REFUSED 37:01
end LoginRefused 0201

AuthMethod without a method
login 1
> LOGIN 7:62 HOST_A "AuthMethod=\0"
> LOGIN 7:56 HOST_A
< LOGIN_REFUSED 37:01
end LoginRefused 0201

the target begins no session
login 1
begin refused
> LOGIN 7:56 HOST_A
> LOGIN 7:56 HOST_A
< LOGIN_REFUSED 36:0302
asked begin iqn.2000-01.test:a 400001370000 Normal
end LoginRefused 0302

the target begins no discovery session
login 1
begin refused
> LOGIN 7:37 "InitiatorName=iqn.2000-01.test:a\0SessionType=Discovery\0"
> TEXT_REQUEST 7:10 "SendTargets=All\0"
< LOGIN_REFUSED 36:0302
asked begin iqn.2000-01.test:a 400001370000 Discovery
end LoginRefused 0302
"#,
        ),
    ]
}
