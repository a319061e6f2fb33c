//! Logins that are refused for their flags and versions (RFC 7143, 6.3.1, 11.12 and 11.13.5): 0200 and 0205.
use crate::tables::Table;
use crate::tables::Table::Rows;

/// The tables.
pub fn tables() -> &'static [Table] {
    &[
        // A refusal has neither T, C, NSG nor text. The target is asked nothing, and nothing behind it is looked at.
        Rows(
            "flags and versions",
            r#"
T with C
login 1
> LOGIN 1:C7 7:56 HOST_A
> LOGIN 7:56 HOST_A
< LOGIN_REFUSED
end LoginRefused 0200

stage 2
login 1
> LOGIN 1:8B 7:56 HOST_A
> LOGIN 7:56 HOST_A
< LOGIN_REFUSED 1:08
end LoginRefused 0200

stage 3
login 1
> LOGIN 1:8F 7:56 HOST_A
> LOGIN 7:56 HOST_A
< LOGIN_REFUSED 1:0C
end LoginRefused 0200

stage 3, without T
login 1
> LOGIN 1:0C 7:56 HOST_A
> LOGIN 7:56 HOST_A
< LOGIN_REFUSED 1:0C
end LoginRefused 0200

from stage 1 to stage 1
login 1
> LOGIN 1:85 7:56 HOST_A
> LOGIN 7:56 HOST_A
< LOGIN_REFUSED
end LoginRefused 0200

from stage 1 to stage 0
login 1
> LOGIN 1:84 7:56 HOST_A
> LOGIN 7:56 HOST_A
< LOGIN_REFUSED
end LoginRefused 0200

from stage 1 to stage 2
login 1
> LOGIN 1:86 7:56 HOST_A
> LOGIN 7:56 HOST_A
< LOGIN_REFUSED
end LoginRefused 0200

from stage 0 to stage 0
login 1
> LOGIN 1:80 7:56 HOST_A
> LOGIN 7:56 HOST_A
< LOGIN_REFUSED 1:00
end LoginRefused 0200

from stage 0 to stage 2
login 1
> LOGIN 1:82 7:56 HOST_A
> LOGIN 7:56 HOST_A
< LOGIN_REFUSED 1:00
end LoginRefused 0200

C in stage 2
login 1
> LOGIN 1:48 7:56 HOST_A
> LOGIN 7:56 HOST_A
< LOGIN_REFUSED 1:08
end LoginRefused 0200

Version-min 1
login 1
> LOGIN 3:01 7:56 HOST_A
> LOGIN 7:56 HOST_A
< LOGIN_REFUSED 37:05
end LoginRefused 0205

Version-min 255, and a text of 8193 bytes
login 1
> LOGIN 3:FF 6:2001 NAMES "X-a=" 8121*61 1*00
> LOGIN 7:56 HOST_A
< LOGIN_REFUSED 37:05
end LoginRefused 0205

the flags come first, then the version, then the names
login 1
> LOGIN 1:84 3:01 7:06 "X-a=1\0"
> LOGIN 7:56 HOST_A
< LOGIN_REFUSED
end LoginRefused 0200

the version comes before the names
login 1
> LOGIN 3:01 7:06 "X-a=1\0"
> LOGIN 7:56 HOST_A
< LOGIN_REFUSED 37:05
end LoginRefused 0205

its ISID, tag, CmdSN and TSIH come back
login 1
> LOGIN 1:81 7:06 8:80123456789A1234 16:0A0B0C0D 24:01020304 "X-a=1\0"
> LOGIN 7:56 HOST_A
< LOGIN_REFUSED 1:00 8:80123456789A1234 16:0A0B0C0D 24:000000010102030401020323 37:07
end LoginRefused 0207
"#,
        ),
    ]
}
