//! What initiators are told of the portals (RFC 7143, appendix C).

pub fn scripts() -> &'static str {
    r#"
both portals are told
A at 1
A > LOGIN 7:37 FINDS
A < LOGGED_IN 7:1F "MaxRecvDataSegmentLength=65536\0"
A > TEXT_REQUEST 7:10 "SendTargets=All\0"
A told
A > LOGOUT
A < LOGGED_OUT
A over
B at 2
B > LOGIN 7:37 FINDS
B < LOGGED_IN 7:1F 15:02 "MaxRecvDataSegmentLength=65536\0"
B > TEXT_REQUEST 7:10 "SendTargets=All\0"
B told
"#
}
