//! Connections for which there is no thread.

pub fn scripts() -> &'static str {
    r#"
a connection without a thread is closed; no thread for two
# Two connections to each portal find no thread: they are closed. The next one is served.
A at 1
A over
B at 2
B over
C at 1
C over
D at 2
D over
E comes 1 / HOST_A / WELCOME
E power
F comes 2 / HOST_B / 15:02 WELCOME_2
E does TEST_UNIT_READY
"#
}
