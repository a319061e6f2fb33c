//! Logout (RFC 7143, 11.14 and 11.15).
use crate::tables::Table;
use crate::tables::Table::Rows;

/// The tables.
pub fn tables() -> &'static [Table] {
    &[Rows(
        "logout",
        r"
reason 0 closes the session, and nothing behind it is served
> LOGOUT
> TEST_UNIT_READY 24:00000002
< LOGGED_OUT
end LoggedOut

reason 1 closes the connection, which is the only one
> LOGOUT 1:81
< LOGGED_OUT
end LoggedOut

reason 2 asks for a recovery that is not served
> LOGOUT 1:82
> TEST_UNIT_READY 24:00000002
< LOGGED_OUT 2:02
< GOOD 24:000000020000000300000022
asked 0 Ok(TestUnitReady)

reason 127 is none
> LOGOUT 1:FF
< LOGGED_OUT 2:02

an immediate one behind a command takes no number
> TEST_UNIT_READY
> LOGOUT 0:46
< GOOD
< LOGGED_OUT 24:00000002
asked 0 Ok(TestUnitReady)
end LoggedOut

outside the window it is ignored
> LOGOUT 24:00000000
> TEST_UNIT_READY
< GOOD
asked 0 Ok(TestUnitReady)
",
    )]
}
