//! Header segments by their names (RFC 7143, section 11): each is one of two plain ones and what differs from it, in the notation of
//! lines.
use crate::lines::{Texts, text_named};

/// A plain request in words of four bytes: a NOP-Out with F and no data, to LUN 0, with the tag 1, CmdSN 1 and ExpStatSN 1.
const REQUEST: &str =
    "00800000 00000000 00000000 00000000 00000001 00000000 00000001 00000001 00000000 00000000 00000000 00000000";

/// A plain answer: a NOP-In with F and no data, for the tag 1, with StatSN 1, ExpCmdSN 2 and MaxCmdSN 33.
const ANSWER: &str =
    "20800000 00000000 00000000 00000000 00000001 00000000 00000001 00000002 00000021 00000000 00000000 00000000";

/// The header segment of this name: the digits of a plain one, and what differs from it.
pub(crate) fn header_named(name: &str) -> Option<(&'static str, &'static str)> {
    match text_named(requests(), name) {
        Some(differing) => Some((REQUEST, differing)),
        None => match text_named(answers(), name) {
            Some(differing) => Some((ANSWER, differing)),
            None => None,
        },
    }
}

// What differs from the plain request in each other one.
fn requests() -> Texts<'static> {
    &[
        // A SCSI Command with the attribute SIMPLE, whose CDB of zeros is that of TEST UNIT READY. In byte 1, C1h has R, A1h
        // W, and E1h both.
        ("COMMAND", "0:0181"),
        ("TEST_UNIT_READY", "0:0181"),
        // WRITE (10) of one block at block 5, which expects 512 bytes and brings none.
        ("WRITE", "0:01A1 20:00000200 32:2A 37:05 40:01"),
        // The Data-Out of 512 bytes for it, which has no CmdSN.
        ("DATA_OUT", "0:05 5:000200 24:00000000"),
        ("NOP_OUT", "20:FFFFFFFF"),
        // A logout for the reason 0, which stands in byte 1.
        ("LOGOUT", "0:06"),
        ("TEXT_REQUEST", "0:04 20:FFFFFFFF"),
        // A task management request, whose function stands in byte 1.
        ("TASK_REQUEST", "0:02"),
        // A Login Request of stage 1, ready for full feature phase, of the ISID 400001370000h, with ExpStatSN 0 (11.12).
        ("LOGIN", "0:4387 8:400001370000 28:00000000"),
    ]
}

// What differs from the plain answer in each other one.
fn answers() -> Texts<'static> {
    &[
        // The answer of TEST UNIT READY. In byte 1, 82h has U, and 84h O (11.4.1).
        ("GOOD", "0:21"),
        // CHECK CONDITION for it, with 20 bytes of SenseLength and sense.
        ("CHECK_CONDITION", "0:21 3:02 5:000014"),
        // The Data-In of all the data, with no Target Transfer Tag and no StatSN; its length is still 0.
        ("DATA_IN", "0:25 20:FFFFFFFF 24:00000000"),
        // The R2T for all the data of WRITE: no status yet, whose StatSN will be 1, and MaxCmdSN 32, as it waits.
        ("R2T", "0:31 32:00000020 44:00000200"),
        // A Reject for the reason 0, with 48 bytes of data, before anything was accepted: ExpCmdSN 1 and MaxCmdSN 32.
        (
            "REJECT",
            "0:3F 5:000030 16:FFFFFFFF 28:00000001 32:00000020",
        ),
        ("NOP_IN", "20:FFFFFFFF"),
        // The answer of a logout, with Time2Wait 2 and Time2Retain 0; the response stands in byte 2.
        ("LOGGED_OUT", "0:26 40:0002"),
        ("TEXT_RESPONSE", "0:24 20:FFFFFFFF"),
        // The answer of a task management request; the response stands in byte 2.
        ("TASK_RESPONSE", "0:22"),
        // The response to a Login Request, where it begins the session with the TSIH 1: ExpCmdSN 1 and MaxCmdSN 32 (11.13).
        (
            "LOGGED_IN",
            "0:2387 8:4000013700000001 28:00000001 32:00000020",
        ),
        // The same, where it is refused as an initiator error: neither T, NSG nor text.
        (
            "LOGIN_REFUSED",
            "0:2304 8:400001370000 28:00000001 32:00000020 36:0200",
        ),
        // The response to another PDU of an initiator before a Login Request: ExpCmdSN 0, MaxCmdSN 31, and invalid during login.
        ("NOT_IN_LOGIN", "0:2300 28:00000000 32:0000001F 36:020B"),
    ]
}
