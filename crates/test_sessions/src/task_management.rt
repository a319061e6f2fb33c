//! Task management (RFC 7143, 11.5 and 11.6), on a target of one unit.
use crate::tables::Table;
use crate::tables::Table::{Alike, Rows};

/// The tables.
pub fn tables() -> &'static [Table] {
    &[
        // Of each request what differs, its response, and what the target is asked.
        Alike(
            "requests",
            r"
[0]
> TASK_REQUEST [1]
< TASK_RESPONSE 2:[2]
[3]
",
            r"
ABORT TASK of a tag that no task has had: there is none; 1:81 20:00000009; 01
ABORT TASK SET; 1:82; 00
function 3 is not supported; 1:83; 05
function 4 is not supported; 1:84; 05
function 6 is not supported; 1:86; 05
function 7 is not supported; 1:87; 05
TASK REASSIGN; 1:88; 04
LOGICAL UNIT RESET; 1:85; 00; asked reset 0
LOGICAL UNIT RESET by the other form of the LUN; 1:85 8:40; 00; asked reset 0
ABORT TASK on unit 1, which is not there; 1:81 9:01; 02
ABORT TASK SET on unit 1, which is not there; 1:82 9:01; 02
LOGICAL UNIT RESET on unit 1, which is not there; 1:85 9:01; 02
LOGICAL UNIT RESET on a LUN that names no unit; 1:85 10:01; 02
TASK REASSIGN on unit 1, which is not there; 1:88 9:01; 04
",
        ),
        // What else comes with requests.
        Rows(
            "task management",
            r"
ABORT TASK of a task that ended: there is none
> TEST_UNIT_READY
> TASK_REQUEST 1:81 19:02 23:01 27:02
< GOOD
< TASK_RESPONSE 2:01 19:02 24:000000020000000300000022
asked 0 Ok(TestUnitReady)

LOGICAL UNIT RESET that failed
reset failed
> TASK_REQUEST 1:85
< TASK_RESPONSE 2:FF
asked reset 0

LOGICAL UNIT RESET, and the session is gone
reset gone
> TASK_REQUEST 1:85
> TEST_UNIT_READY 24:00000002
asked reset 0
end Reinstated

an immediate one takes no number
> TASK_REQUEST 0:4285
> TEST_UNIT_READY
< TASK_RESPONSE 24:000000010000000100000020
< GOOD 24:00000002
asked reset 0
asked 0 Ok(TestUnitReady)

outside the window it is ignored
> TASK_REQUEST 1:85 24:00000000
> TEST_UNIT_READY
< GOOD
asked 0 Ok(TestUnitReady)

inside the window, but not the next, it leaves a gap
> TASK_REQUEST 1:85 24:00000002
end Gap
",
        ),
        // A write that waits for its 512 bytes, by its R2T, and is dropped: it is not answered, and its Data-Out behind is passed over. The
        // request has CmdSN 2 and the tag 2. The third command has the tag 9, and its answer StatSN 2, ExpCmdSN 4 and MaxCmdSN 35, as no
        // write waits any more. Of each request what drops it, and what else the target is asked.
        Alike(
            "a write that is dropped",
            r"
[0]
> WRITE
> TASK_REQUEST [1] 19:02 27:02
> DATA_OUT pattern 512
> TEST_UNIT_READY 19:09 24:00000003
< R2T
< TASK_RESPONSE 2:00 19:02 31:03 35:22
< GOOD 19:09 24:000000020000000400000023
[2]
asked 0 Ok(TestUnitReady)
",
            r"
ABORT TASK drops it: it is not answered, and its Data-Out behind is passed over; 1:81 23:01
ABORT TASK SET by the other form of the LUN drops it; 1:82 8:40
LOGICAL UNIT RESET drops it, and the unit is reset; 1:85; asked reset 0
",
        ),
        // The same write, which each request leaves, and the response.
        Alike(
            "a write that is left",
            r"
[0]
> WRITE
> TASK_REQUEST [1] 19:02 27:02
> DATA_OUT pattern 512
< R2T
< TASK_RESPONSE 2:[2] 19:02 31:03
< GOOD 24:000000020000000300000022
asked 0 Ok(Write { lba: 5, blocks: 1, fua: false })
given pattern 512
",
            r"
ABORT TASK of another tag leaves it, and there is no such task; 1:81 23:07; 01
ABORT TASK on unit 1, which is not there, leaves it; 1:81 9:01 23:01; 02
TASK REASSIGN leaves it; 1:88 23:01; 04
",
        ),
        // A write and requests that are immediate, or come behind it.
        Rows(
            "a write that waits",
            r"
an immediate ABORT TASK drops it
> WRITE
> TASK_REQUEST 0:4281 19:02 23:01 27:02
> DATA_OUT pattern 512
< R2T
< TASK_RESPONSE 2:00 19:02

ABORT TASK of the write behind its last data: it ended, and there is no such task
> WRITE
> DATA_OUT pattern 512
> TASK_REQUEST 1:81 19:02 23:01 27:02
< R2T
< GOOD
< TASK_RESPONSE 2:01 19:02 24:000000020000000300000022
asked 0 Ok(Write { lba: 5, blocks: 1, fua: false })
given pattern 512
",
        ),
    ]
}
