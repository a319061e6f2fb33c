//! Units that move between the groups, and one that can't be opened for its new owner.

/// Tables, as `run.rt` reads them.
pub fn tables() -> &'static str {
    r#"
opens 9 9
a session on each controller: attach 0 1 1, attach 0 2 2
  =>
  => 2 0 => 0 0 1 idle, 0 1 1 idle
the power on: submit 0 1 test, submit 1 1 test, take 1, take 1, serve 1, serve 0, post 0, post 1, collect 1, collect 0
  => 0 0 1 2 submitted, 0 1 1 2 submitted, 0 1 1 4 check 1 2 062900, 0 0 1 4 check 1 3 062900
  => 4 0 => 0 0 2 idle, 0 1 2 idle
the second group is to own it: submit 1 1 set 2, take 1, serve 1, post 1, collect 1
  => 0 1 2 4 submitted, 0 1 2 5 good 1 4
  => 5 0 => 0 0 2 idle, 0 1 3 idle
Moved: submit 0 1 test, take 1, serve 0, post 0, collect 0
  => 0 0 2 5 submitted
  => 5 0 => 0 0 2 returned, 0 1 3 idle
it submits no other: submit 0 2 test, take 2, serve 0
  =>
  => 5 0 => 0 0 2 returned, 0 1 3 idle
it submits again: again 0
  => 0 0 2 5 submitted
  => 5 0 => 0 0 2 waits, 0 1 3 idle
no job of the first group: take 1, serve 0
  =>
  => 5 0 => 0 0 2 waits, 0 1 3 idle
served by the second: take 2, serve 0, post 0, collect 0
  => 0 0 2 6 check 2 5 062A06
  => 6 0 => 0 0 3 idle, 0 1 3 idle
Moved, and moved back meanwhile: submit 0 1 test, take 1, serve 0, post 0, collect 0, again 0, take 2, move 0 1,
    serve 0, post 0, collect 0
  => 0 0 3 6 submitted, 0 0 3 6 submitted, 0 0 3 7 busy
  => 7 0 => 0 0 3 idle, 0 1 3 idle
the serial is not used up: submit 0 1 test, take 1, serve 0, post 0, collect 0
  => 0 0 3 7 submitted, 0 0 3 8 check 1 7 062A06
  => 8 0 => 0 0 4 idle, 0 1 3 idle

opens 0 9
a session of each unit: attach 0 1 1, attach 1 1 1
  =>
  => 1 1 => 0 0 1 idle, 1 0 1 idle
an open that fails: move 0 2
  =>
  => 1 1 => 0 0 1 idle, 1 0 1 idle
the other unit: move 1 1
  =>
  => 1 2 => 0 0 1 idle, 1 0 1 idle
both at one desk: submit 0 1 test, submit 1 1 test, take 1, take 1, serve 1, serve 0, post 1, collect 1, post 0,
    collect 0
  => 0 0 1 1 submitted, 1 0 1 2 submitted, 1 0 1 3 check 1 2 062900, 0 0 1 2 check 1 1 062900
  => 2 3 => 0 0 2 idle, 1 0 2 idle
the open fails for a session: submit 0 1 set 2, take 1, serve 0, post 0, collect 0
  => 0 0 2 2 submitted, 0 0 2 3 check 1 2 04670A
  => 3 3 => 0 0 3 idle, 1 0 2 idle
"#
}
