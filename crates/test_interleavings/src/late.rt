//! Commands whose flush comes behind them, beside what others do.

/// Tables, as `run.rt` reads them.
pub fn tables() -> &'static str {
    r#"
opens 9 9
two sessions, and the power on: attach 0 1 1, attach 0 2 1, begin 0 1 test, serve 0, post 0, collect 0,
    begin 1 1 test, serve 1, post 1, collect 1
  => 0 0 1 2 submitted, 0 0 1 3 check 1 2 062900, 0 1 1 3 submitted, 0 1 1 4 check 1 3 062900
  => 4 0 => 0 0 2 idle, 0 1 2 idle
a WRITE with FUA waits for its flush: submit-late 0 1 fua 1, take 1, serve 0, post 0, collect 0
  => 0 0 2 4 submitted, 0 0 2 5 flushes
  => 5 0 => 0 0 2 flushes, 0 1 2 idle
another session writes the same block meanwhile: begin 1 1 write 2, serve 1, post 1, collect 1
  => 0 1 2 5 submitted, 0 1 2 6 good 1 5
  => 6 0 => 0 0 2 flushes, 0 1 3 idle
nothing but its flush can end it: submit 0 1 test, begin 0 1 test, again 0, take 1, serve 0, post 0, collect 0,
    done 1, failed 1, done 7
  =>
  => 6 0 => 0 0 2 flushes, 0 1 3 idle
its flush is done: done 0
  => 0 0 2 6 good-behind 1 4
  => 6 0 => 0 0 3 idle, 0 1 3 idle
a flush ends once: done 0, failed 0
  =>
  => 6 0 => 0 0 3 idle, 0 1 3 idle
a SYNCHRONIZE CACHE, a write beside its flush, which is done: begin-late 0 1 synchronize, serve 0, post 0, collect 0,
    begin 1 1 write 3, serve 1, post 1, collect 1, done 0
  => 0 0 3 6 submitted, 0 0 3 7 flushes, 0 1 3 7 submitted, 0 1 3 8 good 1 7, 0 0 3 8 good-behind 1 6
  => 8 0 => 0 0 4 idle, 0 1 4 idle
a WRITE with FUA, a write beside its flush, which fails: begin-late 0 1 fua 4, serve 0, post 0, collect 0,
    begin 1 1 write 5, serve 1, post 1, collect 1, failed 0
  => 0 0 4 8 submitted, 0 0 4 9 flushes, 0 1 4 9 submitted, 0 1 4 10 good 1 9, 0 0 4 10 check-behind 1 8 030C00
  => 10 0 => 0 0 5 idle, 0 1 5 idle
a SYNCHRONIZE CACHE, a write beside its flush, which fails: begin-late 0 1 synchronize, serve 0, post 0, collect 0,
    begin 1 1 write 6, serve 1, post 1, collect 1, failed 0
  => 0 0 5 10 submitted, 0 0 5 11 flushes, 0 1 5 11 submitted, 0 1 5 12 good 1 11, 0 0 5 12 check-behind 1 10 030C00
  => 12 0 => 0 0 6 idle, 0 1 6 idle
both flush at once: begin-late 0 1 fua 7, serve 0, post 0, collect 0, begin-late 1 1 synchronize, serve 1, post 1,
    collect 1, done 1, failed 0
  => 0 0 6 12 submitted, 0 0 6 13 flushes, 0 1 6 13 submitted, 0 1 6 14 flushes, 0 1 6 14 good-behind 1 13,
    0 0 6 14 check-behind 1 12 030C00
  => 14 0 => 0 0 7 idle, 0 1 7 idle

opens 9 9
one session, and the power on: attach 0 1 1, begin 0 1 test, serve 0, post 0, collect 0
  => 0 0 1 1 submitted, 0 0 1 2 check 1 1 062900
  => 2 0 => 0 0 2 idle
its flush is under the lock: begin 0 1 fua 1, serve 0, post 0, collect 0
  => 0 0 2 2 submitted, 0 0 2 3 good 1 2
  => 3 0 => 0 0 3 idle
it has none: begin-late 0 1 write 2, serve 0, post 0, collect 0
  => 0 0 3 3 submitted, 0 0 3 4 good 1 3
  => 4 0 => 0 0 4 idle
it is refused, and no flush begins: begin-late 0 1 beyond, serve 0, post 0, collect 0, done 0
  => 0 0 4 4 submitted, 0 0 4 5 check-behind 1 4 052100
  => 5 0 => 0 0 5 idle
Moved, as it was asked: move 0 2, begin-late 0 1 synchronize, serve 0, post 0, collect 0
  => 0 0 5 6 submitted
  => 6 0 => 0 0 5 returned
then without its flush, and told of the move: begin-again-late 0, serve 0, post 0, collect 0
  => 0 0 5 6 submitted, 0 0 5 7 check-behind 2 6 062A06
  => 7 0 => 0 0 6 idle
Moved, and then with its flush: submit-late 0 1 fua 3, take 1, serve 0, post 0, collect 0, again 0, take 2, serve 0,
    post 0, collect 0
  => 0 0 6 7 submitted, 0 0 6 7 submitted, 0 0 6 8 good 2 7
  => 8 0 => 0 0 7 idle
Moved, and then without it: submit 0 1 fua 4, take 1, serve 0, post 0, collect 0, again-late 0, take 2, serve 0,
    post 0, collect 0
  => 0 0 7 8 submitted, 0 0 7 8 submitted, 0 0 7 9 flushes
  => 9 0 => 0 0 7 flushes
the unit moves and the session ends before its flush is done: move 0 1, detach 0, done 0
  => 0 0 7 11 good-behind 2 8
  => 11 0 => 0 0 8 idle
"#
}
