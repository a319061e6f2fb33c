//! One command on its way, events that can't happen, and sessions that end.

/// Tables, as `run.rt` reads them.
pub fn tables() -> &'static str {
    r#"
opens 9 9
it attaches: attach 0 1 1
  =>
  => 1 0 => 0 0 1 idle
it submits: submit 0 1 test
  => 0 0 1 1 submitted
  => 1 0 => 0 0 1 waits
it is taken: take 1
  =>
  => 1 0 => 0 0 1 lane
it is served: serve 0
  =>
  => 2 0 => 0 0 1 ended
it is answered: post 0
  =>
  => 2 0 => 0 0 1 answered
it collects: collect 0
  => 0 0 1 2 check 1 1 062900
  => 2 0 => 0 0 2 idle
its second: submit 0 1 test, take 1, serve 0, post 0, collect 0
  => 0 0 2 2 submitted, 0 0 2 3 good 1 2
  => 3 0 => 0 0 3 idle

opens 9 9
two sessions: attach 0 1 1, attach 0 2 1
  =>
  => 2 0 => 0 0 1 idle, 0 1 1 idle
one waits, and the other's worker serves past it: submit 0 1 test, begin 1 1 test
  => 0 0 1 2 submitted, 0 1 1 2 submitted
  => 2 0 => 0 0 1 waits, 0 1 1 lane
so its entry comes first: serve 1, post 1, collect 1
  => 0 1 1 3 check 1 2 062900
  => 3 0 => 0 0 1 waits, 0 1 2 idle
a job that is taken back goes to no lane: back 0, take 1
  =>
  => 3 0 => 0 0 1 lane, 0 1 2 idle
its worker serves it: serve 0, post 0, collect 0
  => 0 0 1 4 check 1 3 062900
  => 4 0 => 0 0 2 idle, 0 1 2 idle
none waits, and none came to Moved: back 0, back 7, begin-again 0, begin-again 7
  =>
  => 4 0 => 0 0 2 idle, 0 1 2 idle
Moved, and served at once at the other desk: move 0 2, begin 0 1 test, serve 0, post 0, collect 0, begin-again 0,
    serve 0, post 0, collect 0
  => 0 0 2 5 submitted, 0 0 2 5 submitted, 0 0 2 6 check 2 5 062A06
  => 6 0 => 0 0 3 idle, 0 1 2 idle
a desk that closes: submit 1 2 test, close 2, submit 0 2 test, begin 0 2 test
  => 0 1 2 6 submitted, 0 0 3 6 busy, 0 0 3 6 busy
  => 6 0 => 0 0 3 idle, 0 1 2 waits
what waits there is served: take 2, serve 1, post 1, collect 1
  => 0 1 2 7 check 2 6 062A06
  => 7 0 => 0 0 3 idle, 0 1 3 idle

opens 9 9
one session: attach 0 1 1
  =>
  => 1 0 => 0 0 1 idle
no such unit or session: attach 2 5 1, move 2 2, detach 1, reset 1, submit 1 1 test, again 1, serve 1, post 1,
    collect 1
  =>
  => 1 0 => 0 0 1 idle
idle: again 0, take 1, take 2, serve 0, post 0, collect 0
  =>
  => 1 0 => 0 0 1 idle
submit: submit 0 1 test
  => 0 0 1 1 submitted
  => 1 0 => 0 0 1 waits
waits: submit 0 2 test, again 0, take 2, serve 0, post 0, collect 0
  =>
  => 1 0 => 0 0 1 waits
take: take 1
  =>
  => 1 0 => 0 0 1 lane
in a lane: submit 0 1 test, again 0, take 1, post 0, collect 0
  =>
  => 1 0 => 0 0 1 lane
serve: serve 0
  =>
  => 2 0 => 0 0 1 ended
ended: submit 0 1 test, again 0, take 1, serve 0, collect 0
  =>
  => 2 0 => 0 0 1 ended
post: post 0
  =>
  => 2 0 => 0 0 1 answered
answered: submit 0 1 test, again 0, take 1, serve 0, post 0
  =>
  => 2 0 => 0 0 1 answered
collect: collect 0
  => 0 0 1 2 check 1 1 062900
  => 2 0 => 0 0 2 idle
idle again: again 0, take 1, serve 0, post 0, collect 0
  =>
  => 2 0 => 0 0 2 idle

opens 9 9
three sessions: attach 0 1 1, attach 0 2 1, attach 0 3 1
  =>
  => 3 0 => 0 0 1 idle, 0 1 1 idle, 0 2 1 idle
their commands: submit 0 1 test, submit 1 1 test, submit 2 1 test
  => 0 0 1 3 submitted, 0 1 1 3 submitted, 0 2 1 3 submitted
  => 3 0 => 0 0 1 waits, 0 1 1 waits, 0 2 1 waits
one ends while its command waits: detach 0, take 1, serve 0, post 0, collect 0
  => 0 0 1 4 gone
  => 4 0 => 0 0 1 idle, 0 1 1 waits, 0 2 1 waits
the nexus of one attaches again while a lane has its command: take 1, attach 0 2 1, serve 1, post 1, collect 1
  => 0 1 1 5 gone
  => 5 0 => 0 0 1 idle, 0 1 1 idle, 0 2 1 waits, 0 4 1 idle
one resets the unit while a lane has its command: take 1, reset 2, serve 2, post 2, collect 2
  => 0 2 1 7 check 1 6 062900
  => 7 0 => 0 0 1 idle, 0 1 1 idle, 0 2 2 idle, 0 4 1 idle
who is gone ends and resets nothing: detach 0, reset 1
  =>
  => 7 0 => 0 0 1 idle, 0 1 1 idle, 0 2 2 idle, 0 4 1 idle
who is gone submits: submit 0 1 test, take 1, serve 0, post 0, collect 0
  => 0 0 1 7 submitted, 0 0 1 7 gone
  => 7 0 => 0 0 1 idle, 0 1 1 idle, 0 2 2 idle, 0 4 1 idle
the new session: submit 3 1 test, take 1, serve 3, post 3, collect 3
  => 0 4 1 7 submitted, 0 4 1 8 check 1 7 062900
  => 8 0 => 0 0 1 idle, 0 1 1 idle, 0 2 2 idle, 0 4 2 idle
a reset is told to it: reset 2, submit 3 1 test, take 1, serve 3, post 3, collect 3
  => 0 4 2 9 submitted, 0 4 2 10 check 1 9 062900
  => 10 0 => 0 0 1 idle, 0 1 1 idle, 0 2 2 idle, 0 4 3 idle
"#
}
