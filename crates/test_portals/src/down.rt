//! Controllers that go down by the console. No host takes part: a script is the lines of the console, and what it answers.

pub fn scripts() -> &'static str {
    r#"
each controller goes down; one unit
console status / down 1 / status / down 2 / status / x / quit =
 unit 0 owner 1 states 0 1 generation 0 keys 0 type 0 entries 0 /
 down /
 unit 0 owner 2 states 3 0 generation 0 keys 0 type 0 entries 1 /
 down /
 unit 0 owner 1 states 0 3 generation 0 keys 0 type 0 entries 2 /
 ?

a unit whose blocks do not open stays; no open
# Unit 1 cannot be opened anew. Controller 2 owns it from the start, so that `down 1` moves unit 0 alone. `down 2` moves unit 0 back;
# unit 1 would have to follow, and stays, as its blocks do not open.
console down 1 / down 2 = down / not moved 1
"#
}
