//! Lines that stand for several: the forms of these, which a line fills.
use std::alloc::Global;
use test_connections::{RowError, filled};

// A host logs in by a controller, or is refused: how it asks, and what it is answered.
const COMES: &str = "[0] at [1]
[0] > LOGIN 7:56 [2]
[0] < LOGGED_IN 7:36 [3]";

const REFUSED: &str = "[0] at [1]
[0] > LOGIN [2]
[0] < LOGIN_REFUSED [3]
[0] over";

// A host sends a command, and GOOD comes.
const DOES: &str = "[0] > [1]
[0] < GOOD";

// It reads: how the command goes on, and how its one Data-In does.
const READS: &str = "[0] > COMMAND 1:C1 [1]
[0] < DATA_IN [2]
[0] < GOOD 36:00000001";

// A unit tells it of the power.
const POWER: &str = "[0] > TEST_UNIT_READY [1]
[0] < CHECK_CONDITION 0012 70000600000000 0A00000000 2900 00000000";

// It comes to controller 1, and is told; so is another one then, at controller 2.
const ALONE: &str = "[0] at 1
[0] > LOGIN 7:56 HOST_A
[0] < LOGGED_IN 7:36 WELCOME
[0] > TEST_UNIT_READY
[0] < CHECK_CONDITION 0012 70000600000000 0A00000000 2900 00000000";

const BOTH: &str = "[0] at 1
[0] > LOGIN 7:56 HOST_A
[0] < LOGGED_IN 7:36 WELCOME
[0] > TEST_UNIT_READY
[0] < CHECK_CONDITION 0012 70000600000000 0A00000000 2900 00000000
[1] at 2
[1] > LOGIN 7:56 HOST_B
[1] < LOGGED_IN 7:36 15:02 WELCOME_2
[1] > TEST_UNIT_READY
[1] < CHECK_CONDITION 0012 70000600000000 0A00000000 2900 00000000";

// The form of the lines for which one of this verb stands: none, where it stands for itself.
fn form_of(verb: &str) -> &'static str {
    match verb {
        "alone" => ALONE,
        "and" => BOTH,
        "comes" => COMES,
        "refused" => REFUSED,
        "does" => DOES,
        "reads" => READS,
        "power" => POWER,
        _ => "",
    }
}

/// The lines for which one line stands.
pub fn expanded(alloc: Global, line: &str) -> Result<String, RowError> {
    let (who, words) = split(line);
    let (verb, rest) = split(words);
    let form = form_of(verb);
    if form.is_empty() {
        return Ok(String::from_str(alloc, line)?);
    }
    let parts = format!(in alloc; "{who};{rest}")?.replace(alloc, " / ", ";")?;
    filled(alloc, form, parts.as_str().trim_end_matches(';'))
}

/// A word, and what stands behind it.
pub fn split(line: &str) -> (&str, &str) {
    line.split_once(' ').unwrap_or((line, ""))
}
