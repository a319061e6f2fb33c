//! The version of the program, and the text of its help.

/// The version of the program, as the file VERSION at the top has it.
pub const VERSION: &str = "1.0.0";

const HELP: &str =
    "usage: arrayd [OPTION..] DISK..     serves a unit over each disk, by two controllers
       arrayd --once               serves one session over one unit in memory
       arrayd --version
       arrayd --help

  --target NAME     the target's name; iqn.2000-01.test:array where none is given
  --array NUMBER    the array's number; 1 where none is given. Two arrays that one host sees need two
  --host IPV4       the address at which all portals listen; 127.0.0.1 where none is given
  --port PORT       the port of controller 1's first portal; 3260 where none is given. Controller 2's lies 4 above
  --portals COUNT   how many portals each controller has, 1 to 4; 1 where none is given

environment:
  ARRAYD_LOG=FILE       a line for each thing that happens is written there
  ARRAYD_DEADLINE=N     a call on a unit's file that takes N seconds has failed, and so has each later one until it is back
  ARRAYD_HOST2=IPV4     controller 2 listens there
  ARRAYD_HTTP=IPV4:PORT a browser sees there how the array is, and a program /metrics, /status and /health
  ARRAYD_CONTROL=PATH   a UNIX socket there takes the lines status, sessions, keys U, end TSIH, up 1, up 2 and others

Standard input takes the lines status, down 1, down 2 and quit.
";

/// Tells of the program where its words, of which the first is its own name, ask for nothing else; answers whether they do.
pub fn tells(rt: &impl Print, words: &[String]) -> bool {
    if words.len() != 2 {
        return false;
    }
    match words[1].as_str() {
        "--version" => {
            let _ = println!(rt; "arrayd {VERSION}");
            true
        }
        "--help" | "-h" => {
            let _ = print!(rt; "{HELP}");
            true
        }
        _ => false,
    }
}
