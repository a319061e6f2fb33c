//! What stands in both stories of an array over files: the files and where they are served, what hosts do, and what is there behind them.
ghost use Rattle.std.specs.Prelude.{◌≤◌, IfOk, length};

use crate::administrators::administration;
use crate::hosts::perform;
use crate::site::{Site, free_site, make};
use crate::visits::{Visited, is_refused};
use array_administration::Administration;
use command_line::{MAX_UNITS, Options};
use event_log::Log;
use meters::Meters;
use std::alloc::Global;
use std::fs::{self, File};
use std::net::{Net, TcpListener, TcpStream};
use std::rt::Files;
use std::sync::Arc;
use std::test::Fail;
use std::time::Clock;
use test_connections::{Host, filled, want_at};

/// A folder, and in it the files of the first array, and the copies of them; and the control sockets of both arrays.
#[derive(Drop)]
pub struct Paths {
    pub folder: String,
    one: String,
    two: String,
    one_left: String,
    two_left: String,
    control: String,
    control_left: String,
}

/// What hosts do before the files are copied, and before the array over the copies.
#[derive(Drop)]
pub struct Scripts {
    before: String,
    after: String,
}

// What hosts do before the files are copied. Each login is told the group of its portal.
fn before() -> &'static str {
    r#"
1 0
> LOGIN 7:56 HOST_B
< LOGGED_IN 7:36 15:02 WELCOME

2 2
> LOGIN 7:56 HOST_A
< LOGGED_IN 7:36 15:03 WELCOME_2

1 3
# Power came on at both units; WRITE (10) of block 5 of unit 0 and of block 6 of unit 1; REGISTER of 11h with APTPL at unit 1;
# SYNCHRONIZE CACHE (10) of both.
> LOGIN 7:56 HOST_A
< LOGGED_IN 7:36 15:04 WELCOME
> TEST_UNIT_READY
< CHECK_CONDITION 0012 70000600000000 0A00000000 2900 00000000
> TEST_UNIT_READY 9:01
< CHECK_CONDITION 0012 70000600000000 0A00000000 2900 00000000
> WRITE 5:000200 pattern 512
< GOOD
> WRITE 5:000200 9:01 37:06 pattern 100+512
< GOOD
> WRITE 7:18 9:01 20:00000018 32:5F000000000000001800 0000000000000000 0000000000000011 00000000 01000000
< GOOD
> COMMAND 32:35
< GOOD
> COMMAND 9:01 32:35
< GOOD

2 0
# What was written, and READ (10) of block 6 of unit 0, where nothing was.
> LOGIN 7:56 HOST_B
< LOGGED_IN 7:36 15:05 WELCOME_2
[0]
> COMMAND 1:C1 20:00000200 32:28000000000600000100
< DATA_IN 5:000200 512*00
< GOOD 36:00000001
"#
}

// What a host does before the array over the copies.
fn after() -> &'static str {
    r#"
2 3
# What was written is there; READ KEYS, whose generation is 0, tells of the key at unit 1 alone.
> LOGIN 7:56 HOST_B
< LOGGED_IN 7:36 15:02 WELCOME_2
[0]
> COMMAND 1:C1 20:00000008 32:5E000000000000000800
< DATA_IN 7:08 00000000 00000000
< GOOD 36:00000001
> COMMAND 1:C1 9:01 20:00000010 32:5E000000000000001000
< DATA_IN 7:10 00000000 00000008 0000000000000011
< GOOD 36:00000001
"#
}

// What stands for `[0]` in these: power came on at both units; READ (10) of both blocks that were written, each at its unit.
fn found() -> &'static str {
    "
> TEST_UNIT_READY
< CHECK_CONDITION 0012 70000600000000 0A00000000 2900 00000000
> TEST_UNIT_READY 9:01
< CHECK_CONDITION 0012 70000600000000 0A00000000 2900 00000000
> COMMAND 1:C1 20:00000200 32:28000000000500000100
< DATA_IN 5:000200 pattern 512
< GOOD 36:00000001
> COMMAND 1:C1 9:01 20:00000200 32:28000000000600000100
< DATA_IN 5:000200 pattern 100+512
< GOOD 36:00000001
"
}

// Behind `quit` the desks are closed, so that a command is BUSY.
fn busy() -> &'static str {
    r#"
> TEST_UNIT_READY
< GOOD 3:08
"#
}

// What the console of the first array tells: `status` before the hosts come, and `?` for the line behind them.
fn told_at_first() -> &'static str {
    "arrayd: ready
unit 0 owner 1 states 0 1 generation 0 keys 0 type 0 entries 0
unit 1 owner 2 states 1 0 generation 0 keys 0 type 0 entries 0
?
"
}

// What the console of the array over the copies tells: unit 1 still has its key.
fn restarted() -> &'static str {
    "arrayd: ready
unit 0 owner 1 states 0 1 generation 0 keys 0 type 0 entries 0
unit 1 owner 2 states 1 0 generation 0 keys 1 type 0 entries 0
?
"
}

/// The scripts of both arrays.
pub fn new_scripts(alloc: Global) -> Result<Scripts, Fail> {
    Ok(Scripts {
        before: filled(alloc, before(), found())?,
        after: filled(alloc, after(), found())?,
    })
}

// An empty folder with the number of this process in its name, within the one in which the tests run. That one is made and taken away
// by who runs them.
fn new_folder<R: Files<File = File> + AllocGlobal>(
    rt: &R,
    alloc: Global,
    process: u32,
) -> Result<String, Fail> {
    let folder = format!(in alloc; "arrayd_{process}_whole")?;
    let _ = fs::remove_dir_all(rt, folder.as_str());
    fs::create_dir(rt, folder.as_str())?;
    Ok(folder)
}

/// A new folder, and the paths in it.
pub fn new_paths<R: Files<File = File> + AllocGlobal>(
    rt: &R,
    alloc: Global,
    process: u32,
) -> Result<Paths, Fail> {
    let folder = new_folder(rt, alloc, process)?;
    Ok(Paths {
        one: format!(in alloc; "{folder}/one")?,
        two: format!(in alloc; "{folder}/two")?,
        one_left: format!(in alloc; "{folder}/one_left")?,
        two_left: format!(in alloc; "{folder}/two_left")?,
        control: format!(in alloc; "{folder}/control")?,
        control_left: format!(in alloc; "{folder}/control_left")?,
        folder,
    })
}

// Where the array over new files is served, or the one over their copies, whose search for free ports begins elsewhere.
fn site_of<'a, R: Net<Listener = TcpListener, Stream = TcpStream>>(
    rt: &R,
    process: u32,
    paths: &'a Paths,
    is_left: bool,
) -> Result<Site<'a>, Fail> {
    if is_left {
        let other = process.wrapping_add(500);
        let (one, two, control) = (&paths.one_left, &paths.two_left, &paths.control_left);
        free_site(rt, other, one.as_str(), two.as_str(), control.as_str())
    } else {
        let (one, two, control) = (&paths.one, &paths.two, &paths.control);
        free_site(rt, process, one.as_str(), two.as_str(), control.as_str())
    }
}

/// Makes the files of the first array: where it is served, and where the one over their copies.
pub fn sites<'a, R: Files<File = File> + Net<Listener = TcpListener, Stream = TcpStream>>(
    rt: &R,
    process: u32,
    paths: &'a Paths,
) -> Result<(Site<'a>, Site<'a>), Fail> {
    let site = site_of(rt, process, paths, false)?;
    let left = site_of(rt, process, paths, true)?;
    make(rt, site.one)?;
    make(rt, site.two)?;
    Ok((site, left))
}

/// An array over new files, which are copied behind its visits, and one over the copies.
pub fn story<'a>(site: Site<'a>, left: Site<'a>, scripts: &'a Scripts) -> [Visited<'a>; 2] {
    [
        Visited {
            site,
            visits: scripts.before.as_str(),
            said: told_at_first(),
            left: Some(left),
        },
        Visited {
            site: left,
            visits: scripts.after.as_str(),
            said: restarted(),
            left: None,
        },
    ]
}

/// What the array of a site is asked for, its log, and by what administrators reach it.
pub fn begun<'a, R: Net<Listener = TcpListener, Stream = TcpStream> + Clock>(
    rt: &R,
    alloc: Global,
    site: &Site<'a>,
) -> Result<(Options<'a>, Log, Administration<'a>), Fail>
    ensures { IfOk result (λ begun. length begun.0.paths.items ≤ MAX_UNITS) }
{
    let options = site.options(alloc)?;
    let log = Log::off().counting(Arc::new(alloc, Meters::new(alloc, 2)?)?);
    let administration = administration(rt, &log, site.window(), site.control)?;
    Ok((options, log, administration))
}

/// What was told, that the sessions which are still open find the desks closed, and that no other server may have the files: a call that
/// hangs may still reach them.
pub fn compare_end<R: Files<File = File> + Clone + Drop>(
    rt: &R,
    alloc: Global,
    visited: &Visited<'_>,
    said: &[u8],
    hosts: &mut [Host],
) -> Result<(), Fail> {
    want_at(said == visited.said.as_bytes(), "what was told", &said)?;
    for host in hosts {
        perform(alloc, host, busy())?;
    }
    for file in &[visited.site.one, visited.site.two] {
        want_at(is_refused(rt, alloc, *file)?, *file, &"not locked")?;
    }
    Ok(())
}
