//! The program over two files: which unit is in which file, and which portal in which group. While it still serves, the files are
//! copied, and a second array starts over the copies: so it finds what was written and registered, though the first has not ended.
//! This shows no loss of a cache, as what a disk has not yet written is in the copies too. All this once more where calls have a deadline.
use array::{open, open_files, serve, serve_timed};
use std::io::BufReader;
use std::test::*;
use std::time::Duration;
use std::{fs, process};
use test_visits::{begun, compare_end, console_lines, new_paths, new_scripts, sites, story};

/// So many seconds a call of a file may take.
const PATIENCE: u64 = 20;

/// So far from the place where the search for free ports begins another one begins.
const OTHER_PORTS: u32 = 250;

#[test]
fn units_have_their_files_and_portals_their_groups(rt: HostRuntime) -> Result<(), Fail> {
    let alloc = rt.alloc();
    let process = process::id(rt.process());
    let paths = new_paths(&rt, alloc, process)?;
    let scripts = new_scripts(alloc)?;
    let (site, left) = sites(&rt, process, &paths)?;
    for visited in story(site, left, &scripts) {
        let (mut hosts, mut said) = (Vec::new(alloc), Vec::new(alloc));
        let (options, log, administration) = begun(&rt, alloc, &visited.site)?;
        let reader = BufReader::new(alloc, console_lines(&rt, alloc, &visited, &mut hosts))?;
        let Ok(array) = open(&rt, alloc, &log, &options) else {
            return Err("an array that is opened".into());
        };
        let end = serve(
            &rt,
            alloc,
            &options,
            array,
            &log,
            Some(administration),
            reader,
            &mut said,
        );
        assert!(rt; end.is_ok());
        compare_end(&rt, alloc, &visited, said.as_slice(), hosts.as_mut_slice())?;
    }
    fs::remove_dir_all(&rt, paths.folder.as_str())?;
    Ok(())
}

// A function that serves is a test's own: so this one has the calls of the other one, over files whose calls have a deadline.
#[test]
fn they_have_them_where_calls_have_a_deadline(rt: HostRuntime) -> Result<(), Fail> {
    let alloc = rt.alloc();
    let process = process::id(rt.process()).wrapping_add(OTHER_PORTS);
    let paths = new_paths(&rt, alloc, process)?;
    let scripts = new_scripts(alloc)?;
    let (site, left) = sites(&rt, process, &paths)?;
    for visited in story(site, left, &scripts) {
        let (mut hosts, mut said) = (Vec::new(alloc), Vec::new(alloc));
        let (options, log, administration) = begun(&rt, alloc, &visited.site)?;
        let reader = BufReader::new(alloc, console_lines(&rt, alloc, &visited, &mut hosts))?;
        let Ok(parts) = open_files(&rt, alloc, &log, &options) else {
            return Err("files that are opened".into());
        };
        let end = serve_timed(
            &rt,
            alloc,
            &options,
            parts,
            Duration::from_secs(PATIENCE),
            &log,
            Some(administration),
            reader,
            &mut said,
        );
        assert!(rt; end.is_ok());
        compare_end(&rt, alloc, &visited, said.as_slice(), hosts.as_mut_slice())?;
    }
    fs::remove_dir_all(&rt, paths.folder.as_str())?;
    Ok(())
}
