//! The console of an array whose hosts come between two of its lines.
use crate::administrators::find;
use crate::hosts::{come, finds};
use crate::site::{SIZE, Site, copy};
use disk_files::{DiskFault, open_disk};
use std::alloc::Global;
use std::fs::File;
use std::io::{self, ErrorKind, Read};
use std::net::{Net, SocketAddrV4, TcpListener, TcpStream};
use std::process::Termination;
use std::rt::Files;
use std::test::Fail;
use test_connections::{Host, bytes_of, want_at};

// The name of the host that registers.
const REGISTRANT: &[u8] = b"iqn.2000-01.test:a";

/// An array that is visited by hosts, one behind the other, and what its console is told. Behind the visits its files are copied, as
/// they are, to where a second array is to start over them. Of the visits, which are one text with an empty line between two, each
/// begins with a controller and its portal by which a host comes, and behind that line stands the script that it performs.
#[derive(Clone, Copy)]
pub struct Visited<'a> {
    pub site: Site<'a>,
    pub visits: &'a str,
    pub said: &'a str,
    pub left: Option<Site<'a>>,
}

/// The lines of the console of an array that is visited: `status`, then one that is none of its own, once the hosts have been there, and
/// `quit`.
#[derive(Drop)]
pub struct Lines<'a, R> {
    rt: &'a R,
    alloc: Global,
    visited: &'a Visited<'a>,
    hosts: &'a mut Vec<Host>,
    // How often it was read.
    reads: u32,
}

// Whether a block of a file is this part of the pattern.
fn lies<R: Files<File = File>>(
    rt: &R,
    alloc: Global,
    path: &str,
    block: usize,
    parts: &str,
) -> Result<bool, Fail> {
    let mut bytes = vec![in alloc; 0u8; SIZE as usize]?;
    File::open(rt, path)?.read_exact(bytes.as_mut_slice())?;
    let wanted = bytes_of(alloc, &[], parts)?;
    Ok(bytes.as_slice().chunks(512).nth(block) == Some(wanted.as_slice()))
}

// Whether the registration file beside a disk names the host that registers.
fn names_registrant<R: Files<File = File>>(
    rt: &R,
    alloc: Global,
    disk: &str,
) -> Result<bool, Fail> {
    let beside = format!(in alloc; "{disk}.reg")?;
    let mut bytes = Vec::new(alloc);
    File::open(rt, beside.as_str())?.read_to_end(&mut bytes)?;
    Ok(
        bytes
            .as_slice()
            .windows(REGISTRANT.len())
            .any(|part| part == REGISTRANT),
    )
}

/// Whether another server is refused this file.
pub fn is_refused<R: Files<File = File> + Clone + Drop>(
    rt: &R,
    alloc: Global,
    file: &str,
) -> Result<bool, Fail> {
    let end = open_disk(rt.clone()?, alloc, file);
    Ok(matches!(end, Err(DiskFault::InUse)))
}

// In the file of a unit lie these blocks 5 and 6, its registration file names the host that registers, or not, and no other server
// may have them.
fn compare_unit<R: Files<File = File> + Clone + Drop>(
    rt: &R,
    alloc: Global,
    file: &str,
    blocks: [&str; 2],
    is_registered: bool,
) -> Result<(), Fail> {
    let [five, six] = blocks;
    want_at(lies(rt, alloc, file, 5, five)?, file, &five)?;
    want_at(lies(rt, alloc, file, 6, six)?, file, &six)?;
    let is_named = names_registrant(rt, alloc, file)?;
    want_at(is_named == is_registered, file, &is_named)?;
    want_at(is_refused(rt, alloc, file)?, file, &"not refused")
}

// What the hosts wrote lies in the files, each unit's in its own, and the registration beside unit 1.
fn compare<R: Files<File = File> + Clone + Drop>(
    rt: &R,
    alloc: Global,
    site: &Site<'_>,
) -> Result<(), Fail> {
    compare_unit(rt, alloc, site.one, ["pattern 512", "512*00"], false)?;
    compare_unit(rt, alloc, site.two, ["512*00", "pattern 100+512"], true)
}

// The portal that a line names: its controller, and its place there.
fn portal_at(site: &Site<'_>, line: &str) -> Option<SocketAddrV4> {
    let (controller, portal) = line.split_once(' ')?;
    Some(site.portal(controller.parse().ok()?, portal.parse().ok()?))
}

// The hosts come.
fn come_all<R: Net<Listener = TcpListener, Stream = TcpStream>>(
    rt: &R,
    alloc: Global,
    visited: &Visited<'_>,
    hosts: &mut Vec<Host>,
) -> Result<(), Fail> {
    for visit in visited.visits.split("\n\n") {
        let (place, script) = visit.trim_start().split_once('\n').ok_or("a visit")?;
        let portal = portal_at(&visited.site, place).ok_or("a portal")?;
        hosts.push(come(rt, alloc, portal, script)?)?;
    }
    Ok(())
}

// The hosts come, and what they leave is looked at. Then its files are copied, where they are to be.
fn receive<R: Net<Listener = TcpListener, Stream = TcpStream> + Files<File = File> + Clone + Drop>(
    rt: &R,
    alloc: Global,
    visited: &Visited<'_>,
    hosts: &mut Vec<Host>,
) -> Result<(), Fail> {
    finds(rt, alloc, &visited.site)?;
    come_all(rt, alloc, visited, hosts)?;
    compare(rt, alloc, &visited.site)?;
    find(rt, alloc, &visited.site, hosts.len())?;
    if let Some(left) = visited.left {
        copy(rt, alloc, visited.site.one, left.one)?;
        copy(rt, alloc, visited.site.two, left.two)?;
    }
    Ok(())
}

impl<
    'a,
    R: Eprint + Net<Listener = TcpListener, Stream = TcpStream> + Files<File = File> + Clone + Drop,
> Read for Lines<'a, R> {
    fn read(&mut self, buf: &mut [u8]) -> io::Result<usize> {
        self.reads = self.reads.saturating_add(1);
        let mut lines: &[u8] = match self.reads {
            1 => b"status\n",
            2 => {
                let end = receive(self.rt, self.alloc, self.visited, self.hosts);
                if let Err(fault) = end {
                    let _told = Err::<(), Fail>(fault).report(self.rt);
                    return Err(io::Error::from(ErrorKind::Other));
                }
                b"visited\nquit\n"
            }
            _ => b"",
        };
        lines.read(buf)
    }
}

/// The lines of its console, and those who come, with their sessions open.
pub fn console_lines<'a, R>(
    rt: &'a R,
    alloc: Global,
    visited: &'a Visited<'a>,
    hosts: &'a mut Vec<Host>,
) -> Lines<'a, R> {
    Lines {
        rt,
        alloc,
        visited,
        hosts,
        reads: 0,
    }
}
