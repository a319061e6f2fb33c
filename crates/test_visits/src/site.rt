//! Where an array is served: its files, and its ports.
ghost use Rattle.std.specs.Prelude.{◌≤◌, IfOk, length};

use command_line::{MAX_UNITS, Options};
use std::alloc::Global;
use std::fs::{self, File};
use std::net::{Ipv4Addr, Net, SocketAddrV4, TcpListener, TcpStream};
use std::rt::Files;
use std::test::Fail;

/// Where an array is served.
#[derive(Clone, Copy)]
pub struct Site<'a> {
    /// The file of unit 0.
    pub one: &'a str,
    /// The file of unit 1.
    pub two: &'a str,
    /// The path of the control socket.
    pub control: &'a str,
    /// The port of the first portal of controller 1.
    pub port: u16,
}

/// How many bytes a disk has.
pub const SIZE: u64 = 16 * 512;

/// How many portals each controller has: as many as it may have.
pub const PORTALS: u16 = 4;

// How far those of controller 2 lie behind those of controller 1, and the window behind the first one.
const APART: u16 = 4;

const WINDOW: u16 = 8;

impl<'a> Site<'a> {
    /// What the words ask for that name it.
    pub fn options(&self, alloc: Global) -> Result<Options<'a>, Fail>
        ensures { IfOk result (λ options. length options.paths.items ≤ MAX_UNITS) }
    {
        let mut paths = Vec::new(alloc);
        paths.push(self.one)?;
        paths.push(self.two)?;
        Ok(Options {
            is_once: false,
            target: "iqn.2000-01.test:array",
            array: 1,
            second_host: None,
            host: Ipv4Addr::LOCALHOST,
            port: self.port,
            portals: PORTALS,
            paths,
        })
    }

    /// Where its window is.
    pub fn window(&self) -> SocketAddrV4 {
        SocketAddrV4::new(Ipv4Addr::LOCALHOST, self.port.saturating_add(WINDOW))
    }

    /// A portal of a controller, 1 or 2.
    pub fn portal(&self, controller: u16, portal: u16) -> SocketAddrV4 {
        let first = if controller == 1 { 0 } else { APART };
        let port = self.port.saturating_add(first).saturating_add(portal);
        SocketAddrV4::new(Ipv4Addr::LOCALHOST, port)
    }
}

/// Makes a disk of zeros.
pub fn make<R: Files<File = File>>(rt: &R, path: &str) -> Result<(), Fail> {
    Ok(File::create(rt, path)?.set_len(SIZE)?)
}

/// Copies a disk and its registration file as they are now.
pub fn copy<R: Files<File = File>>(
    rt: &R,
    alloc: Global,
    from: &str,
    to: &str,
) -> Result<(), Fail> {
    let (from_beside, to_beside) = (
        format!(in alloc; "{from}.reg")?,
        format!(in alloc; "{to}.reg")?,
    );
    fs::copy(rt, from, to)?;
    fs::copy(rt, from_beside.as_str(), to_beside.as_str())?;
    Ok(())
}

// Whether all portals can listen that begin at this port, and the window.
fn are_free<R: Net<Listener = TcpListener, Stream = TcpStream>>(rt: &R, site: &Site<'_>) -> bool {
    for controller in &[1, 2] {
        for portal in 0..PORTALS {
            if TcpListener::bind(rt, site.portal(*controller, portal)).is_err() {
                return false;
            }
        }
    }
    TcpListener::bind(rt, site.window()).is_ok()
}

/// A site for these files, with ports that nobody has. They are none of those that the system picks by itself, so that no other
/// test takes them meanwhile; the search begins elsewhere for each process.
pub fn free_site<'a, R: Net<Listener = TcpListener, Stream = TcpStream>>(
    rt: &R,
    process: u32,
    one: &'a str,
    two: &'a str,
    control: &'a str,
) -> Result<Site<'a>, Fail> {
    for next in 0..100u32 {
        let place = process.wrapping_add(next.wrapping_mul(17)) % 1000;
        let port = u16::try_from(place.wrapping_mul(10).wrapping_add(20000)).unwrap_or(20000);
        let site = Site {
            one,
            two,
            control,
            port,
        };
        if are_free(rt, &site) {
            return Ok(site);
        }
    }
    Err("ports that are free".into())
}
