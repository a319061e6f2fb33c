//! The portals of both controllers.

use command_line::Fault;
use event_log::Log;
use events::Event;
use scsi_types::Group;
use std::alloc::{AllocError, Global};
use std::net::{Ipv4Addr, Net, SocketAddrV4, TcpListener, TcpStream};
use std::time::Clock;

/// How far the ports of the two controllers lie apart.
const APART: u16 = 4;

/// Where a controller listens: at so many ports from this one on. Controller 2 may have an address of its own.
#[derive(Clone, Copy)]
pub struct Ports {
    pub host: Ipv4Addr,
    pub second_host: Ipv4Addr,
    pub first: u16,
    pub count: u16,
}

impl Ports {
    /// Those of a group's controller. Controller 2's lie 4 above controller 1's.
    pub fn of(self, group: Group) -> Ports {
        match group {
            Group::One => self,
            Group::Two => Ports {
                host: self.second_host,
                first: self.first.saturating_add(APART),
                ..self
            },
        }
    }

    /// The addresses, in order.
    pub fn addresses(self, alloc: Global) -> Result<Vec<SocketAddrV4>, AllocError> {
        let mut addresses = Vec::new(alloc);
        for portal in 0..self.count {
            let port = self.first.saturating_add(portal);
            addresses.push(SocketAddrV4::new(self.host, port))?;
        }
        Ok(addresses)
    }
}

/// A portal that listens, and the group that is reached through it.
#[derive(Drop)]
pub struct Portal {
    pub listener: TcpListener,
    pub group: Group,
}

/// Opens the portals of controller 1 in order, then those of controller 2.
pub fn open<R: Net<Listener = TcpListener, Stream = TcpStream> + Clock>(
    rt: &R,
    alloc: Global,
    ports: Ports,
    log: &Log,
) -> Result<Vec<Portal>, Fault> {
    let mut portals = Vec::new(alloc);
    for group in &[Group::One, Group::Two] {
        let group = *group;
        let ports = ports.of(group);
        for portal in 0..ports.count {
            let port = ports.first.saturating_add(portal);
            let controller = group.number();
            let at = SocketAddrV4::new(ports.host, port);
            let listener = match TcpListener::bind(rt, (ports.host, port)) {
                Ok(listener) => listener,
                Err(e) => {
                    let error = u32::try_from(e.raw_os_error().unwrap_or(0)).unwrap_or(0);
                    log.tell(rt, &Event::CannotListen(u16::from(controller), at, error));
                    return Err(Fault::CannotListen(controller, portal, at, error));
                }
            };
            log.tell(rt, &Event::Listening(u16::from(controller), at));
            portals.push(Portal { listener, group })?;
        }
    }
    Ok(portals)
}
