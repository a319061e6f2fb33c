//! What the window and the control socket ask of an array that is served, as its server answers it.

use crate::operated::{Operated, row_at};
use crate::registrations::registrations;
use array_administration::{Administered, Operations, say_status};
use array_view::Registration;
use block_file::{Blocks, Opener};
use event_log::Log;
use portal::Server;
use scsi_types::Group;
use session_units::Controllers;
use status::Row;
use std::alloc::Global;
use std::io::{self, Write};
use std::net::SocketAddrV4;
use std::sync::{Arc, Wait};
use std::time::Clock;
use unit_history::Opened;
use unit_sequence::ArrayNaming;

// As its console sees it.
fn operated<
    'a,
    R: Wait + Clock,
    B: Blocks,
    F: Blocks,
    O: Opener<B>,
    N: ArrayNaming<Opened>,
    G: Drop,
>(rt: &'a R, server: &'a Server<Controllers<B, F, O, N>, G>) -> Operated<'a, R, B, F, O, N> {
    Operated {
        rt,
        controllers: &server.device.units,
        log: &server.log,
    }
}

/// The server of an array, as what administers it asks. Several threads share it.
#[derive(Drop)]
pub struct AdministeredServer<B: Blocks, F: Blocks, O: Opener<B>, N: ArrayNaming<Opened>, G: Drop> {
    pub server: Arc<Server<Controllers<B, F, O, N>, G>, Global>,
}

impl<B: Blocks, F: Blocks, O: Opener<B>, N: ArrayNaming<Opened>, G: Drop> Administered
    for AdministeredServer<B, F, O, N, G> {
    fn log(&self) -> &Log {
        &self.server.log
    }

    fn portals(&self, controller: Group) -> &[SocketAddrV4] {
        match controller {
            Group::One => &self.server.first,
            Group::Two => &self.server.second,
        }
    }

    fn count(&self) -> usize {
        self.server.device.units.units().count()
    }

    fn row<R: Wait>(&self, rt: &R, place: usize) -> Option<Row> {
        row_at(rt, self.server.device.units.units(), place)
    }

    fn registrations(&self, alloc: Global, place: usize) -> Option<Vec<Registration>> {
        registrations(alloc, self.server.device.units.units(), place)
    }

    fn say_status<R: Wait + Clock, W: Write>(&self, rt: &R, writer: &mut W) -> io::Result<()> {
        say_status(writer, &mut operated(rt, &self.server))
    }

    fn down<R: Wait + Clock>(&self, rt: &R, controller: Group) -> Result<(), usize> {
        operated(rt, &self.server).down(controller)
    }

    fn up<R: Wait + Clock>(&self, rt: &R, controller: Group) -> Result<(), usize> {
        operated(rt, &self.server).up(controller)
    }

    fn quit<R: Wait + Clock>(&self, rt: &R) -> Result<(), u8> {
        let mut operated = operated(rt, &self.server);
        operated.close();
        operated.flush()
    }

    fn shut<R: Wait>(&self, rt: &R, tsih: u16) -> bool {
        self.server.device.sessions.lock(rt).shut(tsih)
    }

    fn lives<R: Wait>(&self, rt: &R, tsih: u16) -> bool {
        self.server.device.sessions.lock(rt).has_tsih(tsih)
    }
}
