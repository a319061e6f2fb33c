//! What a script meets: the portals to which its hosts connect, and what is behind them. `Stage` sees no more of an array, so
//! that its functions know neither the units nor their gate, and cost little to prove.
use crate::doors::{Doors, Flushes};
use array_administration::{Operations, console};
use live_sessions::Table;
use portal::Socket;
use std::alloc::Global;
use std::net::{Ipv4Addr, Net, SocketAddrV4, TcpListener, TcpStream};
use std::sync::{Mutex, Wait};
use std::test::Fail;
use std::thread;
use std::time::{Clock, Duration};
use test_connections::Host;
use test_memory::Latch;

/// Where calls may hang: commands before their unit, flushes behind it, or the writes of devices.
#[derive(Clone, Copy)]
pub enum Place {
    Commands,
    Flushes,
    Disks,
}

/// The portals of an array, and what a script asks of it behind them.
pub trait Scene {
    /// The ports of both portals.
    fn ports(&self) -> [u16; 2];

    /// A connection to the portal of controller 1 or 2.
    fn connect(&self, controller: usize) -> Result<Host, Fail>;

    /// From now on the calls of this unit hang there; or those go on that hung.
    fn hold(&self, place: Place, unit: Option<usize>);

    /// Waits until so many hang there.
    fn await_held(&self, place: Place, count: u32);

    /// What becomes of the flushes that are left to the gate.
    fn come_to(&self, end: Flushes);

    /// The unit of the last flush that was asked for since this was asked last.
    fn asked_for(&self) -> Option<usize>;

    /// How many entries the row of a unit tells of, where there is one.
    fn entries(&mut self, unit: u8) -> Option<u64>;

    /// What the lines of the program's console are answered. Behind them the desks are closed.
    fn answers(&mut self, alloc: Global, lines: &str) -> Result<String, Fail>;

    /// Ends the session with this TSIH, as an administrator does.
    fn end(&self, tsih: u16);

    /// Closes the desks.
    fn close(&mut self);

    /// Lets so many seconds pass.
    fn pass(&self, seconds: u64);
}

/// The portals of an array at these ports, with this gate and these sessions, whose devices hang at this latch.
#[derive(Drop)]
pub struct Portals<'a, R: Wait + Drop, A: Operations> {
    pub rt: &'a R,
    pub ports: [u16; 2],
    pub gate: &'a Doors<R>,
    pub disk: &'a Latch<R>,
    pub sessions: &'a Mutex<Table<Socket>>,
    pub array: &'a mut A,
}

impl<R: Wait + Drop, A: Operations> Portals<'_, R, A> {
    fn latch(&self, place: Place) -> &Latch<R> {
        match place {
            Place::Commands => &self.gate.commands,
            Place::Flushes => &self.gate.flushes,
            Place::Disks => self.disk,
        }
    }
}

impl<R: Wait + Clock + Net<Listener = TcpListener, Stream = TcpStream> + Drop, A: Operations> Scene
    for Portals<'_, R, A> {
    fn ports(&self) -> [u16; 2] {
        self.ports
    }

    fn connect(&self, controller: usize) -> Result<Host, Fail> {
        let here = Ipv4Addr::new(127, 0, 0, 1);
        match self.ports.get(controller.wrapping_sub(1)) {
            Some(port) => Host::connect(self.rt, SocketAddrV4::new(here, *port)),
            None => Err("a controller".into()),
        }
    }

    fn hold(&self, place: Place, unit: Option<usize>) {
        self.latch(place).hold(unit);
    }

    fn await_held(&self, place: Place, count: u32) {
        self.latch(place).await_held(count);
    }

    fn come_to(&self, end: Flushes) {
        self.gate.come_to(end);
    }

    fn asked_for(&self) -> Option<usize> {
        self.gate.asked_for()
    }

    fn entries(&mut self, unit: u8) -> Option<u64> {
        match self.array.status(unit) {
            Some(row) => Some(row.entries),
            None => None,
        }
    }

    fn answers(&mut self, alloc: Global, lines: &str) -> Result<String, Fail> {
        let mut written = Vec::new(alloc);
        let _ = console(alloc, lines.as_bytes(), &mut written, self.array);
        Ok(String::from_utf8(written)?)
    }

    fn end(&self, tsih: u16) {
        let _ = self.sessions.lock(self.rt).shut(tsih);
    }

    fn close(&mut self) {
        self.array.close();
    }

    fn pass(&self, seconds: u64) {
        thread::sleep(self.rt, Duration::from_secs(seconds));
    }
}
