//! The array as it is served.

ghost use Rattle.std.specs.Prelude.{◌≡◌, ◌≤◌, length, map};
ghost use Rattle.session_units.specs.Disks.{AreOver};
ghost use Rattle.portal.specs.Lanes.{AreLanesOf};
ghost use Rattle.scsi_types.specs.declared.names.Group.TheVariants.{One, Two};
ghost use Rattle.unit_history.specs.Naming.{IsNamed};

use crate::portals::{self, Portal, Ports};
use array_administration::{
    Administration, Operations, Sockets, answer, console, control_path, open,
};
use array_files::{OpenArray, Parts, name_units, start_timed};
use array_operations::{AdministeredServer, Operated};
use array_units::Units;
use block_file::{Blocks, Opener};
use command_line::{Fault, MAX_UNITS, Options};
use disk_files::FileDevice;
use disk_preparer::{OnDisk, Preparer};
use event_log::Log;
use events::{Event, Resource};
use live_sessions::TargetDevice;
use portal::{Lane, Logins, Server, SmallStacks, listen, start_flushers, start_lanes};
use scsi_types::Group;
use session_units::{Controllers, Disks, Gate, Prepared};
use std::alloc::Global;
use std::fs::File;
use std::io::{BufRead, Write};
use std::marker::Brand;
use std::mem;
use std::net::{Net, SocketAddrV4, TcpListener, TcpStream};
use std::random::RandomSource;
use std::rt::Files;
use std::sync::{Arc, Mutex, Wait};
use std::thread::Threads;
use std::time::{Clock, Duration};
use unit_history::{NewUnit, Opened};
use unit_sequence::ArrayNaming;

// By what hosts find the array: the target's name, and where each controller's portals listen; and the log that is told.
#[derive(Drop)]
struct Found {
    target_name: Vec<u8>,
    first: Vec<SocketAddrV4>,
    second: Vec<SocketAddrV4>,
    log: Log,
}

// The portals that the words ask for, which listen, and what hosts find there.
fn open_portals<R: Net<Listener = TcpListener, Stream = TcpStream> + Clock>(
    rt: &R,
    alloc: Global,
    options: &Options<'_>,
    log: &Log,
) -> Result<(Vec<Portal>, Found), Fault> {
    let ports = Ports {
        host: options.host,
        second_host: options.second_host.unwrap_or(options.host),
        first: options.port,
        count: options.portals,
    };
    let portals = portals::open(rt, alloc, ports, log)?;
    let found = Found {
        target_name: Vec::from_slice(alloc, options.target.as_bytes())?,
        first: ports.of(Group::One).addresses(alloc)?,
        second: ports.of(Group::Two).addresses(alloc)?,
        log: log.share()?,
    };
    Ok((portals, found))
}

// The same, and from then on each disk is this array's unit, and no other one.
fn open_named<R: Net<Listener = TcpListener, Stream = TcpStream> + Clock + Files<File = File>>(
    rt: &R,
    alloc: Global,
    options: &Options<'_>,
    log: &Log,
) -> Result<(Vec<Portal>, Found), Fault> {
    let opened = open_portals(rt, alloc, options, log)?;
    name_units(rt, alloc, log, options)?;
    Ok(opened)
}

// The lanes of both controllers' desks.
type Lanes = ([Lane; 4], [Lane; 4]);

// An array that is served, which its threads share.
#[derive(Drop)]
struct Served<'a, N: ArrayNaming<Opened>, B: Blocks, F: Blocks, O: Opener<B>, G: Drop, R> {
    rt: &'a R,
    alloc: Global,
    server: Arc<Server<Controllers<B, F, O, N>, G>, Global>,
}

impl<
    'a,
    N: ArrayNaming<Opened> + Send + Sync + 'static,
    B: Blocks + Send + Sync + 'static,
    F: Blocks + Send + Sync + 'static,
    O: Opener<B> + Send + Sync + 'static,
    G: Gate + Drop + Send + Sync + 'static,
    R: Threads + Wait + Clock + RandomSource + Clone + Drop + Send + Sync + 'static,
> Served<'a, N, B, F, O, G, R> {
    // These units behind this gate, as hosts find them.
    fn new(
        rt: &'a R,
        alloc: Global,
        found: Found,
        units: Vec<NewUnit<B, F, O>>,
        gate: G,
    ) -> Result<Served<'a, N, B, F, O, G, R>, Fault>
        requires named { IsNamed N.book N.table N.opening B.contents units.items }
        requires count { length units.items ≤ MAX_UNITS }
    {
        let units = Units::<B, F, O, N>::new(rt, alloc, units)?;
        let controllers = Controllers::new(alloc, units)?;
        let Found {
            target_name,
            first,
            second,
            log,
        } = found;
        let server = Server {
            device: TargetDevice::new(alloc, controllers, gate),
            target_name,
            first,
            second,
            logins: Mutex::new(Logins::none(alloc)?),
            log,
        };
        match Arc::new(alloc, server) {
            Ok(server) => Ok(Served { rt, alloc, server }),
            Err(_) => Err(Fault::NoMemory),
        }
    }

    // Starts the accept loop of each portal, once both controllers have their lanes.
    fn accept_at(&self, portals: Vec<Portal>, _lanes: &Lanes) -> Result<(), Fault>
        requires first { AreLanesOf One _lanes.now.0 }
        requires second { AreLanesOf Two _lanes.now.1 }
    {
        for Portal { listener, group } in portals {
            let loops = listen(
                self.rt,
                self.alloc,
                listener,
                &self.server,
                group,
                SmallStacks,
            );
            if loops.is_err() {
                return Err(Fault::NoMemory);
            }
        }
        Ok(())
    }

    // Starts all its threads.
    fn start(
        &self,
        options: &Options<'_>,
        portals: Vec<Portal>,
        sockets: Sockets,
    ) -> Result<(), Fault> {
        let (rt, alloc) = (self.rt, self.alloc);
        let mut stacks = SmallStacks;
        let first = start_lanes(rt, &self.server, Group::One, &mut stacks)?;
        let second = start_lanes(rt, &self.server, Group::Two, &mut stacks)?;
        let units = self.server.device.units.units().count();
        start_flushers(rt, &self.server, units, &mut stacks)?;
        let server = Arc::try_clone(&self.server)?;
        let Ok(administered) = Arc::new(alloc, AdministeredServer { server }) else {
            return Err(Fault::NoMemory);
        };
        answer(rt, alloc, options, &administered, sockets)?;
        self.accept_at(portals, &(first, second))
    }

    // Serves these units, behind this gate, at these portals, until the console ends.
    fn run<I: BufRead + Drop, C: Write>(
        rt: &'a R,
        alloc: Global,
        options: &Options<'_>,
        portals: Vec<Portal>,
        found: Found,
        units: Vec<NewUnit<B, F, O>>,
        gate: G,
        sockets: Sockets,
        reader: I,
        writer: &mut C,
    ) -> Result<(), Fault>
        requires named { IsNamed N.book N.table N.opening B.contents units.items }
        requires count { length units.items ≤ MAX_UNITS }
    {
        let served = Served::<N, B, F, O, G, R>::new(rt, alloc, found, units, gate)?;
        served.start(options, portals, sockets)?;
        let server = &served.server;
        server.log.tell(rt, &Event::Ready);
        let mut operated = Operated {
            rt,
            controllers: &server.device.units,
            log: &server.log,
        };
        let ended = attend(alloc, reader, writer, &mut operated);
        server.device.gate.close();
        ended
    }
}

// Says that all portals listen, and obeys the console until it ends: how the flush of the units ended then. An output that fails
// counts as the end of the input.
fn attend<A: Operations, I: BufRead + Drop, C: Write>(
    alloc: Global,
    reader: I,
    writer: &mut C,
    array: &mut A,
) -> Result<(), Fault> {
    if writer.write_all(b"arrayd: ready\n").is_err() {
        array.close();
        return array.flush().map_err(Fault::NotFlushed);
    }
    console(alloc, reader, writer, array)
}

/// Tells the log of an array that ends for want of memory, or of a thread.
pub fn tell_want<R: Clock>(rt: &R, log: &Log, fault: Fault) {
    if fault == Fault::NoMemory {
        log.tell(rt, &Event::Wanting(Resource::Memory));
    }
}

// Serves an array, as `serve` does, under the names that are given to its units and to their disks.
fn serve_named<
    N: ArrayNaming<Opened> + Disks + Send + Sync + 'static,
    B: Blocks + OnDisk + Send + Sync + 'static,
    F: Blocks + Send + Sync + 'static,
    O: Opener<B> + Send + Sync + 'static,
    P: Preparer + Send + Sync + 'static,
    R: Threads
        + Wait
        + Clock
        + Files<File = File>
        + Net<Listener = TcpListener, Stream = TcpStream>
        + RandomSource
        + Clone
        + Drop
        + Send
        + Sync
        + 'static,
    I: BufRead + Drop,
    C: Write,
>(
    rt: &R,
    alloc: Global,
    options: &Options<'_>,
    array: OpenArray<B, F, O, P>,
    log: &Log,
    administration: Option<Administration<'_>>,
    reader: I,
    writer: &mut C,
) -> Result<(), Fault>
    requires named { IsNamed N.book N.table N.opening B.contents array.units.items }
    requires count { length array.units.items ≤ MAX_UNITS }
    requires disks { AreOver (λ new. B.OnDisk.disk new.unit.device) N.disk array.units.items }
    requires prepared { AreOver P.disk N.disk array.preparers.items }
{
    let OpenArray {
        units,
        preparers,
        locks,
    } = array;
    let gate = Prepared::<P, N>::new(preparers);
    let path = control_path(&administration);
    let ended = match open(rt, log, administration) {
        Ok(sockets) => {
            let ended = match open_named(rt, alloc, options, log) {
                Ok((portals, found)) => Served::<N, B, F, O, Prepared<P, N>, R>::run(
                    rt, alloc, options, portals, found, units, gate, sockets, reader, writer,
                ),
                Err(fault) => Err(fault),
            };
            if let Err(fault) = &ended {
                tell_want(rt, log, *fault);
            }
            array_administration::remove(rt, path);
            ended
        }
        Err(fault) => Err(fault),
    };
    event_log::close(rt, log);
    // They live as long as the process: a call of the system that hangs may still reach a file.
    mem::forget(locks);
    ended
}

/// Serves an array whose files are open, at the portals that the words ask for, until its console has no more lines for it or says
/// `quit`. Behind it the last lines of the log are written, and only then another server may have the files. The preparer at each
/// place is of the file that the unit there is over.
#[tactic(auto, using(session_units::specs::Disks::over_their_own, crate::proofs::Pairs::over_the_same))]
pub fn serve<
    B: Blocks + OnDisk + Send + Sync + 'static,
    F: Blocks + Send + Sync + 'static,
    O: Opener<B> + Send + Sync + 'static,
    P: Preparer + Send + Sync + 'static,
    R: Threads
        + Wait
        + Clock
        + Files<File = File>
        + Net<Listener = TcpListener, Stream = TcpStream>
        + RandomSource
        + Clone
        + Drop
        + Send
        + Sync
        + 'static,
    I: BufRead + Drop,
    C: Write,
>(
    rt: &R,
    alloc: Global,
    options: &Options<'_>,
    array: OpenArray<B, F, O, P>,
    log: &Log,
    administration: Option<Administration<'_>>,
    reader: I,
    writer: &mut C,
) -> Result<(), Fault>
    requires count { length array.units.items ≤ MAX_UNITS }
    requires disks { map (λ new. B.OnDisk.disk new.unit.device) array.units.items ≡ map P.disk array.preparers.items }
{
    serve_named::<Brand, B, F, O, P, R, I, C>(
        rt,
        alloc,
        options,
        array,
        log,
        administration,
        reader,
        writer,
    )
}

/// Serves the array over these parts, as `serve` does. Each call on their files takes so long at most.
pub fn serve_timed<
    R: Threads
        + Wait
        + Clock
        + Files<File = File>
        + Net<Listener = TcpListener, Stream = TcpStream>
        + RandomSource
        + Clone
        + Drop
        + Send
        + Sync
        + 'static,
    B: FileDevice + Send + Sync + 'static,
    F: FileDevice + Send + Sync + 'static,
    O: Opener<B> + Send + Sync + 'static,
    P: Preparer + Send + Sync + 'static,
    I: BufRead + Drop,
    C: Write,
>(
    rt: &R,
    alloc: Global,
    options: &Options<'_>,
    parts: Vec<Parts<B, F, O, P>>,
    patience: Duration,
    log: &Log,
    administration: Option<Administration<'_>>,
    reader: I,
    writer: &mut C,
) -> Result<(), Fault> {
    let array = match start_timed(rt, alloc, log, parts, patience) {
        Ok(array) => array,
        Err(fault) => {
            tell_want(rt, log, fault);
            event_log::close(rt, log);
            return Err(fault);
        }
    };
    serve(
        rt,
        alloc,
        options,
        array,
        log,
        administration,
        reader,
        writer,
    )
}
