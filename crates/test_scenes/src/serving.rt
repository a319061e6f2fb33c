//! An array with a portal a controller, and a script that its hosts perform.
ghost use Rattle.std.specs.Prelude.{◌≤◌, length};
ghost use Rattle.unit_history.specs.Naming.{IsNamed};

use crate::doors::Doors;
use crate::no_room::NoRoom;
use crate::scene::{Portals, Scene};
use crate::stage::Stage;
use crate::units::{Faults, in_memory, opened};
use array_operations::Operated;
use array_units::Units;
use block_file::{Blocks, FusedBlocks, FusedOpener, KeepOpener, Opener};
use event_log::Log;
use live_sessions::TargetDevice;
use portal::{Logins, Server, SmallStacks, Socket, Stop, listen, start_lanes};
use scsi_types::Group;
use session_units::Controllers;
use std::alloc::Global;
use std::io::Eprint;
use std::marker::Brand;
use std::net::{Ipv4Addr, Net, SocketAddr, SocketAddrV4, TcpListener, TcpStream};
use std::sync::{Arc, Mutex, Wait};
use std::test::Fail;
use std::thread::{JoinHandle, Threads};
use std::time::Clock;
use test_connections::Host;
use test_memory::Latch;
use unit_history::{NewUnit, Opened};
use unit_sequence::ArrayNaming;

/// What the hosts of an array do, of one unit or of two, and where it listens: at this address, and at these ports of its two
/// controllers. So many connections to each find no thread. Its portals may be hasty: where no connection waits, an accept fails. The
/// last unit is opened anew so often. What a host sends goes out in pieces of so many bytes.
#[derive(Clone, Copy)]
pub struct Script<'a> {
    pub name: &'a str,
    pub host: Ipv4Addr,
    pub ports: [u16; 2],
    pub refused: u32,
    pub is_hasty: bool,
    pub is_alone: bool,
    pub opens: u64,
    pub piece: usize,
    pub text: &'a str,
}

impl<'a> Script<'a> {
    /// That of a part of a table: its name and, behind semicolons, what is not as usual; and then the lines.
    pub fn of(part: &'a str) -> Script<'a> {
        let (head, text) = part.trim_start().split_once('\n').unwrap_or((part, ""));
        let (name, words) = head.split_once("; ").unwrap_or((head, ""));
        let mut script = Script::new(name, text);
        script.take(words);
        script
    }

    // Takes what is not as usual. A word that says nothing leaves no lines, which a stage refuses.
    fn take(&mut self, words: &str) {
        match words {
            "" => {}
            "one unit" => self.is_alone = true,
            "no open" => self.opens = 0,
            "no thread for two" => self.refused = 2,
            "accepts that fail" => self.is_hasty = true,
            _ => self.text = "",
        }
    }

    /// At two ports of the loopback that are free, and of two units.
    pub fn new(name: &'a str, text: &'a str) -> Script<'a> {
        Script {
            name,
            host: Ipv4Addr::new(127, 0, 0, 1),
            ports: [0, 0],
            refused: 0,
            is_hasty: false,
            is_alone: false,
            opens: u64::MAX,
            piece: usize::MAX,
            text,
        }
    }
}

/// An array that fails so while hosts perform a script, and, started again, does not while they perform another, which stands
/// behind the first and an empty line.
#[derive(Clone, Copy)]
pub struct Story<'a> {
    pub name: &'a str,
    pub fault: &'a str,
    pub scripts: &'a str,
}

/// A portal that is served.
#[derive(Drop)]
struct Served {
    stop: Stop,
    worker: JoinHandle<()>,
}

/// A portal that listens, and where.
#[derive(Drop)]
struct Listening {
    listener: TcpListener,
    at: SocketAddrV4,
}

// A portal at this port, or at one that is free. It may be hasty.
fn bind<R: Net<Listener = TcpListener, Stream = TcpStream>>(
    rt: &R,
    host: Ipv4Addr,
    port: u16,
    is_hasty: bool,
) -> Result<Listening, Fail> {
    let listener = TcpListener::bind(rt, (host, port))?;
    listener.set_nonblocking(is_hasty)?;
    let SocketAddr::V4(at) = listener.local_addr()? else {
        return Err("an address".into());
    };
    Ok(Listening { listener, at })
}

// Both portals of a script.
fn bind_both<R: Net<Listener = TcpListener, Stream = TcpStream>>(
    rt: &R,
    script: &Script<'_>,
) -> Result<(Listening, Listening), Fail> {
    let [first, second] = script.ports;
    let first = bind(rt, script.host, first, script.is_hasty)?;
    let second = bind(rt, script.host, second, script.is_hasty)?;
    Ok((first, second))
}

// Serves a portal of a group, whose controller has its lanes.
fn serve<
    N: ArrayNaming<Opened> + Send + Sync + 'static,
    B: Blocks + Send + Sync + 'static,
    F: Blocks + Send + Sync + 'static,
    O: Opener<B> + Send + Sync + 'static,
    R: Threads + Wait + Clock + Clone + Drop + Send + Sync + 'static,
>(
    rt: &R,
    alloc: Global,
    listener: TcpListener,
    server: &Arc<Server<Controllers<B, F, O, N>, Doors<R>>, Global>,
    group: Group,
    stacks: NoRoom,
) -> Result<Served, Fail> {
    let stop = Stop::of(&listener)?;
    let _ = start_lanes::<N, B, F, O, Doors<R>, R, SmallStacks>(
        rt,
        server,
        group,
        &mut SmallStacks,
    )?;
    let worker = listen(rt, alloc, listener, server, group, stacks)?;
    Ok(Served { stop, worker })
}

// Ends the accept loop of a portal.
fn end<R: Threads>(rt: &R, served: Served) -> Result<(), Fail> {
    let Served { stop, worker } = served;
    stop.stop()?;
    worker.join(rt);
    Ok(())
}

// Hosts perform a script: these, whose sessions may still be open. Where a line fails, it is told which.
fn performed<R: Eprint, S: Scene>(
    rt: &R,
    alloc: Global,
    scene: &mut S,
    script: &Script<'_>,
) -> Result<Vec<Host>, Fail> {
    let mut stage = Stage::new(alloc, scene, script.piece)?;
    let end = stage.perform(script.text);
    if end.is_err() {
        let (name, line) = (script.name, stage.line());
        let _ = rt.eprintln(format_args!("{name}: {line}"));
    }
    end?;
    Ok(stage.into_hosts())
}

/// What a target tells of itself, and the logins that it counts.
#[derive(Drop)]
struct Told {
    name: Vec<u8>,
    first: Vec<SocketAddrV4>,
    second: Vec<SocketAddrV4>,
    logins: Logins<Socket>,
}

// That of a target at these portals, where nobody logs in yet.
fn told_at(alloc: Global, first: SocketAddrV4, second: SocketAddrV4) -> Result<Told, Fail> {
    Ok(Told {
        name: Vec::from_slice(alloc, b"iqn.2000-01.test:array")?,
        first: Vec::from_slice(alloc, &[first])?,
        second: Vec::from_slice(alloc, &[second])?,
        logins: Logins::none(alloc)?,
    })
}

/// What there is of an array beside its units: its portals, what it tells, and its gate, at which nothing hangs yet.
#[derive(Drop)]
struct Begun<R: Wait + Drop> {
    first: Listening,
    second: Listening,
    told: Told,
    log: Log,
    gate: Doors<R>,
}

// What serves these units behind a gate.
fn server_of<N: ArrayNaming<Opened>, B: Blocks, F: Blocks, O: Opener<B>, R>(
    rt: &R,
    alloc: Global,
    new: Vec<NewUnit<B, F, O>>,
    told: Told,
    log: Log,
    gate: Doors<R>,
) -> Result<Arc<Server<Controllers<B, F, O, N>, Doors<R>>, Global>, Fail>
where
    R: Wait + Drop,
    requires named { IsNamed N.book N.table N.opening B.contents new.items }
    requires count { length new.items ≤ 8 }
{
    let units = Units::<B, F, O, N>::new(rt, alloc, new)?;
    let controllers = Controllers::new(alloc, units)?;
    let Told {
        name,
        first,
        second,
        logins,
    } = told;
    let server = Server {
        device: TargetDevice::new(alloc, controllers, gate),
        target_name: name,
        first,
        second,
        logins: Mutex::new(logins),
        log,
    };
    Ok(Arc::new(alloc, server)?)
}

// A gate that is open.
fn gate<R: Wait + Clone + Drop>(rt: &R) -> Result<Doors<R>, Fail> {
    let (mine, first, second) = (rt.clone()?, rt.clone()?, rt.clone()?);
    Ok(Doors::new(mine, Latch::open(first), Latch::open(second)))
}

// Hosts perform a script before these portals: the hosts.
fn performed_before<
    N: ArrayNaming<Opened>,
    B: Blocks,
    F: Blocks,
    O: Opener<B>,
    R: Wait + Clock + Eprint + Net<Listener = TcpListener, Stream = TcpStream> + Drop,
>(
    rt: &R,
    alloc: Global,
    server: &Server<Controllers<B, F, O, N>, Doors<R>>,
    ports: [u16; 2],
    disk: &Latch<R>,
    script: &Script<'_>,
) -> Result<Vec<Host>, Fail> {
    let log = Log::off();
    let mut array = Operated {
        rt,
        controllers: &server.device.units,
        log: &log,
    };
    let mut scene = Portals {
        rt,
        ports,
        gate: &server.device.gate,
        disk,
        sessions: &server.device.sessions,
        array: &mut array,
    };
    performed(rt, alloc, &mut scene, script)
}

// Both portals are served while hosts perform a script: the ports, and the hosts.
fn serve_both<
    N: ArrayNaming<Opened> + Send + Sync + 'static,
    B: Blocks + Send + Sync + 'static,
    F: Blocks + Send + Sync + 'static,
    O: Opener<B> + Send + Sync + 'static,
    R: Threads
        + Wait
        + Clock
        + Eprint
        + Net<Listener = TcpListener, Stream = TcpStream>
        + Clone
        + Drop
        + Send
        + Sync
        + 'static,
>(
    rt: &R,
    alloc: Global,
    server: &Arc<Server<Controllers<B, F, O, N>, Doors<R>>, Global>,
    first: Listening,
    second: Listening,
    disk: &Latch<R>,
    script: &Script<'_>,
) -> Result<([u16; 2], Vec<Host>), Fail> {
    let stacks = NoRoom {
        refused: script.refused,
    };
    let ports = [first.at.port(), second.at.port()];
    let Listening {
        listener: first,
        ..
    } = first;
    let Listening {
        listener: second,
        ..
    } = second;
    let first = serve::<N, B, F, O, R>(rt, alloc, first, server, Group::One, stacks)?;
    let second = serve::<N, B, F, O, R>(rt, alloc, second, server, Group::Two, stacks)?;
    let hosts = performed_before(rt, alloc, server, ports, disk, script)?;
    end(rt, first)?;
    end(rt, second)?;
    Ok((ports, hosts))
}

/// Where arrays are served, and the log that is told of them, where it is on.
#[derive(Clone, Copy)]
pub struct Machine<'a, R> {
    rt: &'a R,
    alloc: Global,
    log: Option<&'a Log>,
}

impl<'a, R: AllocGlobal> Machine<'a, R> {
    /// That of a test.
    pub fn of(rt: &'a R) -> Machine<'a, R> {
        Machine {
            rt,
            alloc: rt.alloc(),
            log: None,
        }
    }

    /// That of a test, of which this log is told.
    pub fn told(rt: &'a R, log: &'a Log) -> Machine<'a, R> {
        Machine {
            rt,
            alloc: rt.alloc(),
            log: Some(log),
        }
    }
}

impl<
    R: Threads
        + Wait
        + Clock
        + Eprint
        + Net<Listener = TcpListener, Stream = TcpStream>
        + Clone
        + Drop
        + Send
        + Sync
        + 'static,
> Machine<'_, R> {
    // Begins an array for a script.
    fn begin(&self, script: &Script<'_>) -> Result<Begun<R>, Fail> {
        let Machine { rt, alloc, .. } = *self;
        let (gate, log) = (gate(rt)?, self.log()?);
        let (first, second) = bind_both(rt, script)?;
        Ok(Begun {
            told: told_at(alloc, first.at, second.at)?,
            log,
            gate,
            first,
            second,
        })
    }

    /// Serves these units, whose devices may hang at this latch, while hosts perform a script: the ports, and the hosts, whose
    /// sessions may still be open.
    pub fn perform<
        N: ArrayNaming<Opened> + Send + Sync + 'static,
        B: Blocks + Send + Sync + 'static,
        F: Blocks + Send + Sync + 'static,
        O: Opener<B> + Send + Sync + 'static,
    >(
        &self,
        new: Vec<NewUnit<B, F, O>>,
        disk: &Latch<R>,
        script: &Script<'_>,
    ) -> Result<([u16; 2], Vec<Host>), Fail>
        requires named { IsNamed N.book N.table N.opening B.contents new.items }
        requires count { length new.items ≤ 8 }
    {
        let Machine { rt, alloc, .. } = *self;
        let Begun {
            first,
            second,
            told,
            log,
            gate,
        } = self.begin(script)?;
        let server = server_of::<N, B, F, O, R>(rt, alloc, new, told, log, gate)?;
        let ended = serve_both::<N, B, F, O, R>(rt, alloc, &server, first, second, disk, script);
        if ended.is_ok() {
            server.device.units.close(rt);
        }
        ended
    }

    // Another hand on its log.
    fn log(&self) -> Result<Log, Fail> {
        let Some(log) = self.log else {
            return Ok(Log::off());
        };
        Ok(log.share()?)
    }

    /// Hosts perform a script before units in memory.
    pub fn run(&self, script: &Script<'_>) -> Result<(), Fail> {
        let Machine { rt, alloc, .. } = *self;
        let disk = Arc::new(alloc, Latch::open(rt.clone()?))?;
        let units = in_memory(alloc, &disk, script.is_alone, script.opens)?;
        let _ended = self.perform::<Brand, _, _, _>(units, &disk, script)?;
        Ok(())
    }

    /// Hosts perform each script of a table, and what they send goes out in pieces of so many bytes.
    pub fn run_all(&self, table: &str, piece: usize) -> Result<(), Fail> {
        for part in table.split("\n\n") {
            let mut script = Script::of(part);
            script.piece = piece;
            self.run(&script)?;
        }
        Ok(())
    }

    // Serves a unit over devices that fail so while hosts perform a script: the ports, and the hosts, whose sessions may still be open.
    fn serve_failing<B: Blocks + Send + Sync + 'static, F: Blocks + Send + Sync + 'static>(
        &self,
        blocks: B,
        file: F,
        faults: Faults,
        script: &Script<'_>,
    ) -> Result<([u16; 2], Vec<Host>), Fail> {
        let blocks = FusedBlocks::inside(blocks, faults.passed, faults.landed);
        let file = FusedBlocks::new(file, faults.registration_calls());
        let opener = FusedOpener::new(KeepOpener, faults.opened);
        let units = opened(self.alloc, blocks, opener, file)?;
        let disk = Latch::open(self.rt.clone()?);
        self.perform::<Brand, _, _, _>(units, &disk, script)
    }

    /// Runs a story over the first devices, and behind the restart over the others of the same files.
    pub fn run_twice<B: Blocks + Send + Sync + 'static, F: Blocks + Send + Sync + 'static>(
        &self,
        story: &Story<'_>,
        first: B,
        first_file: F,
        blocks: B,
        file: F,
    ) -> Result<(), Fail> {
        let (before, after) = story.scripts.split_once("\n\n").unwrap_or(("", ""));
        let before = Script::new(story.name, before);
        let faults = Faults::of(story.fault);
        let (ports, hosts) = self.serve_failing(first, first_file, faults, &before)?;
        let again = Script {
            ports,
            ..Script::new(story.name, after)
        };
        let _ended = self.serve_failing(blocks, file, Faults::of(""), &again)?;
        drop(hosts);
        Ok(())
    }
}
