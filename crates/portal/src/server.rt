//! Sessions over sockets: an accept loop a portal, a worker a session.
ghost use Rattle.std.specs.Prelude.{◌≡◌, IfOk, map};
ghost use Rattle.std.specs.Arc.{arc_value};
ghost use Rattle.portal.specs.Server.{named_by};
ghost use Rattle.live_sessions.specs.Silence.{has_limit, login_silence};

use crate::keepalive::is_kept_alive;
use crate::logged_target::Visitor;
use crate::login_limit::LimitedSource;
use crate::logins::{LoginPlace, Logins};
use crate::observer::Observer;
use crate::stacks::{STACK, Stacks};
use crate::wire::{KeptSource, ObservedSink};
use crate::worker::serve_session;
use event_log::Log;
use events::{Event, Initiator, Path, Resource, Why};
use libc::EMFILE;
use live_sessions::{Connection, Table, TargetDevice};
use scsi_types::{Group, NoMemory};
use session::{End, TargetRecord, Watched};
use session_units::{Gate, LogicalUnits};
use std::alloc::{AllocError, Global};
use std::io::ErrorKind;
use std::net::{Ipv4Addr, Shutdown, SocketAddr, SocketAddrV4, TcpListener, TcpStream};
use std::os::fd::OwnedFd;
use std::sync::{Arc, Mutex, Wait};
use std::thread::{Builder, JoinHandle, Threads};
use std::time::{Clock, Duration};
use std::{io, thread};

/// So many seconds may a login take, and be silent.
const LOGIN_SILENCE: u64 = 30;

/// So many milliseconds an accept loop rests where no connection could be accepted.
const REST_MS: u64 = 100;

/// The system has no descriptor more, as Linux numbers it.
const ENFILE: i32 = 23;

/// What a connection is to the table of sessions: its socket, of which it has a share.
pub type Socket = Arc<TcpStream, Global>;

/// A target device that is reached through portals.
pub struct Server<U: Drop, G: Drop> {
    /// Its units and its sessions.
    pub device: TargetDevice<U, G, Mutex<Table<Socket>>>,
    /// The target's name (RFC 7143, 4.2.7).
    pub target_name: Vec<u8>,
    /// The portals of the first controller, in order. The address 0.0.0.0 stands for that which a connection reached.
    pub first: Vec<SocketAddrV4>,
    /// The portals of the second controller, in order.
    pub second: Vec<SocketAddrV4>,
    /// The connections whose login is not over. No lock is taken while theirs is held.
    pub logins: Mutex<Logins<Socket>>,
    /// What happens is told to it.
    pub log: Log,
}

impl<U: Drop, G: Drop> Drop for Server<U, G> {
    fn drop(self) {
        let Self {
            device: _,
            target_name: _,
            first: _,
            second: _,
            logins: _,
            log: _,
        } = self;
    }
}

// The address that initiators are told of a portal: its own, or that which a connection reached.
fn named_by(reached: Ipv4Addr, portal: &SocketAddrV4) -> SocketAddrV4
    ensures { result ≡ named_by reached portal.now }
{
    if portal.ip().octets() == [0; 4] {
        SocketAddrV4::new(reached, portal.port())
    } else {
        *portal
    }
}

// What initiators are told of these portals.
fn named(
    alloc: Global,
    reached: Ipv4Addr,
    portals: &[SocketAddrV4],
) -> Result<Vec<SocketAddrV4>, AllocError>
    ensures { IfOk result (λ told. told.items ≡ map (named_by reached) portals.now) }
{
    let mut told = Vec::with_capacity(alloc, portals.len())?;
    for portal in portals {
        told.push_reserved(named_by(reached, portal));
    }
    Ok(told)
}

// How a connection came, by a portal of a group. The address and the port are zeros where the system does not tell them.
fn path_of(socket: &TcpStream, group: Group) -> Path {
    Path {
        from: v4(socket.peer_addr()),
        portal: v4(socket.local_addr()),
        tag: u16::from(group.number()),
    }
}

fn v4(address: io::Result<SocketAddr>) -> SocketAddrV4 {
    match address {
        Ok(SocketAddr::V4(address)) => address,
        _ => SocketAddrV4::new(Ipv4Addr::UNSPECIFIED, 0),
    }
}

// Why a connection was cut off, as the log tells it: who did it, where that is known, or else this.
fn cut_off(visitor: &Visitor, is_lost: bool, otherwise: Why) -> Why {
    if visitor.was_shut {
        Why::ByConsole
    } else if visitor.is_replaced {
        Why::Replaced
    } else if is_lost {
        Why::PushedOut
    } else {
        otherwise
    }
}

// Why a session or a connection ended, as the log tells it, or the status with which its login was refused; also where its place was lost
// to a connection that came later.
fn why(end: End, visitor: &Visitor, is_lost: bool) -> Result<Why, u16> {
    match end {
        End::LoginRefused(status) => Err(status),
        End::LoggedOut => Ok(Why::Logout),
        End::Rejected {
            reason,
            opcode,
            tag,
        } => Ok(Why::Rejected(reason, opcode, tag)),
        End::Gap => Ok(Why::Gap),
        End::Reinstated => Ok(Why::Replaced),
        End::EndOfInput => Ok(cut_off(visitor, is_lost, Why::Closed)),
        End::InputFailed => Ok(cut_off(visitor, is_lost, Why::InputFailed)),
        End::OutputFailed => Ok(cut_off(visitor, is_lost, Why::OutputFailed)),
    }
}

// Tells how a session, or a login, ended.
fn tell_end<R: Clock>(
    rt: &R,
    log: &Log,
    path: Path,
    end: End,
    visitor: &Visitor,
    named: Initiator<'_>,
    is_lost: bool,
) {
    match why(end, visitor, is_lost) {
        Err(status) => log.tell(rt, &Event::LoginRefused(named, path, status, visitor.lacks)),
        Ok(why) if visitor.tsih == 0 => log.tell(rt, &Event::ConnectionEnded(path, why)),
        Ok(why) => {
            let (who, tsih, kind) = (visitor.initiator(), visitor.tsih, visitor.kind);
            log.tell(rt, &Event::SessionEnded(who, path, tsih, kind, why));
        }
    }
}

// Serves the session of a connection of a host that is told this of the target, and tells how it ended.
fn serve_as<R: Wait + Clock, U: LogicalUnits + Drop, G: Gate + Drop>(
    rt: &R,
    alloc: Global,
    server: &Server<U, G>,
    group: Group,
    socket: &Socket,
    place: &LoginPlace<'_, R, Socket>,
    path: Path,
    me: &TargetRecord<'_>,
) -> Result<(), NoMemory>
    requires { has_limit (arc_value socket.now) login_silence }
{
    let Ok(connection) = Arc::try_clone(socket) else {
        return Err(NoMemory);
    };
    let stream: &TcpStream = socket;
    let observer = Observer::new(rt, &server.log, path);
    let timed = LimitedSource::new(
        Watched::timed(stream),
        rt,
        socket,
        place,
        &observer,
        LOGIN_SILENCE,
    );
    let mut source = KeptSource::new(alloc, timed, &observer);
    let mut sink = ObservedSink::new(Watched::new(stream), &observer);
    let served = match serve_session::<
        R,
        U,
        G,
        Mutex<Table<Socket>>,
        KeptSource<'_, R, LimitedSource<'_, R, Watched<&TcpStream>, Socket>>,
        ObservedSink<'_, R, Watched<&TcpStream>>,
    >(
        rt,
        alloc,
        &server.device,
        group,
        connection,
        &mut source,
        &mut sink,
        me,
        &observer,
    ) {
        Ok((end, visitor, _seen)) => {
            let (isid, name) = source.initiator();
            let named = Initiator { name, isid };
            let is_lost = place.is_lost();
            tell_end(rt, &server.log, path, end, &visitor, named, is_lost);
            Ok(())
        }
        Err(NoMemory) => Err(NoMemory),
    };
    // Who is no longer counted among those that are in has left the log its line.
    observer.leave();
    served
}

// Serves the session of a connection.
fn serve_socket<R: Wait + Clock, U: LogicalUnits + Drop, G: Gate + Drop>(
    rt: &R,
    alloc: Global,
    server: &Server<U, G>,
    group: Group,
    socket: &Socket,
    place: &LoginPlace<'_, R, Socket>,
    path: Path,
) -> Result<(), NoMemory>
    requires { has_limit (arc_value socket.now) login_silence }
{
    let reached = *path.portal.ip();
    let first = named(alloc, reached, &server.first)?;
    let second = named(alloc, reached, &server.second)?;
    let me = TargetRecord {
        target_name: &server.target_name,
        first: &first,
        second: &second,
    };
    serve_as(rt, alloc, server, group, socket, place, path, &me)
}

// Tells of a connection for which there was no memory.
fn tell_no_memory<R: Clock>(rt: &R, log: &Log, path: Path) {
    log.tell(rt, &Event::ConnectionEnded(path, Why::NoMemory));
}

// Serves the session of a connection with this number, and tells where there was no memory for it. Then the connection ends.
fn work<R: Wait + Clock, U: LogicalUnits + Drop, G: Gate + Drop>(
    rt: &R,
    alloc: Global,
    server: &Server<U, G>,
    group: Group,
    socket: &Socket,
    number: u64,
) {
    let stream: &TcpStream = socket;
    let _ = stream.set_nodelay(true);
    socket.limit(LOGIN_SILENCE);
    let path = path_of(stream, group);
    if !is_kept_alive(stream) {
        server.log.tell(rt, &Event::NoKeepalive(path.from));
    }
    let place = LoginPlace::new(rt, &server.logins, number);
    if serve_socket(rt, alloc, server, group, socket, &place, path).is_err() {
        tell_no_memory(rt, &server.log, path);
    }
    place.leave();
    socket.shut();
}

// The number of a connection that has come; an error where too many threads serve logins, or there is no memory.
fn admit<R: Wait, U: Drop, G: Drop>(
    rt: &R,
    server: &Server<U, G>,
    socket: &Socket,
) -> io::Result<u64> {
    let socket = Arc::try_clone(socket)?;
    match server.logins.lock(rt).admit(socket) {
        Some(number) => Ok(number),
        None => Err(ErrorKind::WouldBlock.into()),
    }
}

// Starts the worker of a connection. Where there is no memory or no thread for it, the connection ends.
fn start<
    R: Threads + Wait + Clock + Clone + Drop + Send + 'static,
    U: LogicalUnits + Drop + Send + Sync + 'static,
    G: Gate + Drop + Send + Sync + 'static,
    S: Stacks,
>(
    rt: &R,
    alloc: Global,
    server: &Arc<Server<U, G>, Global>,
    group: Group,
    stream: TcpStream,
    stacks: &mut S,
) -> io::Result<()>
where
    U::Right: Send + 'static,
    U::History: Send + 'static,
{
    let socket = Arc::new(alloc, stream)?;
    let shared = Arc::try_clone(server)?;
    let mine = rt.clone()?;
    let number = admit(rt, server, &socket)?;
    let work = move || work(&mine, alloc, &shared, group, &socket, number);
    let worker: io::Result<JoinHandle<()>> = Builder::new()
        .stack_size(stacks.next_stack())
        .spawn(rt, work);
    if let Err(e) = worker {
        server.logins.lock(rt).leave(number);
        return Err(e);
    }
    Ok(())
}

// What was wanting where a worker was not started.
fn wanting_of(started: io::Result<()>) -> Option<Resource> {
    match started {
        Ok(()) => None,
        Err(e) if e.kind() == ErrorKind::OutOfMemory => Some(Resource::Memory),
        Err(_) => Some(Resource::Thread),
    }
}

// What was wanting where no connection was accepted: a descriptor, where the process or the system has no more of them.
fn unaccepted(e: &io::Error) -> Resource {
    let error = e.raw_os_error().unwrap_or(0);
    if error == ENFILE || error == EMFILE {
        Resource::Descriptor
    } else {
        Resource::Connection
    }
}

// What an accept that failed leads to.
#[derive(Clone, Copy)]
enum NotAccepted {
    // The portal is stopped.
    Stopped,
    // The peer went away.
    GoneAway,
    // This was wanting.
    Wanting(Resource),
}

// Why no connection was accepted. Where something was wanting, it rests.
fn failed_accept<R: Clock>(rt: &R, e: io::Error) -> NotAccepted {
    match e.kind() {
        ErrorKind::InvalidInput => NotAccepted::Stopped,
        ErrorKind::ConnectionAborted => NotAccepted::GoneAway,
        _ => {
            thread::sleep(rt, Duration::from_millis(REST_MS));
            NotAccepted::Wanting(unaccepted(&e))
        }
    }
}

// Tells what was wanting, unless something was told since a connection was served: whether it was told now, or before.
fn tell_wanting<R: Clock>(rt: &R, log: &Log, wanting: Option<Resource>, is_told: bool) -> bool {
    match wanting {
        Some(what) => {
            if !is_told {
                log.tell(rt, &Event::Wanting(what));
            }
            true
        }
        None => false,
    }
}

/// Accepts connections by a portal of a group, a worker each, until the portal is stopped. An accept that fails for want of a
/// descriptor, or by a peer that went away, is no end; nor is a connection for which there is no thread, which is closed.
pub fn accept<
    R: Threads + Wait + Clock + Clone + Drop + Send + 'static,
    U: LogicalUnits + Drop + Send + Sync + 'static,
    G: Gate + Drop + Send + Sync + 'static,
    S: Stacks,
>(
    rt: &R,
    alloc: Global,
    listener: &TcpListener,
    server: &Arc<Server<U, G>, Global>,
    group: Group,
    stacks: &mut S,
)
where
    U::Right: Send + 'static,
    U::History: Send + 'static,
{
    // What was wanting is told once, until a connection is served again.
    let mut is_told = false;
    for stream in listener.incoming() {
        let wanting = match stream {
            Ok(stream) => wanting_of(start(rt, alloc, server, group, stream, stacks)),
            Err(e) => match failed_accept(rt, e) {
                NotAccepted::Stopped => return,
                NotAccepted::GoneAway => continue,
                NotAccepted::Wanting(what) => Some(what),
            },
        };
        is_told = tell_wanting(rt, &server.log, wanting, is_told);
    }
}

/// Starts the accept loop of a portal of a group in a thread of its own. The workers of its connections have these stacks.
pub fn listen<
    R: Threads + Wait + Clock + Clone + Drop + Send + 'static,
    U: LogicalUnits + Drop + Send + Sync + 'static,
    G: Gate + Drop + Send + Sync + 'static,
    S: Stacks + Drop + Send + 'static,
>(
    rt: &R,
    alloc: Global,
    listener: TcpListener,
    server: &Arc<Server<U, G>, Global>,
    group: Group,
    stacks: S,
) -> io::Result<JoinHandle<()>>
where
    U::Right: Send + 'static,
    U::History: Send + 'static,
{
    let server = Arc::try_clone(server)?;
    let mine = rt.clone()?;
    let mut stacks = stacks;
    let work = move || { accept(&mine, alloc, &listener, &server, group, &mut stacks) };
    Builder::new().stack_size(STACK).spawn(rt, work)
}

/// Ends the accept loop of a portal.
#[derive(Drop)]
pub struct Stop {
    // The listening socket once more, typed as a stream, which can be shut down.
    socket: TcpStream,
}

impl Stop {
    /// What ends the accept loop of this listener.
    pub fn of(listener: &TcpListener) -> io::Result<Stop> {
        let again = listener.try_clone()?;
        Ok(Stop {
            socket: TcpStream::from(OwnedFd::from(again)),
        })
    }

    /// Each accept, one that waits or a later one, ends the loop.
    pub fn stop(&self) -> io::Result<()> {
        self.socket.shutdown(Shutdown::Both)
    }
}
