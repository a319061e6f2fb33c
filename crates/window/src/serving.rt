//! The connections of a window, a thread each.

use crate::handler::{Collector, Handler};
use http_server::{Config, Connection};
use http1::Limits;
use std::alloc::Global;
use std::hash::RandomState;
use std::io::{self, ErrorKind, Read};
use std::net::{Ipv4Addr, Shutdown, SocketAddr, TcpListener, TcpStream};
use std::random::RandomSource;
use std::sync::{Arc, Mutex, Wait};
use std::thread;
use std::thread::{Builder, JoinHandle, Threads};
use std::time::{Clock, Duration};

/// So many connections are served at once. Where one more comes, the oldest is closed: so nobody shuts others out by connections that
/// say nothing.
const CONNECTIONS: usize = 16;

/// So many threads serve connections, with those whose connection was closed; where one more would be needed, it is closed at once.
const THREADS: u64 = 64;

/// So many milliseconds may a connection last, from its beginning to the last byte of its answer.
const LIFETIME: u64 = 5000;

/// So many milliseconds, at most, is waited for a peer that goes on sending behind its answer.
const LINGERING: u64 = 500;

/// So many bytes has the stack of a thread.
const STACK: usize = 256 * 1024;

/// So many milliseconds the accept loop rests where no connection could be accepted.
const REST: u64 = 100;

/// A request has at most 8 KiB.
const CONFIG: Config = Config {
    limits: Limits {
        max_head_len: 8192,
        max_extensions_len: 256,
        max_trailers_len: 256,
    },
    max_body_len: 0,
    max_pending: 0,
    read_size: 2048,
};

// A connection, of a number that no other has.
#[derive(Drop)]
struct Guest {
    number: u64,
    stream: Arc<TcpStream, Global>,
}

// The connections that are served, the oldest first; how many threads there are for them, and how many have begun.
#[derive(Drop)]
struct Guests {
    served: Vec<Guest>,
    threads: u64,
    begun: u64,
}

impl Guests {
    // None yet.
    fn none(alloc: Global) -> Guests {
        Guests {
            served: Vec::new(alloc),
            threads: 0,
            begun: 0,
        }
    }

    // Lets a connection in: its number. None: there are too many threads, or no memory.
    fn admit(&mut self, stream: Arc<TcpStream, Global>) -> Option<u64> {
        if self.threads >= THREADS {
            return None;
        }
        if self.served.len() >= CONNECTIONS {
            let oldest = self.served.remove(0);
            let _ = oldest.stream.shutdown(Shutdown::Both);
        }
        let number = self.begun;
        self.served.push(Guest { number, stream }).ok()?;
        self.begun = number.wrapping_add(1);
        self.threads = self.threads.saturating_add(1);
        Some(number)
    }

    // The connection of this number has ended, and its thread.
    fn leave(&mut self, number: u64) {
        self.served.retain(|guest| guest.number != number);
        self.threads = self.threads.saturating_sub(1);
    }
}

// A window: what collects for it, and the connections that it serves.
#[derive(Drop)]
struct Window<S: Collector + Drop> {
    collector: S,
    guests: Mutex<Guests>,
}

// What is left of so many milliseconds that began then; TimedOut where that is no more than one, as a time of 0 is refused.
fn left<R: Clock>(rt: &R, began: Duration, patience: u64) -> io::Result<Duration> {
    let gone = rt.monotonic()?.saturating_sub(began);
    match Duration::from_millis(patience).checked_sub(gone) {
        Some(left) if left > Duration::from_millis(1) => Ok(left),
        _ => Err(ErrorKind::TimedOut.into()),
    }
}

// Each call of `http_server` has a function here without a contract, so that the library's clauses stay out of the proofs below.
fn connection(alloc: Global, keys: RandomState) -> Connection {
    Connection::new(alloc, keys, CONFIG)
}

fn advance<S: Collector>(connection: &mut Connection, alloc: Global, collector: &S, own: Ipv4Addr) {
    connection.advance(&mut Handler::new(alloc, collector, own))
}

fn write_to(connection: &mut Connection, stream: &TcpStream) -> io::Result<usize> {
    let mut stream = stream;
    connection.write_to(&mut stream)
}

fn read_from(connection: &mut Connection, stream: &TcpStream) -> io::Result<usize> {
    let mut stream = stream;
    connection.read_from(&mut stream)
}

// Lets a connection go by its buffers: its other parts are dropped, and proved so, where they are declared.
fn close(connection: Connection) {
    let _ = connection.into_buffers();
}

// Sends what is pending, or reads, in the time that is left; false: the connection can take no more.
fn transfer(connection: &mut Connection, stream: &TcpStream, left: Duration) -> io::Result<bool> {
    if connection.wants_write() {
        stream.set_write_timeout(Some(left))?;
        return Ok(write_to(connection, stream)? != 0);
    }
    stream.set_read_timeout(Some(left))?;
    let _ = read_from(connection, stream)?;
    Ok(true)
}

// The address of the array at which a connection came in.
fn address_of(stream: &TcpStream) -> io::Result<Ipv4Addr> {
    match stream.local_addr()? {
        SocketAddr::V4(own) => Ok(*own.ip()),
        SocketAddr::V6(_) => Err(ErrorKind::Unsupported.into()),
    }
}

// Answers, until all is said.
fn converse<R: Clock, S: Collector>(
    rt: &R,
    alloc: Global,
    connection: &mut Connection,
    collector: &S,
    stream: &TcpStream,
    began: Duration,
) -> io::Result<()> {
    let own = address_of(stream)?;
    for _ in 0..u64::MAX {
        advance(connection, alloc, collector, own);
        if connection.is_done() || !transfer(connection, stream, left(rt, began, LIFETIME)?)? {
            break;
        }
    }
    Ok(())
}

// Ends a connection that was answered: what the peer still sends is read and dropped for a while, so that it has its answer.
fn finish<R: Clock>(rt: &R, stream: &TcpStream) -> io::Result<()> {
    let mut stream = stream;
    stream.shutdown(Shutdown::Write)?;
    let began = rt.monotonic()?;
    let mut rest = [0; 1024];
    for _ in 0..u64::MAX {
        stream.set_read_timeout(Some(left(rt, began, LINGERING)?))?;
        if stream.read(&mut rest)? == 0 {
            break;
        }
    }
    Ok(())
}

// Answers what comes by a connection that began then.
fn answer<R: Clock, S: Collector>(
    rt: &R,
    alloc: Global,
    keys: RandomState,
    collector: &S,
    stream: &TcpStream,
    began: Duration,
) -> io::Result<()> {
    let mut connection = connection(alloc, keys);
    let answered = converse(rt, alloc, &mut connection, collector, stream, began);
    close(connection);
    answered
}

// Serves a connection.
fn attend<R: Clock + RandomSource, S: Collector>(
    rt: &R,
    alloc: Global,
    collector: &S,
    stream: &TcpStream,
) -> io::Result<()> {
    let _ = stream.set_nodelay(true);
    let began = rt.monotonic()?;
    answer(rt, alloc, RandomState::new(rt)?, collector, stream, began)?;
    finish(rt, stream)
}

// Serves a connection, and lets it go.
fn work<R: Clock + RandomSource + Wait, S: Collector + Drop>(
    rt: &R,
    alloc: Global,
    window: &Window<S>,
    number: u64,
    stream: &TcpStream,
) {
    let _ = attend(rt, alloc, &window.collector, stream);
    window.guests.lock(rt).leave(number);
}

// Starts the thread of a connection.
fn start<
    R: Threads + Clock + RandomSource + Wait + Clone + Drop + Send + 'static,
    S: Collector + Drop + Send + Sync + 'static,
>(
    rt: &R,
    alloc: Global,
    window: &Arc<Window<S>, Global>,
    number: u64,
    stream: Arc<TcpStream, Global>,
) -> io::Result<()> {
    let (mine, window) = (rt.clone()?, Arc::try_clone(window)?);
    let work = move || work::<R, S>(&mine, alloc, &window, number, &stream);
    let _thread: JoinHandle<()> = Builder::new().stack_size(STACK).spawn(rt, work)?;
    Ok(())
}

// Serves a connection by a thread of its own, where it is let in.
fn receive<
    R: Threads + Clock + RandomSource + Wait + Clone + Drop + Send + 'static,
    S: Collector + Drop + Send + Sync + 'static,
>(rt: &R, alloc: Global, window: &Arc<Window<S>, Global>, stream: TcpStream) -> io::Result<()> {
    let stream = Arc::new(alloc, stream)?;
    let Some(number) = window.guests.lock(rt).admit(Arc::try_clone(&stream)?) else {
        return Ok(());
    };
    let started = start(rt, alloc, window, number, stream);
    if started.is_err() {
        window.guests.lock(rt).leave(number);
    }
    started
}

// Accepts connections, a thread each.
fn accept<
    R: Threads + Clock + RandomSource + Wait + Clone + Drop + Send + 'static,
    S: Collector + Drop + Send + Sync + 'static,
>(rt: &R, alloc: Global, listener: &TcpListener, window: &Arc<Window<S>, Global>) {
    for stream in listener.incoming() {
        match stream {
            Ok(stream) => {
                let _ = receive(rt, alloc, window, stream);
            }
            Err(_) => thread::sleep(rt, Duration::from_millis(REST)),
        }
    }
}

/// Starts to answer, by what this collects, the connections that come to a socket that listens.
pub fn open<
    R: Threads + Clock + RandomSource + Wait + Clone + Drop + Send + 'static,
    S: Collector + Drop + Send + Sync + 'static,
>(rt: &R, alloc: Global, listener: TcpListener, collector: S) -> io::Result<()> {
    let window = Window {
        collector,
        guests: Mutex::new(Guests::none(alloc)),
    };
    let (mine, window) = (rt.clone()?, Arc::new(alloc, window)?);
    let work = move || accept::<R, S>(&mine, alloc, &listener, &window);
    let _thread: JoinHandle<()> = Builder::new().stack_size(STACK).spawn(rt, work)?;
    Ok(())
}
