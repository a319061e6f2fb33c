//! The control socket: where it lies, and the connections that come to it.

use crate::administered::Administered;
use crate::answers::Answers;
use crate::collector::ArrayCollector;
use command_line::Fault;
use event_log::Log;
use events::Event;
use std::alloc::Global;
use std::fs::{self, File, Permissions};
use std::io::{self, BufRead, BufReader, ErrorKind, Read, Write};
use std::net::Net;
use std::os::unix::fs::{FileTypeExt, PermissionsExt};
use std::os::unix::net::{UnixListener, UnixStream};
use std::rt::Files;
use std::sync::{Arc, Wait};
use std::thread::{self, Builder, JoinHandle, Threads};
use std::time::{Clock, Duration};

/// Its owner may read and write.
const OWNER_ALONE: u32 = 0o600;

/// So many connections are attended to at once, by a thread each: a line that waits for a disk holds up no other connection.
const ATTENDANTS: u32 = 8;

/// For so many seconds may a connection be silent, or take nothing.
const SILENCE: u64 = 10;

/// A connection is read so many bytes, and closed then.
const MOST: u64 = 65536;

/// So many milliseconds an accept loop rests where no connection could be accepted.
const REST: u64 = 100;

/// So many bytes has the stack of a thread.
const STACK: usize = 256 * 1024;

/// More connections than wait at any socket, which is the most that is looked for before the socket was its owner's alone.
const STRANGERS: u32 = 1 << 24;

// The control socket of an array that is served, which its threads share.
struct ControlSocket<R: Wait + Clock + Drop, A: Administered + Drop> {
    answers: Answers<R, A>,
    listener: UnixListener,
}

impl<R: Wait + Clock + Drop, A: Administered + Drop> Drop for ControlSocket<R, A> {
    fn drop(self) {
        let Self {
            answers: _,
            listener: _,
        } = self;
    }
}

impl<R: Wait + Clock + Drop, A: Administered + Drop> ControlSocket<R, A> {
    // Answers a line of a connection. Behind the answer to one that ends the array the program ends.
    fn answer(&self, alloc: Global, mut stream: &UnixStream, line: &[u8]) -> io::Result<()> {
        let mut answer = Vec::new(alloc);
        let answered = self.answers.answer(alloc, &mut answer, line);
        let sent = stream.write_all(&answer);
        self.answers.leave(line);
        answered.and(sent)
    }

    // Answers the lines of a connection, until its end.
    fn attend(&self, alloc: Global, stream: &UnixStream) -> io::Result<()> {
        let patience = Some(Duration::from_secs(SILENCE));
        stream.set_read_timeout(patience)?;
        stream.set_write_timeout(patience)?;
        let mut read = 0u64;
        for line in BufReader::new(alloc, stream.take(MOST))?.split(alloc, b'\n') {
            let Ok(line) = line else {
                break;
            };
            // A line that was cut is none.
            read = read.saturating_add(line.len() as u64).saturating_add(1);
            if read > MOST || self.answer(alloc, stream, &line).is_err() {
                break;
            }
        }
        Ok(())
    }

    // Attends to one connection after another.
    fn accept(&self, rt: &R, alloc: Global) {
        for stream in self.listener.incoming() {
            match stream {
                Ok(stream) => {
                    let _ = self.attend(alloc, &stream);
                }
                Err(_) => thread::sleep(rt, Duration::from_millis(REST)),
            }
        }
    }
}

// Closes the connections that came before the socket was its owner's alone: all of them, since no other one comes.
fn turn_strangers_away(listener: &UnixListener) -> io::Result<()> {
    listener.set_nonblocking(true)?;
    for _ in 0..STRANGERS {
        match listener.accept() {
            Ok(_) => {}
            Err(e) if e.kind() == ErrorKind::WouldBlock => return listener.set_nonblocking(false),
            Err(e) => return Err(e),
        }
    }
    Err(io::Error::from(ErrorKind::TimedOut))
}

// What made no control socket, as the log is told it: a path that none can have is a wrong word.
fn fault_of<R: Clock>(rt: &R, log: &Log, path: &str, error: &io::Error) -> Fault {
    if error.kind() == ErrorKind::InvalidInput {
        log.tell(rt, &Event::WrongWords(path.as_bytes()));
        return Fault::WrongWords;
    }
    let error = u32::try_from(error.raw_os_error().unwrap_or(0)).unwrap_or(0);
    log.tell(rt, &Event::CannotControl(error));
    Fault::CannotControl(error)
}

// Whether a socket lies at this path at which nobody listens, as an array leaves one that was killed.
fn is_left<R: Files<File = File> + Net>(rt: &R, path: &str) -> bool {
    let Ok(metadata) = fs::symlink_metadata(rt, path) else {
        return false;
    };
    if !metadata.file_type().is_socket() {
        return false;
    }
    match UnixStream::connect(rt, path) {
        Ok(_) => false,
        Err(e) => e.kind() == ErrorKind::ConnectionRefused,
    }
}

// A socket that is bound to this path, where nothing is, or one at which nobody listens.
fn bound<R: Files<File = File> + Net>(rt: &R, path: &str) -> io::Result<UnixListener> {
    match UnixListener::bind(rt, path) {
        Err(e) if e.kind() == ErrorKind::AddrInUse && is_left(rt, path) => {
            fs::remove_file(rt, path)?;
            UnixListener::bind(rt, path)
        }
        end => end,
    }
}

/// Gives a socket at this path to its owner alone, also where others came before.
pub fn give_to_owner<R: Files<File = File>>(
    rt: &R,
    path: &str,
    listener: &UnixListener,
) -> io::Result<()> {
    fs::set_permissions(rt, path, Permissions::from_mode(OWNER_ALONE))?;
    turn_strangers_away(listener)
}

// The control socket at this path. Only its owner may connect.
fn made<R: Files<File = File> + Net>(rt: &R, path: &str) -> io::Result<UnixListener> {
    let listener = bound(rt, path)?;
    match give_to_owner(rt, path, &listener) {
        Ok(()) => Ok(listener),
        Err(error) => {
            remove(rt, Some(path));
            Err(error)
        }
    }
}

/// The control socket at this path; or why there is none, of which the log is told.
pub(crate) fn listen<R: Files<File = File> + Net + Clock>(
    rt: &R,
    log: &Log,
    path: &str,
) -> Result<UnixListener, Fault> {
    match made(rt, path) {
        Ok(listener) => Ok(listener),
        Err(error) => Err(fault_of(rt, log, path, &error)),
    }
}

/// Removes the control socket at this path, where there is one.
pub fn remove(rt: &impl Files, path: Option<&str>) {
    if let Some(path) = path {
        let _ = fs::remove_file(rt, path);
    }
}

/// Answers at the control socket, by threads of its own, by what this collects of an array that is served.
pub(crate) fn answer<
    R: Threads + Wait + Clock + Clone + Drop + Send + Sync + 'static,
    A: Administered + Drop + Send + Sync + 'static,
>(
    rt: &R,
    alloc: Global,
    collector: ArrayCollector<R, A>,
    listener: UnixListener,
) -> io::Result<()> {
    let control = ControlSocket {
        answers: Answers::of(collector),
        listener,
    };
    let control = Arc::new(alloc, control)?;
    for _ in 0..ATTENDANTS {
        let (shared, mine) = (Arc::try_clone(&control)?, rt.clone()?);
        let work = move || shared.accept(&mine, alloc);
        let _thread: JoinHandle<()> = Builder::new().stack_size(STACK).spawn(rt, work)?;
    }
    Ok(())
}
