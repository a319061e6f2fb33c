//! The sockets by which administrators reach the array, beside its console: that of the window and the control socket.

use crate::administered::Administered;
use crate::collector::ArrayCollector;
use crate::control;
use command_line::{Fault, Options};
use event_log::{Log, start_ticks};
use events::Event;
use std::alloc::{AllocError, Global};
use std::fs::File;
use std::net::{Net, SocketAddrV4, TcpListener, TcpStream};
use std::os::unix::net::UnixListener;
use std::random::RandomSource;
use std::rt::Files;
use std::sync::{Arc, Wait};
use std::thread::Threads;
use std::time::Clock;

/// What administrators are to reach the array by.
#[derive(Drop)]
pub struct Administration<'a> {
    /// The version that they are told.
    pub version: &'static str,
    /// The socket at which the window listens, where there is to be one.
    pub http: Option<TcpListener>,
    /// The path of the control socket, where there is to be one.
    pub control: Option<&'a str>,
}

/// The sockets of both, where they are to be, and the version that they tell.
#[derive(Drop)]
pub struct Sockets {
    pub version: &'static str,
    pub http: Option<TcpListener>,
    pub control: Option<UnixListener>,
}

/// The socket of a window at this address. Of one that cannot listen the log is told as of a portal, of no controller.
pub fn bind_window<R: Net<Listener = TcpListener, Stream = TcpStream> + Clock>(
    rt: &R,
    log: &Log,
    at: SocketAddrV4,
) -> Result<TcpListener, Fault> {
    match TcpListener::bind(rt, at) {
        Ok(listener) => {
            log.tell(rt, &Event::Listening(0, at));
            Ok(listener)
        }
        Err(e) => {
            let error = u32::try_from(e.raw_os_error().unwrap_or(0)).unwrap_or(0);
            log.tell(rt, &Event::CannotListen(0, at, error));
            Err(Fault::CannotListenAt(at, error))
        }
    }
}

/// The path of the control socket, where there is to be one.
pub fn control_path<'a>(administration: &Option<Administration<'a>>) -> Option<&'a str> {
    match administration {
        Some(administration) => administration.control,
        None => None,
    }
}

/// The sockets that are to be: none, where there is no administration. The log is told why there is none that is to be.
pub fn open<R: Files<File = File> + Net + Clock>(
    rt: &R,
    log: &Log,
    administration: Option<Administration<'_>>,
) -> Result<Sockets, Fault> {
    let Some(
        Administration {
            version,
            http,
            control,
        },
    ) = administration
    else {
        return Ok(Sockets {
            version: "",
            http: None,
            control: None,
        });
    };
    let control = match control {
        Some(path) => Some(control::listen(rt, log, path)?),
        None => None,
    };
    Ok(Sockets {
        version,
        http,
        control,
    })
}

// What collects of an array that is served.
fn collector_of<
    R: Wait + Clock + Clone + Drop + Send + Sync + 'static,
    A: Administered + Drop + Send + Sync + 'static,
>(
    rt: &R,
    alloc: Global,
    options: &Options<'_>,
    version: &'static str,
    array: &Arc<A, Global>,
) -> Result<ArrayCollector<R, A>, AllocError> {
    ArrayCollector::new(rt.clone()?, alloc, options, version, Arc::try_clone(array)?)
}

/// Answers at both sockets, by threads of their own, for an array that is served.
pub fn answer<
    R: Threads + Wait + Clock + RandomSource + Clone + Drop + Send + Sync + 'static,
    A: Administered + Drop + Send + Sync + 'static,
>(
    rt: &R,
    alloc: Global,
    options: &Options<'_>,
    array: &Arc<A, Global>,
    sockets: Sockets,
) -> Result<(), Fault> {
    let Sockets {
        version,
        http,
        control,
    } = sockets;
    if (http.is_some() || control.is_some()) && start_ticks(rt, array.log()).is_err() {
        return Err(Fault::NoMemory);
    }
    if let Some(listener) = http {
        let collector = collector_of(rt, alloc, options, version, array)?;
        if window::open(rt, alloc, listener, collector).is_err() {
            return Err(Fault::NoMemory);
        }
    }
    if let Some(listener) = control {
        let collector = collector_of(rt, alloc, options, version, array)?;
        if control::answer(rt, alloc, collector, listener).is_err() {
            return Err(Fault::NoMemory);
        }
    }
    Ok(())
}
