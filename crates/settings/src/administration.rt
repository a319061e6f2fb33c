//! What the environment asks for to administer the array by: the window and the control socket.

use crate::environment::{of_variable, value_of};
use crate::usage::VERSION;
use array_administration::{Administration, bind_window};
use command_line::Fault;
use event_log::Log;
use meters::Meters;
use std::alloc::Global;
use std::env::Env;
use std::net::{Net, SocketAddrV4, TcpListener, TcpStream};
use std::sync::Arc;
use std::time::Clock;

/// The variable that says where the window is.
pub const HTTP: &str = "ARRAYD_HTTP";

/// The variable that names the path of the control socket.
pub const CONTROL: &str = "ARRAYD_CONTROL";

/// The most bytes that the path of a UNIX socket has.
const LONGEST_PATH: usize = 107;

/// What is asked for: where the window is to be, and the path of the control socket.
#[derive(Drop)]
pub struct Asked {
    http: Option<SocketAddrV4>,
    control: Option<String>,
}

// Where the window is to be: an address whose port is not 0.
fn window_at<R: Env + AllocGlobal>(rt: &R) -> Result<Option<SocketAddrV4>, Fault> {
    let Some(text) = value_of(rt, HTTP)? else {
        return Ok(None);
    };
    match text.parse::<SocketAddrV4>() {
        Ok(at) if at.port() != 0 => Ok(Some(at)),
        _ => Err(Fault::WrongWords),
    }
}

// The path of the control socket, where there is to be one.
fn control_at<R: Env + AllocGlobal>(rt: &R) -> Result<Option<String>, Fault> {
    match value_of(rt, CONTROL)? {
        Some(path) if path.len() > LONGEST_PATH => Err(Fault::WrongWords),
        path => Ok(path),
    }
}

/// What the environment asks for; or why it is refused, and the variable.
pub fn read<R: Env + AllocGlobal>(rt: &R) -> Result<Asked, (Fault, &'static str)> {
    Ok(Asked {
        http: of_variable(HTTP, window_at(rt))?,
        control: of_variable(CONTROL, control_at(rt))?,
    })
}

impl Asked {
    /// The path of the control socket, where there is to be one.
    pub fn control(&self) -> Option<&str> {
        self.control.as_deref()
    }

    // Whether anything is asked for.
    fn is_some(&self) -> bool {
        self.http.is_some() || self.control.is_some()
    }

    /// A log that counts what it is told, where anything is asked for.
    pub fn counted(&self, alloc: Global, log: Log, units: usize) -> Result<Log, Fault> {
        if !self.is_some() {
            return Ok(log);
        }
        Ok(log.counting(Arc::new(alloc, Meters::new(alloc, units)?)?))
    }

    /// What administrators reach the array by, where anything is asked for.
    pub fn opened<R: Net<Listener = TcpListener, Stream = TcpStream> + Clock>(
        &self,
        rt: &R,
        log: &Log,
    ) -> Result<Option<Administration<'_>>, Fault> {
        if !self.is_some() {
            return Ok(None);
        }
        let http = match self.http {
            Some(at) => Some(bind_window(rt, log, at)?),
            None => None,
        };
        let control = self.control.as_deref();
        Ok(Some(Administration {
            version: VERSION,
            http,
            control,
        }))
    }
}
