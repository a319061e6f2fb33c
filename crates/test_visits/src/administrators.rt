//! What administrators find at the window and at the control socket, while hosts are logged in.
use crate::site::Site;
use array_administration::{Administration, bind_window};
use event_log::Log;
use std::alloc::Global;
use std::fs::{self, File};
use std::io::{self, Write};
use std::net::{Net, Shutdown, SocketAddr, SocketAddrV4, TcpListener, TcpStream};
use std::os::unix::fs::PermissionsExt;
use std::os::unix::net::UnixStream;
use std::rt::Files;
use std::test::Fail;
use std::time::{Clock, Duration};
use test_connections::want_at;

/// So many seconds an answer may take.
const PATIENCE: u64 = 20;

/// More requests than a window serves at a time by its threads, and as many connections as it has at most.
const REQUESTS: u32 = 70;

const SILENT: u32 = 16;

/// What the owner alone may do.
const OWNER_ALONE: u32 = 0o600;

/// By what administrators are to reach the array of a site: its window is at no other address than the one that was asked for.
pub fn administration<'a, R: Net<Listener = TcpListener, Stream = TcpStream> + Clock>(
    rt: &R,
    log: &Log,
    at: SocketAddrV4,
    control: &'a str,
) -> Result<Administration<'a>, Fail> {
    let Ok(listener) = bind_window(rt, log, at) else {
        return Err("a window".into());
    };
    let bound = listener.local_addr()?;
    want_at(bound == SocketAddr::V4(at), "the window", &bound)?;
    Ok(Administration {
        version: "0.0.0",
        http: Some(listener),
        control: Some(control),
    })
}

// What the control socket answers to a line.
fn told(rt: &impl Net, alloc: Global, control: &str, line: &str) -> Result<String, Fail> {
    let stream = UnixStream::connect(rt, control)?;
    stream.set_read_timeout(Some(Duration::from_secs(PATIENCE)))?;
    let mut writer = &stream;
    writer.write_all(line.as_bytes())?;
    stream.shutdown(Shutdown::Write)?;
    Ok(io::read_to_string(alloc, &stream)?)
}

// What the window answers to a request for this path.
fn got<R: Net<Listener = TcpListener, Stream = TcpStream>>(
    rt: &R,
    alloc: Global,
    at: SocketAddrV4,
    path: &str,
) -> Result<String, Fail> {
    let stream = TcpStream::connect(rt, at)?;
    stream.set_read_timeout(Some(Duration::from_secs(PATIENCE)))?;
    let request = format!(in alloc; "GET {path} HTTP/1.1\r\nHost: {at}\r\n\r\n")?;
    let mut writer = &stream;
    writer.write_all(request.as_bytes())?;
    Ok(io::read_to_string(alloc, &stream)?)
}

// What the control socket answers to lines; the last line of an answer says how its line was obeyed.
const ANSWERS: [(&str, &str); 6] = [
    ("version\n", "arrayd 0.0.0\n. 0\n"),
    ("health\n", "ok\n. 0\n"),
    ("keys 200\n", "no unit\n. 1\n"),
    ("acknowledge\n", "acknowledged\n. 0\n"),
    ("\ndown 3\n", "?\n. 2\n?\n. 2\n"),
    ("end 258\n", "no session\n. 1\n"),
];

// The line that ends session 258 ends no other one, also none whose number has the same last byte.
fn no_other_session_is_ended<R: Net>(
    rt: &R,
    alloc: Global,
    control: &str,
    sessions: usize,
) -> Result<(), Fail> {
    for (line, wanted) in &ANSWERS {
        let answer = told(rt, alloc, control, line)?;
        want_at(answer.as_str() == *wanted, line, &answer)?;
    }
    let lines = told(rt, alloc, control, "sessions\n")?;
    let count = lines
        .lines()
        .filter(|line| line.contains(" type normal "))
        .count();
    want_at(count == sessions, "sessions", &lines)?;
    let has_second = lines.lines().any(|line| line.starts_with("session 2 "));
    want_at(has_second, "session 2", &lines)
}

// The window answers however many have asked before, and while as many as it serves say nothing.
fn nobody_is_shut_out<R: Net<Listener = TcpListener, Stream = TcpStream>>(
    rt: &R,
    alloc: Global,
    at: SocketAddrV4,
) -> Result<(), Fail> {
    for _ in 0..REQUESTS {
        let answer = got(rt, alloc, at, "/health")?;
        let is_well = answer.as_str().starts_with("HTTP/1.1 200 ");
        want_at(is_well, "/health", &answer)?;
    }
    let mut silent = Vec::new(alloc);
    for _ in 0..SILENT {
        silent.push(TcpStream::connect(rt, at)?)?;
    }
    let answer = got(rt, alloc, at, "/metrics")?;
    let is_there = answer
        .as_str()
        .contains("arrayd_unit_own_flushes_total{unit=\"1\",} 0\n");
    want_at(is_there, "/metrics", &answer.len())
}

/// What they find at a site with so many sessions. Nobody but its owner may connect to the control socket.
pub fn find<R: Net<Listener = TcpListener, Stream = TcpStream> + Files<File = File>>(
    rt: &R,
    alloc: Global,
    site: &Site<'_>,
    sessions: usize,
) -> Result<(), Fail> {
    let mode = fs::metadata(rt, site.control)?.permissions().mode() & 0o777;
    want_at(mode == OWNER_ALONE, "the control socket", &mode)?;
    no_other_session_is_ended(rt, alloc, site.control, sessions)?;
    nobody_is_shut_out(rt, alloc, site.window())?;
    let answer = got(rt, alloc, site.window(), "/recent")?;
    let first = "{\"step_seconds\":10,\"points\":[{\"at\":";
    want_at(answer.as_str().contains(first), "/recent", &answer)?;
    // How much was read by then depends on the moment.
    let units = "\"units\":[{\"reads\":";
    want_at(answer.as_str().contains(units), "/recent", &answer)
}
