//! What a socket is told of its initiator's silence, and of its end.
use crate::ends::must;
use live_sessions::Connection;
use portal::Socket;
use std::alloc::Global;
use std::io::{Read, Write};
use std::net::{Ipv4Addr, Net, SocketAddrV4, TcpListener, TcpStream};
use std::process::Abort;
use std::sync::Arc;
use std::time::Duration;

pub fn script() -> &'static str {
    r#"
a host that is silent; accepts that fail
# A read of the array's finds nothing for ten seconds, and the session lives on.
A alone
clock 11
A does TEST_UNIT_READY
# Meanwhile no connection has waited at controller 2.
B comes 2 / HOST_B / 15:02 WELCOME_2
B power
B does TEST_UNIT_READY
"#
}

// A connection of a process with itself, to a port that the system picks: both ends.
fn connected<R: Net<Listener = TcpListener, Stream = TcpStream> + Abort>(
    rt: &R,
    alloc: Global,
) -> (Socket, TcpStream) {
    let here = SocketAddrV4::new(Ipv4Addr::new(127, 0, 0, 1), 0);
    let listener = TcpListener::bind(rt, here).expect(rt, "a port");
    let portal = listener.local_addr().expect(rt, "a port");
    let stream = TcpStream::connect(rt, portal).expect(rt, "a connection");
    let (other, _) = listener.accept().expect(rt, "a connection");
    (Arc::new(alloc, stream).expect(rt, "memory"), other)
}

#[test]
fn a_socket_is_told_how_long_its_initiator_may_be_silent(rt: HostRuntime) {
    let (socket, _other) = connected(&rt, rt.alloc());
    socket.limit(7);
    let limit = socket.read_timeout().expect(&rt, "a limit");
    must(&rt, limit == Some(Duration::from_secs(7)), "before", &limit);
    socket.end_limit();
    // Behind the login a read that finds nothing for so long is silence, which ends no session.
    let rest = socket.read_timeout().expect(&rt, "a time");
    must(&rt, rest == Some(Duration::from_secs(10)), "behind", &rest);
}

#[test]
fn a_socket_that_is_shut_is_neither_read_nor_written(rt: HostRuntime) {
    let (socket, _other) = connected(&rt, rt.alloc());
    let mut stream: &TcpStream = &socket;
    must(&rt, stream.write(&[0]).is_ok(), "before", &"a write");
    socket.shut();
    let read = stream.read(&mut [0; 1]);
    must(&rt, read.unwrap_or(1) == 0, "behind", &"a read");
    must(&rt, stream.write(&[0]).is_err(), "behind", &"a write");
}
