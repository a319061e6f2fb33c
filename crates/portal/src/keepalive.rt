//! What tells the system that the host of a connection has vanished.

use libc::net::{
    IPPROTO_TCP, SO_KEEPALIVE, SOL_SOCKET, TCP_KEEPCNT, TCP_KEEPIDLE, TCP_KEEPINTVL,
    TCP_USER_TIMEOUT, setsockopt,
};
use std::net::TcpStream;
use std::os::fd::AsRawFd;

/// After so many seconds of silence the system asks whether the host is there, and asks again after so many more.
const IDLE: u32 = 30;

const INTERVAL: u32 = 10;

/// So many questions without an answer end the connection.
const PROBES: u32 = 3;

/// So many milliseconds may what was sent wait for the host to take it.
const UNTAKEN: u32 = 60_000;

// The value of an option, in the bytes that the system takes.
fn value_of(value: u32) -> [u8; 16] {
    let [a, b, c, d] = value.to_ne_bytes();
    [a, b, c, d, 0, 0, 0, 0, 0, 0, 0, 0, 0, 0, 0, 0]
}

// Sets the five options: whether each could be.
fn is_set(fd: i32) -> bool {
    let (on, idle) = (value_of(1), value_of(IDLE));
    let (interval, probes, untaken) = (value_of(INTERVAL), value_of(PROBES), value_of(UNTAKEN));
    unsafe {
        setsockopt(fd, SOL_SOCKET, SO_KEEPALIVE, &on, 4) == 0
            && setsockopt(fd, IPPROTO_TCP, TCP_KEEPIDLE, &idle, 4) == 0
            && setsockopt(fd, IPPROTO_TCP, TCP_KEEPINTVL, &interval, 4) == 0
            && setsockopt(fd, IPPROTO_TCP, TCP_KEEPCNT, &probes, 4) == 0
            && setsockopt(fd, IPPROTO_TCP, TCP_USER_TIMEOUT, &untaken, 4) == 0
    }
}

/// From now on a connection ends whose host does not answer for a minute. False: the system refused to see to that.
pub(crate) fn is_kept_alive(socket: &TcpStream) -> bool {
    is_set(socket.as_raw_fd())
}
