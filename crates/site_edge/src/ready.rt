//! Waiting for sockets.
use libc::net::{POLLIN, POLLOUT, POLLRDHUP};
use libc::types::pollfd;
use std::net::{TcpListener, TcpStream};
use std::os::fd::AsRawFd;

/// Waits until the peer has sent something or has gone, or for this many microseconds.
pub(crate) fn wait_for_bytes(peer: &TcpStream, micros: u64) {
    wait_for(peer, POLLIN, micros);
}

/// Waits until the peer can take something or has gone, or for this many microseconds.
pub(crate) fn wait_for_room(peer: &TcpStream, micros: u64) {
    wait_for(peer, POLLOUT, micros);
}

/// Waits until the peer has ended what it sends, or for this many microseconds.
pub(crate) fn wait_for_end(peer: &TcpStream, micros: u64) {
    wait_for(peer, POLLRDHUP, micros);
}

/// Waits until the peer has sent something or has gone, until another one waits, or for this many microseconds.
/// Says whether another one waits.
pub(crate) fn wait_for_any(peer: &TcpStream, listener: &TcpListener, micros: u64) -> bool {
    let mut asked = [
        pollfd {
            fd: peer.as_raw_fd(),
            events: POLLIN,
            revents: 0,
        },
        pollfd {
            fd: listener.as_raw_fd(),
            events: POLLIN,
            revents: 0,
        },
    ];
    libc::net::poll(&mut asked, millis(micros));
    asked[1].revents != 0
}

fn wait_for(peer: &TcpStream, events: i16, micros: u64) {
    let asked = pollfd {
        fd: peer.as_raw_fd(),
        events,
        revents: 0,
    };
    libc::net::poll(&mut [asked], millis(micros));
}

/// The milliseconds that are no less.
fn millis(micros: u64) -> i32 {
    i32::try_from(micros.div_ceil(1_000)).unwrap_or(i32::MAX)
}
