//! The standard streams, as files of the system.
use libc::net::POLLNVAL;
use libc::types::{pollfd, rlimit};
use os::{RangeLock, errno, try_lock_range};
use std::fs::{File, OpenOptions};
use std::io;
use std::os::fd::AsRawFd;
use std::rt::Files;

/// The descriptors of standard input, output and error.
pub(crate) const STREAMS: [i32; 3] = [libc::STDIN_FILENO, libc::STDOUT_FILENO, libc::STDERR_FILENO];

/// A place behind the end of every file, at which two opens of a file meet. To it the number of the process is
/// added, so that no other one that looks is in the way.
const MEETING: u64 = 1 << 62;

/// Linux's limit of the bytes of a file, for which the kit has no name.
const RLIMIT_FSIZE: i32 = 1;

/// Whether standard output is the file at this path.
pub fn is_output<R: Files<File = File>>(rt: &R, path: &str) -> bool {
    is_at(rt, libc::STDOUT_FILENO, path)
}

/// Whether standard error is the file at this path.
pub fn is_error<R: Files<File = File>>(rt: &R, path: &str) -> bool {
    is_at(rt, libc::STDERR_FILENO, path)
}

fn is_at<R: Files<File = File>>(rt: &R, stream: i32, path: &str) -> bool {
    match plain_file(rt, path) {
        Ok(Some(file)) => is_of(stream, &file),
        _ => false,
    }
}

/// The plain file at this path, if one is there. No other is opened, since that may wait.
fn plain_file<R: Files<File = File>>(rt: &R, path: &str) -> io::Result<Option<File>> {
    if !rt.metadata(path)?.is_file() {
        return Ok(None);
    }
    match OpenOptions::new().write(true).open(rt, path) {
        Ok(file) => Ok(Some(file)),
        Err(_) => Ok(Some(File::open(rt, path)?)),
    }
}

/// Whether a stream is this file. A lock of a byte that the one open holds is in the way of the other one exactly
/// where both are of one file (F_OFD_SETLK, fcntl(2)). One that is closed is none, and one that can't be asked may
/// be each.
pub(crate) fn is_of(stream: i32, file: &File) -> bool {
    let own = file.as_raw_fd();
    let place = MEETING + u64::from(libc::getpid().unsigned_abs());
    if !is_locked(own, RangeLock::Exclusive, place) && !is_locked(own, RangeLock::Shared, place) {
        return is_open(stream);
    }
    let is_same = is_met(stream, RangeLock::Exclusive, place)
        || is_met(stream, RangeLock::Shared, place);
    try_lock_range(own, RangeLock::Unlock, place, 1);
    is_same
}

fn is_locked(descriptor: i32, kind: RangeLock, place: u64) -> bool {
    try_lock_range(descriptor, kind, place, 1) == 0
}

/// Whether a lock of this kind is in the way of a stream, or it can't be told. A stream that isn't open for this
/// kind is left out.
fn is_met(stream: i32, kind: RangeLock, place: u64) -> bool {
    if is_locked(stream, kind, place) {
        try_lock_range(stream, RangeLock::Unlock, place, 1);
        return false;
    }
    errno() != libc::EBADF
}

/// Whether a stream is open.
pub(crate) fn is_open(descriptor: i32) -> bool {
    let mut asked = [pollfd {
        fd: descriptor,
        events: 0,
        revents: 0,
    }];
    libc::net::poll(&mut asked, 0);
    asked[0].revents & POLLNVAL == 0
}

/// Whether so many bytes can be put to a stream where a file may have `most` bytes: from the place on where it stands,
/// and from the end of its file on, since it can't be asked whether it only appends. One that has no place, as a pipe,
/// has room.
pub(crate) fn has_room(descriptor: i32, count: usize, most: u64) -> bool {
    if most == u64::MAX {
        return true;
    }
    let place = libc::lseek(descriptor, 0, libc::SEEK_CUR);
    if place < 0 {
        return true;
    }
    let end = libc::lseek(descriptor, 0, libc::SEEK_END);
    libc::lseek(descriptor, place, libc::SEEK_SET);
    let furthest = u64::try_from(place.max(end)).unwrap_or(u64::MAX);
    furthest.saturating_add(count as u64) <= most
}

/// How many bytes a file may have that this process writes. A write behind that limit raises SIGXFSZ, which ends it
/// (setrlimit(2)), and the kit has no call by which a signal is ignored. So none is made there.
pub(crate) fn most_bytes() -> u64 {
    let mut limit = rlimit {
        rlim_cur: u64::MAX,
        rlim_max: u64::MAX,
    };
    if libc::getrlimit(RLIMIT_FSIZE, &mut limit) != 0 {
        return u64::MAX;
    }
    limit.rlim_cur
}
