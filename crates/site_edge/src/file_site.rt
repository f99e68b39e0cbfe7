//! A real file with standard input and output as its one peer. It tells nothing of content.
ghost use Rattle.std.specs.Prelude.{◌≡◌, false};
ghost use Rattle.std.specs.Io.{ReadsAtMost};
ghost use Rattle.site_edge.specs.Files.{file_site_device, file_site_device_is_sound};

use crate::fault::{count_fault, counted};
use crate::streams::{has_room, most_bytes};
use crate::{Caller, LinkFailed, Site, StoreFile};
use disk_trait::{Disk, Failed};
use libc::types::pollfd;
use std::io;
use std::io::{ErrorKind, Read, Stdin, Stdout};
use std::marker::Model;

/// How far the one peer has come.
#[derive(Clone, Copy)]
enum Peer {
    Awaited,
    UnderWay,
    Gone,
}

/// A store's file, whose one peer is heard on standard input and told on standard output. No buffer
/// stands between: a `say` that succeeds has handed all its bytes to the system.
#[derive(Drop)]
pub struct FileSite {
    file: StoreFile,
    input: Stdin,
    output: Stdout,
    /// How many bytes the process might have in a file when the site was made.
    most: u64,
    link_faults: u64,
    peer: Peer,
}

impl Model for FileSite {
    ghost use Rattle.site_edge.specs.Files.{FileSiteState, is_under_way};

    ghost Value = { FileSiteState };

    ghost view = { λ s. record {
      file = s.file;
      link_faults = s.link_faults;
      under_way = is_under_way s.peer;
    } };
}

impl FileSite {
    /// The site over this file, whose peer wasn't waited for yet.
    pub fn new(file: StoreFile, input: Stdin, output: Stdout) -> FileSite
        ensures { result ≡ record { file = file; link_faults = 0; under_way = false } }
    {
        FileSite {
            file,
            input,
            output,
            most: most_bytes(),
            link_faults: 0,
            peer: Peer::Awaited,
        }
    }
}

impl Disk for FileSite {
    ghost device = { file_site_device };

    ghost fails = { λ _ _ _ _. Unit {0} };

    ghost sound = { file_site_device_is_sound };

    fn len(&self) -> u64 {
        self.file.len()
    }

    fn read_at(&mut self, at: u64, out: &mut [u8]) -> Result<(), Failed> {
        self.file.read_at(at, out)
    }

    fn write_at(&mut self, at: u64, bytes: &[u8]) -> Result<(), Failed> {
        self.file.write_at(at, bytes)
    }

    fn sync(&mut self) -> Result<(), Failed> {
        self.file.sync()
    }
}

impl Site for FileSite {
    ghost link_fails = { λ _ _ _. Unit {0} };

    fn next_peer(&mut self) -> Result<bool, LinkFailed> {
        match self.peer {
            Peer::Awaited => {
                self.file.end_progress();
                self.peer = Peer::UnderWay;
                Ok(true)
            }
            Peer::UnderWay | Peer::Gone => {
                self.peer = Peer::Gone;
                Ok(false)
            }
        }
    }

    fn hear(&mut self, out: &mut [u8]) -> Result<usize, LinkFailed> {
        let answer = read_some(&mut self.input, out);
        match answer {
            Ok(count) => Ok(count),
            Err(_) => {
                count_fault(&mut self.link_faults);
                Err(LinkFailed)
            }
        }
    }

    fn say(&mut self, bytes: &[u8]) -> Result<(), LinkFailed> {
        let answer = write_within_limit(self.output, self.most, bytes);
        counted(answer, &mut self.link_faults, LinkFailed)
    }

    fn close_peer(&mut self) {
        self.peer = Peer::Gone;
    }
}

impl Caller for FileSite {
    ghost dial_fails = { λ _ _ _ _. Unit {0} };

    /// It has the one peer of its streams, so each dial fails.
    fn dial(&mut self, _: u16) -> Result<(), LinkFailed> {
        count_fault(&mut self.link_faults);
        Err(LinkFailed)
    }
}

/// Hands these bytes to the system, unless the output is a file that would get longer than `most` bytes.
fn write_within_limit(output: Stdout, most: u64, bytes: &[u8]) -> io::Result<()> {
    if !has_room(libc::STDOUT_FILENO, bytes.len(), most) {
        return Err(io::Error::from(ErrorKind::FileTooLarge));
    }
    output.write_all(bytes)
}

/// Reads once, and again where a signal interrupts the call, or where the stream doesn't wait by itself and
/// has no bytes yet.
fn read_some(input: &mut Stdin, out: &mut [u8]) -> io::Result<usize>
    ensures { ReadsAtMost result out.new }
{
    for _ in 0..u64::MAX {
        match input.read(out) {
            Err(error) if error.kind() == ErrorKind::Interrupted => {}
            Err(error) if error.kind() == ErrorKind::WouldBlock => wait_for_input(),
            answer => return answer,
        }
    }
    Err(io::Error::from(ErrorKind::Interrupted))
}

/// Waits until standard input has bytes, is at its end or fails, or until a signal comes.
fn wait_for_input() {
    let input = pollfd {
        fd: libc::STDIN_FILENO,
        events: libc::net::POLLIN,
        revents: 0,
    };
    libc::net::poll(&mut [input], -1);
}
