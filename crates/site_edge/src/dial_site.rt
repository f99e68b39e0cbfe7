//! A real file with connections that are dialled on 127.0.0.1. It tells nothing of content.
ghost use Rattle.std.specs.Prelude.{◌≡◌, false, is_ok, is_some};
ghost use Rattle.std.specs.Io.{ReadsAtMost};
ghost use Rattle.site_edge.specs.Files.{file_site_device, file_site_device_is_sound};

use crate::exchange::Exchange;
use crate::fault::{count_fault, counted};
use crate::{Caller, LinkFailed, Site, StoreFile};
use disk_trait::{Disk, Failed};
use std::io;
use std::io::ErrorKind;
use std::marker::Model;
use std::net::{Net, TcpStream};

/// A store's file, and the connection that was dialled last. An exchange over it fails where its peer moves no byte
/// for 10 seconds, or where it takes 60 seconds in all.
#[derive(Drop)]
pub struct DialSite<R: Net<Stream = TcpStream>> {
    file: StoreFile,
    net: R,
    peer: Option<Exchange>,
    link_faults: u64,
}

impl<R: Net<Stream = TcpStream>> Model for DialSite<R> {
    ghost use Rattle.std.specs.Prelude.{is_some};
    ghost use Rattle.site_edge.specs.Files.{FileSiteState};

    ghost Value = { FileSiteState };

    ghost view = { λ s. record {
      file = s.file;
      link_faults = s.link_faults;
      under_way = is_some s.peer;
    } };
}

impl<R: Net<Stream = TcpStream>> DialSite<R> {
    /// The site over this file, which dialled nobody yet.
    pub fn new(file: StoreFile, net: R) -> DialSite<R>
        ensures { result ≡ record { file = file; link_faults = 0; under_way = false } }
    {
        DialSite {
            file,
            net,
            peer: None,
            link_faults: 0,
        }
    }
}

impl<R: Net<Stream = TcpStream>> Disk for DialSite<R> {
    ghost device = { file_site_device };

    ghost fails = { λ _ _ _ _. Unit {0} };

    ghost sound = { file_site_device_is_sound };

    fn len(&self) -> u64 {
        self.file.len()
    }

    fn read_at(&mut self, at: u64, out: &mut [u8]) -> Result<(), Failed> {
        self.file.read_at(at, out)
    }

    fn write_at(&mut self, at: u64, bytes: &[u8]) -> Result<(), Failed> {
        self.file.write_at(at, bytes)
    }

    fn sync(&mut self) -> Result<(), Failed> {
        self.file.sync()
    }
}

impl<R: Net<Stream = TcpStream>> Site for DialSite<R> {
    ghost link_fails = { λ _ _ _. Unit {0} };

    /// Nobody comes by himself.
    fn next_peer(&mut self) -> Result<bool, LinkFailed> {
        self.peer = None;
        Ok(false)
    }

    fn hear(&mut self, out: &mut [u8]) -> Result<usize, LinkFailed> {
        match hear(&mut self.peer, out) {
            Ok(count) => Ok(count),
            Err(_) => {
                count_fault(&mut self.link_faults);
                Err(LinkFailed)
            }
        }
    }

    fn say(&mut self, bytes: &[u8]) -> Result<(), LinkFailed> {
        let answer = say(&mut self.peer, bytes);
        counted(answer, &mut self.link_faults, LinkFailed)
    }

    fn close_peer(&mut self) {
        self.peer = None;
    }
}

impl<R: Net<Stream = TcpStream>> Caller for DialSite<R> {
    ghost dial_fails = { λ _ _ _ _. Unit {0} };

    fn dial(&mut self, port: u16) -> Result<(), LinkFailed> {
        match Exchange::dial(&self.net, port) {
            Ok(exchange) => {
                self.peer = Some(exchange);
                Ok(())
            }
            Err(_) => {
                count_fault(&mut self.link_faults);
                Err(LinkFailed)
            }
        }
    }
}

fn hear(peer: &mut Option<Exchange>, out: &mut [u8]) -> io::Result<usize>
    ensures bound { ReadsAtMost result out.new }
    ensures stays { is_some peer.new ≡ is_some peer.old }
{
    match peer {
        Some(exchange) => exchange.hear(out),
        None => Err(io::Error::from(ErrorKind::NotConnected)),
    }
}

fn say(peer: &mut Option<Exchange>, bytes: &[u8]) -> io::Result<()>
    ensures { is_some peer.new ≡ is_some peer.old }
{
    match peer {
        Some(exchange) => exchange.say(bytes),
        None => Err(io::Error::from(ErrorKind::NotConnected)),
    }
}
