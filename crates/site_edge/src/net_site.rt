//! A real file whose peers come over TCP, one at a time. It tells nothing of content.
ghost use Rattle.std.specs.Prelude.{◌≡◌, false, is_ok, is_some};
ghost use Rattle.std.specs.Io.{ReadsAtMost};
ghost use Rattle.site_edge.specs.Files.{net_site_device, net_site_device_is_sound};

use crate::connection::Connection;
use crate::fault::{count_fault, counted};
use crate::{Aside, Caller, LinkFailed, Site, StoreFile};
use disk_trait::{Disk, Failed};
use std::io;
use std::io::ErrorKind;
use std::marker::Model;
use std::net::TcpListener;

/// A store's file, whose peers connect to a listener.
#[derive(Drop)]
pub struct NetSite {
    file: StoreFile,
    listener: TcpListener,
    peer: Option<Connection>,
    link_faults: u64,
    peer_faults: u64,
    aside: Option<Aside>,
}

impl Model for NetSite {
    ghost use Rattle.std.specs.Prelude.{is_some};
    ghost use Rattle.site_edge.specs.Files.{NetSiteState};

    ghost Value = { NetSiteState };

    ghost view = { λ s. record {
      file = s.file;
      link_faults = s.link_faults;
      peer_faults = s.peer_faults;
      under_way = is_some s.peer;
    } };
}

impl NetSite {
    /// The site over this file, of which no peer was waited for yet.
    pub fn new(file: StoreFile, listener: TcpListener) -> NetSite
        ensures { result
            ≡ record { file = file; link_faults = 0; peer_faults = 0; under_way = false } }
    {
        NetSite {
            file,
            listener,
            peer: None,
            link_faults: 0,
            peer_faults: 0,
            aside: None,
        }
    }

    /// Once it waits for its first peer it says there where it listens.
    pub fn announce_to(&mut self, aside: Aside)
        ensures { self.new ≡ self.old }
    {
        self.aside = Some(aside);
    }

    /// Says where it listens, if that wasn't said yet and is to be.
    fn announce(&mut self)
        ensures { self.new ≡ self.old }
    {
        self.file.end_progress();
        if let Some(aside) = &self.aside
            && let Ok(address) = self.listener.local_addr()
        {
            aside.put(format_args!("listening on {address}"));
        }
        self.aside = None;
    }
}

impl Disk for NetSite {
    ghost device = { net_site_device };

    ghost fails = { λ _ _ _ _. Unit {0} };

    ghost sound = { net_site_device_is_sound };

    fn len(&self) -> u64 {
        self.file.len()
    }

    fn read_at(&mut self, at: u64, out: &mut [u8]) -> Result<(), Failed> {
        self.file.read_at(at, out)
    }

    fn write_at(&mut self, at: u64, bytes: &[u8]) -> Result<(), Failed> {
        self.file.write_at(at, bytes)
    }

    fn sync(&mut self) -> Result<(), Failed> {
        self.file.sync()
    }
}

impl Site for NetSite {
    ghost link_fails = { λ _ _ _. Unit {0} };

    fn next_peer(&mut self) -> Result<bool, LinkFailed> {
        self.announce();
        match Connection::accept(&self.listener) {
            Ok(connection) => {
                self.peer = Some(connection);
                Ok(true)
            }
            Err(_) => {
                count_fault(&mut self.link_faults);
                count_fault(&mut self.peer_faults);
                Err(LinkFailed)
            }
        }
    }

    fn hear(&mut self, out: &mut [u8]) -> Result<usize, LinkFailed> {
        match hear(&mut self.peer, &self.listener, out) {
            Ok(count) => Ok(count),
            Err(_) => {
                count_fault(&mut self.link_faults);
                Err(LinkFailed)
            }
        }
    }

    fn say(&mut self, bytes: &[u8]) -> Result<(), LinkFailed> {
        let answer = say(&mut self.peer, bytes);
        counted(answer, &mut self.link_faults, LinkFailed)
    }

    fn close_peer(&mut self) {
        if let Some(connection) = &mut self.peer {
            let _ = connection.part();
        }
        self.peer = None;
    }
}

impl Caller for NetSite {
    ghost dial_fails = { λ _ _ _ _. Unit {0} };

    /// Its peers come by themselves, so each dial fails.
    fn dial(&mut self, _: u16) -> Result<(), LinkFailed> {
        count_fault(&mut self.link_faults);
        Err(LinkFailed)
    }
}

fn hear(peer: &mut Option<Connection>, listener: &TcpListener, out: &mut [u8]) -> io::Result<usize>
    ensures bound { ReadsAtMost result out.new }
    ensures stays { is_some peer.new ≡ is_some peer.old }
{
    match peer {
        Some(connection) => connection.hear(listener, out),
        None => Err(io::Error::from(ErrorKind::NotConnected)),
    }
}

fn say(peer: &mut Option<Connection>, bytes: &[u8]) -> io::Result<()>
    ensures { is_some peer.new ≡ is_some peer.old }
{
    match peer {
        Some(connection) => connection.say(bytes),
        None => Err(io::Error::from(ErrorKind::NotConnected)),
    }
}
