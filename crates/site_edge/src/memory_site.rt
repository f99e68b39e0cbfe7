//! A site in memory: a disk in memory, and peers whose bytes are given beforehand.
ghost use Rattle.std.specs.Prelude.{false, true, is_ok, take, [], ◌++◌, ◌↔◌, ◌≡◌, ◌<◌, ◌≤◌, ◌+◌, ◌^◌, ◌&&◌, length, map, if◌then◌else◌, IfOk, IfSome, IsSome, IsTrue, MatchOption, None, OnErr, OnOk, Some, slice_get};
ghost use Rattle.disk_trait.specs.Device.{told_by};
ghost use Rattle.disk_trait.specs.Calls.{IsCounted, LeavesOnly, Unchanged};
ghost use Rattle.disk_trait.specs.History.{kept_bytes, seen_of};
ghost use Rattle.disk_trait.specs.MemoryDisk.{memory_device};
ghost use Rattle.site_edge.specs.Links.{LinkCall, Begins, DialStep, HasDialled, Tells, SiteHeard, Said, NextPeer, Closed, change_last};
ghost use Rattle.site_edge.specs.Lines.{heard_more, with_passed, told_more, unheard_once, with_changed_connection};
ghost use Rattle.site_edge.specs.MemorySite.{IsKeptBySite, SiteCalled, SiteDialled, after_close, after_dial, after_heard, after_next, after_tell, connections_of, is_one_left, fresh_site, none_missed, rest_of_last, sent_by, site_device, told_also, told_of};

use crate::line::Line;
use crate::placed_dial::PlacedDial;
use crate::span::{Added, ToldSpan};
use crate::tally::{Tally, count, count_dial, count_peer, has_number, passes};
use crate::{Caller, LinkFailed, PeerList, Site};
use disk_trait::{Disk, Failed, Memory, MemoryDisk, NumberList, Text};
use std::alloc::Global;
use std::marker::Model;

/// The number of ports.
const PORTS: usize = 65_536;

/// A site in memory whose calls of `next_peer`, `hear` and `say` are numbered from 1.
#[derive(Drop)]
pub struct MemorySite {
    alloc: Global,
    disk: MemoryDisk,
    tally: Tally,
    lines: Vec<Line>,
    waiting: Vec<Text>,
    piece: usize,
    under_way: bool,
    closed: u64,
    dialled: Vec<PlacedDial>,
    missed: [bool; PORTS],
    spans: Vec<ToldSpan>,
    since: u64,
}

impl Model for MemorySite {
    ghost use Rattle.site_edge.specs.MemorySite.{IsKeptBySite, SiteState, placed_dials};

    ghost Value = { SiteState };

    ghost view = { λ s. record {
      disk = s.disk;
      tally = s.tally;
      talks = s.lines.items;
      waiting = s.waiting.items;
      piece = s.piece;
      under_way = s.under_way;
      closed = s.closed;
      dials = record { begun = placed_dials s.dialled.items; missed = s.missed };
      spans = s.spans.items;
      since = s.since;
    } };

    ghost invariant = { λ s. IsKeptBySite (record {
      disk = s.disk;
      tally = s.tally;
      talks = s.lines.items;
      waiting = s.waiting.items;
      piece = s.piece;
      under_way = s.under_way;
      closed = s.closed;
      dials = record { begun = placed_dials s.dialled.items; missed = s.missed };
      spans = s.spans.items;
      since = s.since;
    }) };
}

impl MemorySite {
    /// A site over this disk. The peers come in order, one `hear` gives at most `piece` bytes, and
    /// the link calls with these numbers fail. It takes no memory.
    pub fn new(
        alloc: Global,
        disk: MemoryDisk,
        peers: PeerList,
        piece: usize,
        fail: NumberList,
    ) -> MemorySite
        requires { 0 < piece }
        ensures site { result ≡ fresh_site disk peers piece fail }

        // Where a crash of the disk leaves what a read gives, one of the site does so too.
        ensures durable { LeavesOnly (seen_of disk.past) (memory_device disk)
            → LeavesOnly (seen_of disk.past) (site_device result) }
    {
        MemorySite {
            alloc,
            disk,
            tally: Tally {
                fail,
                made: 0,
                starved: 0,
                faults: 0,
                peer_faults: 0,
            },
            lines: Vec::new(alloc),
            waiting: peers.into_vec(),
            piece,
            under_way: false,
            closed: 0,
            dialled: Vec::new(alloc),
            missed: no_port(),
            spans: Vec::new(alloc),
            since: 0,
        }
    }

    /// How often a link call found no memory, or had no number. Such a call fails, and nothing else
    /// comes of it than of a failing call that sends nothing.
    pub fn starved(&self) -> u64
        ensures { result ≡ self.now.tally.starved }
    {
        self.tally.starved
    }

    /// How many peers came so far.
    pub fn connections(&self) -> usize
        ensures { result ≡ length (connections_of self.now) }
    {
        self.lines.len()
    }

    /// What was heard of the peer of this number. The peers count from 0.
    pub fn heard(&self, peer: usize) -> &[u8]
        requires { peer < length (connections_of self.now) }
        ensures { slice_get (map (λ c. c.heard) (connections_of self.now)) peer ≡ Some result.now }
    {
        self.lines[peer].heard()
    }

    /// Whether the end of this peer's bytes was heard.
    pub fn has_ended(&self, peer: usize) -> bool
        requires { peer < length (connections_of self.now) }
        ensures { slice_get (map (λ c. c.ended) (connections_of self.now)) peer ≡ Some result }
    {
        self.lines[peer].has_ended()
    }

    /// What the peer of this number was told. The peers count from 0.
    pub fn said(&self, peer: usize) -> &[u8]
        requires { peer < length (connections_of self.now) }
        ensures { slice_get (told_by (site_device self.now)) peer ≡ Some result.now }
    {
        self.lines[peer].told()
    }

    pub fn disk(&self) -> &MemoryDisk
        ensures { result.now ≡ self.now.disk }
    {
        &self.disk
    }

    /// Begins the connection of the next peer, and says whether one was left.
    fn begin_next(&mut self) -> Result<bool, Memory>
        ensures ok { OnOk result (self.new ≡ after_next self.old) }
        ensures came { IfOk result (λ came. came ≡ is_one_left self.old.waiting) }
        ensures err { OnErr result (self.new ≡ self.old) }
    {
        if self.waiting.is_empty() {
            self.under_way = false;
            self.closed = self.closed.saturating_add(1);
            return Ok(false);
        }
        self.lines.reserve(1)?;
        let ended = ToldSpan {
            from: self.since,
            to: self.disk.calls(),
            adds: Added::Peer,
        };
        self.spans.push(ended)?;
        let sends = self.waiting.remove(0);
        self.lines.push(Line::new(self.alloc, sends))?;
        self.since = self.disk.calls();
        self.under_way = true;
        Ok(true)
    }

    /// Begins the connection of the next peer where the call passes by its number. None where the
    /// call has no number or there is no memory.
    fn try_next(&mut self, passes: bool) -> Option<bool>
        requires { IsTrue passes → self.old.tally.made + 1 < 2 ^ 64 }
        ensures numbered { IsSome result → self.old.tally.made + 1 < 2 ^ 64 }
        ensures next { MatchOption result (self.new ≡ self.old)
            (λ _. self.new ≡ (if passes then after_next self.old else self.old)) }
        ensures came { IfSome result (λ came. came ≡ (passes && is_one_left self.old.waiting)) }
    {
        if passes {
            self.begin_next().ok()
        } else {
            has_number(&self.tally).then_some(false)
        }
    }

    /// Begins the connection of the next peer at this port, and says whether one was left. None where there is no
    /// memory.
    fn try_dial(&mut self, port: u16) -> Option<bool>
        ensures dialled { IfSome result (λ began.
            self.new ≡ (if began then after_dial port true self.old else self.old)) }
        ensures began { IfSome result (λ began. began ≡ is_one_left self.old.waiting) }
        ensures none { result ≡ None → self.new ≡ self.old }
        ensures kept { IsKeptBySite self.old }
    {
        if self.waiting.is_empty() {
            return Some(false);
        }
        let place = self.lines.len();
        self.dialled.push(PlacedDial { place, port }).ok()?;
        if self.begin_next().is_err() {
            self.dialled.pop();
            return None;
        }
        Some(true)
    }

    /// Hears some bytes of the last peer where the call passes by its number. None where the call has no number or
    /// there is no memory.
    fn try_hear(&mut self, out: &mut [u8], passes: bool) -> Option<usize>
        requires some { 0 < length self.old.talks }
        requires not_empty { 0 < length out.old }
        requires numbered { IsTrue passes → self.old.tally.made + 1 < 2 ^ 64 }
        ensures numbered { IsSome result → self.old.tally.made + 1 < 2 ^ 64 }
        ensures heard { MatchOption result (self.new ≡ self.old)
            (λ count. self.new ≡ (if passes then after_heard count out.new self.old else self.old)) }
        ensures within { IfSome result (λ count. count ≤ length out.old) }
        ensures piece { IfSome result (λ count. count ≤ self.old.piece) }
        ensures end { passes ≡ true → IfSome result (λ count.
            (count ≡ 0) ↔ (rest_of_last self.old.talks ≡ [])) }
        ensures bytes { passes ≡ true → IfSome result (λ count.
            take count out.new ≡ take count (rest_of_last self.old.talks)) }
    {
        if passes {
            hear_last(&mut self.lines, out, self.piece).ok()
        } else {
            has_number(&self.tally).then_some(0)
        }
    }

    /// Tells the last peer these bytes.
    fn tell(&mut self, bytes: &[u8]) -> Result<(), Memory>
        requires { 0 < length self.old.talks }
        ensures ok { OnOk result (self.new ≡ after_tell bytes.now self.old) }
        ensures err { OnErr result (self.new ≡ self.old) }
    {
        self.spans.reserve(1)?;
        let adds = Added::Bytes(Text::from_bytes(self.alloc, bytes)?);
        tell_last(&mut self.lines, bytes)?;
        let ended = ToldSpan {
            from: self.since,
            to: self.disk.calls(),
            adds,
        };
        self.spans.push(ended)?;
        self.since = self.disk.calls();
        Ok(())
    }

    /// Tells the last peer these bytes, if the call has a number and there is memory.
    fn try_tell(&mut self, bytes: &[u8]) -> bool
        requires { 0 < length self.old.talks }
        ensures numbered { IsTrue result → self.old.tally.made + 1 < 2 ^ 64 }
        ensures told { self.new ≡ (if result then after_tell bytes.now self.old else self.old) }
    {
        has_number(&self.tally) && self.tell(bytes).is_ok()
    }
}

impl Disk for MemorySite {
    ghost use Rattle.site_edge.specs.MemorySite.{site_device, SiteDiskCalled};
    ghost use Rattle.site_edge.specs.MemorySiteLaws.{site_device_is_sound};

    ghost device = { site_device };

    ghost fails = { SiteDiskCalled };

    ghost sound = { site_device_is_sound };

    fn len(&self) -> u64 {
        self.disk.len()
    }

    fn read_at(&mut self, at: u64, out: &mut [u8]) -> Result<(), Failed> {
        self.disk.read_at(at, out)
    }

    fn write_at(&mut self, at: u64, bytes: &[u8]) -> Result<(), Failed> {
        self.disk.write_at(at, bytes)
    }

    fn sync(&mut self) -> Result<(), Failed> {
        self.disk.sync()
    }
}

impl Site for MemorySite {
    ghost use Rattle.site_edge.specs.MemorySite.{SiteCalled};

    ghost link_fails = { SiteCalled };

    fn next_peer(&mut self) -> Result<bool, LinkFailed>
        ensures call { LinkCall (Begins result) (Begins result) (is_ok result)
            (site_device self.old) (site_device self.new) }
        ensures peers { IsCounted (is_ok result)
            self.old.tally.peer_faults self.new.tally.peer_faults }
        ensures next { NextPeer result (site_device self.old) (site_device self.new) }
        ensures fails { SiteCalled self.old self.new (is_ok result) }

        // A connection begins exactly where a peer is left.
        ensures came { IfOk result (λ came. came ≡ is_one_left self.old.waiting) }
    {
        let passes = passes(&self.tally);
        let came = self.try_next(passes);
        count_peer(&mut self.tally, came.is_some(), passes)?;
        Ok(came.unwrap_or(false))
    }

    fn hear(&mut self, out: &mut [u8]) -> Result<usize, LinkFailed>
        requires under_way { self.old.under_way ≡ true }
        requires not_empty { 0 < length out.old }
        ensures within { IfOk result (λ count. count ≤ length out.old) }
        ensures call { LinkCall Unchanged Unchanged (is_ok result)
            (site_device self.old) (site_device self.new) }
        ensures heard { SiteHeard result out.new (site_device self.old) (site_device self.new) }
        ensures fails { SiteCalled self.old self.new (is_ok result) }

        // The next bytes of the peer, at most a piece of them; 0 exactly at their end.
        ensures piece { IfOk result (λ count. count ≤ self.old.piece) }
        ensures end { IfOk result (λ count. (count ≡ 0) ↔ (rest_of_last self.old.talks ≡ [])) }
        ensures bytes { IfOk result (λ count.
            take count out.new ≡ take count (rest_of_last self.old.talks)) }
    {
        let passes = passes(&self.tally);
        let heard = self.try_hear(out, passes);
        match count(&mut self.tally, heard.is_some(), passes) {
            Ok(()) => Ok(heard.unwrap_or(0)),
            Err(failed) => {
                unhear_last(&mut self.lines);
                Err(failed)
            }
        }
    }

    fn say(&mut self, bytes: &[u8]) -> Result<(), LinkFailed>
        requires { self.old.under_way ≡ true }
        ensures call { LinkCall (Tells false bytes.now) (Tells (is_ok result) bytes.now)
            (is_ok result) (site_device self.old) (site_device self.new) }
        ensures said { Said (is_ok result) bytes.now (site_device self.old) (site_device self.new) }
        ensures fails { SiteCalled self.old self.new (is_ok result) }

        // All bytes, the first half of them where its number fails, or none where it was starved.
        ensures sent { told_of self.new ≡ told_also
            (sent_by self.old self.new (is_ok result) bytes.now) (told_of self.old) }
    {
        let passes = passes(&self.tally);
        let noted = self.try_tell(sent_of(bytes, passes));
        let answer = count(&mut self.tally, noted, passes);
        mark_last(&mut self.lines, answer.is_ok());
        answer
    }

    fn close_peer(&mut self)
        requires { self.old.under_way ≡ true }
        ensures call { LinkCall Unchanged Unchanged true
            (site_device self.old) (site_device self.new) }
        ensures closed { Closed (site_device self.old) (site_device self.new) }
        ensures after { self.new ≡ after_close self.old }
    {
        self.under_way = false;
    }
}

impl Caller for MemorySite {
    ghost use Rattle.site_edge.specs.MemorySite.{SiteDialled};

    ghost dial_fails = { λ _. SiteDialled };

    fn dial(&mut self, port: u16) -> Result<(), LinkFailed>
        ensures call { LinkCall (DialStep (is_ok result)) (DialStep (is_ok result)) (is_ok result)
            (site_device self.old) (site_device self.new) }
        ensures dialled { HasDialled (is_ok result) port (site_device self.old)
            (site_device self.new) }
        ensures fails { SiteDialled self.old self.new (is_ok result) }
    {
        let began = self.try_dial(port);
        if began == Some(true) {
            return Ok(());
        }
        count_dial(&mut self.tally, began.is_none());
        self.missed[usize::from(port)] = true;
        Err(LinkFailed)
    }
}

/// The bytes that a `say` sends: all of them, or their first half where it fails.
fn sent_of(bytes: &[u8], passes: bool) -> &[u8]
    ensures { result.now ≡ kept_bytes passes bytes.now }
{
    if passes {
        bytes
    } else {
        bytes.split_at(bytes.len() / 2).0
    }
}

/// Marks the last connection, unless the call on it passed.
fn mark_last(lines: &mut Vec<Line>, passed: bool)
    requires { 0 < length lines.old.items }
    ensures { lines.new.items ≡ change_last (with_changed_connection (with_passed passed)) lines.old.items }
{
    let last = lines.len() - 1;
    lines[last].mark(passed);
}

/// Marks the last connection as one on which a hearing failed.
fn unhear_last(lines: &mut Vec<Line>)
    requires { 0 < length lines.old.items }
    ensures { lines.new.items ≡ change_last (with_changed_connection unheard_once) lines.old.items }
{
    let last = lines.len() - 1;
    lines[last].mark_unheard();
}

fn hear_last(lines: &mut Vec<Line>, out: &mut [u8], piece: usize) -> Result<usize, Memory>
    requires some { 0 < length lines.old.items }
    requires not_empty { 0 < length out.old }
    requires piece { 0 < piece }
    ensures within { IfOk result (λ count. count ≤ length out.old) }
    ensures piece { IfOk result (λ count. count ≤ piece) }
    ensures end { IfOk result (λ count. (count ≡ 0) ↔ (rest_of_last lines.old.items ≡ [])) }
    ensures bytes { IfOk result (λ count.
        take count out.new ≡ take count (rest_of_last lines.old.items)) }
    ensures heard { IfOk result (λ count. lines.new.items
        ≡ change_last (with_changed_connection (heard_more count out.new)) lines.old.items) }
    ensures err { OnErr result (lines.new.items ≡ lines.old.items) }
{
    let last = lines.len() - 1;
    lines[last].hear(out, piece)
}

fn tell_last(lines: &mut Vec<Line>, bytes: &[u8]) -> Result<(), Memory>
    requires { 0 < length lines.old.items }
    ensures ok { OnOk result (lines.new.items
        ≡ change_last (with_changed_connection (told_more bytes.now)) lines.old.items) }
    ensures err { OnErr result (lines.new.items ≡ lines.old.items) }
{
    let last = lines.len() - 1;
    lines[last].tell(bytes)
}

/// No port is marked.
fn no_port() -> [bool; PORTS]
    ensures { result ≡ none_missed }
{
    [false; PORTS]
}
