//! A disk in memory. It keeps all its calls, fails at the calls that it is told, and knows what a
//! crash within each call may leave.
ghost use Rattle.std.specs.Prelude.{length as list_length, ◌≡◌, ◌<◌, ◌≤◌, ◌+◌, ◌-◌, ◌^◌, ◌&&◌, ◌↔◌, [], min, Bool, true, false, length, is_ok, IfOk, IsSomeAnd, IsTrue, IsFalse, Contains, replicate, if◌then◌else◌};
ghost use Rattle.disk_trait.specs.Calls.{LeavesOnly};
ghost use Rattle.disk_trait.specs.History.{range_length, seen_of, stopped};
ghost use Rattle.disk_trait.specs.MemoryDisk.{LeavesAt, memory_device, fresh_disk, counted_on, MakesCall};

use crate::bytes::copy_out;
use crate::history::{Call, History};
use crate::{Disk, Failed, Memory, NumberList, Text};
use std::alloc::Global;
use std::marker::Model;

/// A disk in memory whose calls of `read_at`, `write_at` and `sync` are numbered from 1.
#[derive(Drop)]
pub struct MemoryDisk {
    history: History,
    fail: NumberList,
    starved: u64,
}

impl Model for MemoryDisk {
    ghost use Rattle.disk_trait.specs.MemoryDisk.{DiskState};

    ghost Value = { DiskState };

    ghost view = { λ d. record { past = d.history; fail = d.fail; starved = d.starved } };
}

impl MemoryDisk {
    /// A disk of so many zeros, whose calls with these numbers fail.
    pub fn new(alloc: Global, length: u64, fail: NumberList) -> Result<MemoryDisk, Memory>
        ensures disk { IfOk result (λ disk. disk ≡ fresh_disk (replicate length 0) fail) }
        ensures durable { IfOk result (λ disk.
            LeavesOnly (replicate length 0) (memory_device disk)) }
    {
        let zeros = Text::from_vec(vec![in alloc; 0u8; length as usize]?);
        Ok(MemoryDisk::from_bytes(alloc, zeros, fail))
    }

    /// A disk with these bytes, whose calls with these numbers fail. It takes no memory, and at
    /// first nothing is pending.
    pub fn from_bytes(alloc: Global, bytes: Text, fail: NumberList) -> MemoryDisk
        ensures disk { result ≡ fresh_disk bytes fail }
        ensures durable { LeavesOnly bytes (memory_device result) }
    {
        MemoryDisk {
            history: History::new(alloc, bytes),
            fail,
            starved: 0,
        }
    }

    /// How often a call found no memory for its entry in the list of calls. Such a call fails, has
    /// no number and changes nothing else.
    pub fn starved(&self) -> u64
        ensures { result ≡ self.now.starved }
    {
        self.starved
    }

    /// How many calls have a number so far.
    pub fn calls(&self) -> u64
        ensures made { result ≡ length self.now.past.calls }
        ensures small { result < 2 ^ 63 }
    {
        self.history.made()
    }

    /// The bytes as a read gives them.
    pub fn image(&self) -> &[u8]
        ensures { result.now ≡ seen_of self.now.past }
    {
        self.history.bytes()
    }

    /// The length of the range of a call, where it was made. The calls count from 1.
    pub fn range_length(&self, call: u64) -> Option<u64>
        ensures { result ≡ range_length self.now.past call }
    {
        self.history.range_length(call)
    }

    /// The image of a stop within a call after `kept` bytes of its range, with all earlier calls
    /// done. The calls count from 1.
    pub fn stop_image(&self, alloc: Global, call: u64, kept: u64) -> Result<Text, Memory>
        requires { IsSomeAnd (range_length self.now.past call) (λ length. kept ≤ length) }
        ensures image { IfOk result (λ image. image ≡ stopped self.now.past call kept) }

        // A crash within the call may leave it.
        ensures leaves { IfOk result (LeavesAt self.now.past call) }
    {
        self.history.stop_image(alloc, call, kept)
    }

    fn make_read(&mut self, at: u64, length: u64) -> Result<(), Failed>
        requires { at + length ≤ list_length (seen_of self.old.past) }
        ensures { (passed : Bool)
            × MakesCall (Call.Read at length passed) self.old self.new (is_ok result) }
    {
        let passes = !is_listed(&self.fail, self.history.made() + 1);
        let call = Call::Read {
            at,
            length,
            passed: passes,
        };
        let noted = self.history.note(call).is_ok();
        answer(&mut self.starved, noted, passes)
    }

    fn make_write(&mut self, at: u64, bytes: &[u8]) -> Result<(), Failed>
        requires { at + length bytes.now ≤ length (seen_of self.old.past) }
        ensures { (passed : Bool)
            × MakesCall (Call.Write at bytes.now passed) self.old self.new (is_ok result) }
    {
        let passes = !is_listed(&self.fail, self.history.made() + 1);
        let noted = self.history.write(at, bytes, passes).is_ok();
        answer(&mut self.starved, noted, passes)
    }

    fn make_sync(&mut self) -> Result<(), Failed>
        ensures { (passed : Bool) × MakesCall (Call.Sync passed) self.old self.new (is_ok result) }
    {
        let passes = !is_listed(&self.fail, self.history.made() + 1);
        let call = Call::Sync { passed: passes };
        let noted = self.history.note(call).is_ok();
        answer(&mut self.starved, noted, passes)
    }
}

impl Disk for MemoryDisk {
    ghost use Rattle.disk_trait.specs.MemoryDisk.{memory_device, DiskCalled};
    ghost use Rattle.disk_trait.specs.MemoryDiskLaws.{memory_device_is_sound};

    ghost device = { memory_device };

    ghost fails = { DiskCalled };

    ghost sound = { memory_device_is_sound };

    fn len(&self) -> u64 {
        self.image().len() as u64
    }

    fn read_at(&mut self, at: u64, out: &mut [u8]) -> Result<(), Failed> {
        self.make_read(at, out.len() as u64)?;
        copy_out(self.image(), at as usize, out);
        Ok(())
    }

    fn write_at(&mut self, at: u64, bytes: &[u8]) -> Result<(), Failed> {
        self.make_write(at, bytes)
    }

    fn sync(&mut self) -> Result<(), Failed> {
        self.make_sync()
    }
}

fn is_listed(list: &NumberList, number: u64) -> bool
    ensures { IsTrue result ↔ Contains list.now number }
{
    list.numbers().contains(&number)
}

/// The answer of a call, which was starved where it wasn't noted.
fn answer(starved: &mut u64, noted: bool, passes: bool) -> Result<(), Failed>
    ensures answer { is_ok result ≡ (noted && passes) }
    ensures starved { starved.new ≡ (if noted then starved.old else counted_on starved.old) }
{
    if !noted {
        *starved = starved.saturating_add(1);
    }
    if noted && passes { Ok(()) } else { Err(Failed) }
}
