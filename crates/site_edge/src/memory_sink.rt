//! A sink in memory.
ghost use Rattle.std.specs.Prelude.{◌≡◌, ◌++◌, ◌≤◌, ◌<◌, IsTrue, IsFalse, true, if◌then◌else◌};
ghost use Rattle.disk_trait.specs.Calls.{IsCounted};
ghost use Rattle.site_edge.specs.MemorySink.{empty_sink, PutEnds};

use crate::fault::count_fault;
use crate::{Sink, SinkFailed};
use std::alloc::Global;
use std::marker::Model;

/// Keeps the bytes that it takes. Each call fails where it is broken; one that finds no memory is
/// starved, and fails too. A call that fails takes nothing.
#[derive(Drop)]
pub struct MemorySink {
    taken: Vec<u8>,
    broken: bool,
    faults: u64,
    starved: u64,
}

impl Model for MemorySink {
    ghost use Rattle.site_edge.specs.MemorySink.{SinkState};

    ghost Value = { SinkState };

    ghost view = { λ s. record {
      taken = s.taken.items;
      broken = s.broken;
      faults = s.faults;
      starved = s.starved;
    } };
}

impl MemorySink {
    pub fn new(alloc: Global, broken: bool) -> MemorySink
        ensures { result ≡ empty_sink broken }
    {
        MemorySink {
            taken: Vec::new(alloc),
            broken,
            faults: 0,
            starved: 0,
        }
    }

    /// The bytes that it took.
    pub fn bytes(&self) -> &[u8]
        ensures { result.now ≡ self.now.taken }
    {
        self.taken.as_slice()
    }

    /// How many calls found no memory, up to the last value of a `u64`.
    pub fn starved(&self) -> u64
        ensures { result ≡ self.now.starved }
    {
        self.starved
    }
}

impl Sink for MemorySink {
    ghost faults = { λ s. s.faults };

    ghost tells = { λ _. true };

    ghost taken = { λ s. s.taken };

    ghost fails = { PutEnds };

    fn put(&mut self, bytes: &[u8]) -> Result<(), SinkFailed> {
        if !self.broken && grow(&mut self.taken, &mut self.starved, bytes) {
            return Ok(());
        }
        count_fault(&mut self.faults);
        Err(SinkFailed)
    }
}

/// Takes these bytes, or counts a starved call.
fn grow(taken: &mut Vec<u8>, starved: &mut u64, bytes: &[u8]) -> bool
    ensures taken { taken.new.items
        ≡ (if result then taken.old.items ++ bytes.now else taken.old.items) }
    ensures starved { IsCounted result starved.old starved.new }
{
    let grown = taken.extend_from_slice(bytes).is_ok();
    if !grown {
        count_fault(starved);
    }
    grown
}
