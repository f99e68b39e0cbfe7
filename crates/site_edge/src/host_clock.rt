//! The machine's clock.
ghost use Rattle.std.specs.Prelude.{◌≡◌, ◌/◌, [], false, min, IfOk, OnErr};
ghost use Rattle.std.specs.Duration.{as_nanos};
ghost use Rattle.site_edge.specs.Clocks.{IsMoment};

use crate::{Clock, LAST_MOMENT};
use std::io;
use std::marker::Model;
use std::rt::Clock as MachineClock;
use std::time::Duration;

const NANOS_PER_SECOND: u64 = 1_000_000_000;

/// Gives the machine's time, cut to the range of moments. Where a reading fails it gives the moment
/// before, and 0 at first. It tells none. Contracts see the moment that it gave last.
#[derive(Drop)]
pub struct HostClock<R: MachineClock> {
    machine: R,
    last: u64,
}

impl<R: MachineClock> Model for HostClock<R> {
    ghost use Rattle.std.specs.Prelude.{ℕ};
    ghost use Rattle.site_edge.specs.Clocks.{IsMoment};

    ghost Value = { ℕ };

    ghost view = { λ c. c.last };

    ghost invariant = { λ c. IsMoment c.last };
}

impl<R: MachineClock> HostClock<R> {
    pub fn new(machine: R) -> HostClock<R>
        ensures { result ≡ 0 }
    {
        HostClock { machine, last: 0 }
    }
}

impl<R: MachineClock> Clock for HostClock<R> {
    ghost tells = { λ _. false };

    ghost given = { λ _. [] };

    fn now(&mut self) -> u64 {
        self.last = moment_of(self.machine.since_1970(), self.last);
        self.last
    }
}

/// The moment of this reading, or the moment before where it failed.
fn moment_of(reading: io::Result<Duration>, before: u64) -> u64
    requires { IsMoment before }
    ensures moment { IsMoment result }
    ensures read { IfOk reading
        (λ time. result ≡ min (as_nanos time / NANOS_PER_SECOND) LAST_MOMENT) }
    ensures failed { OnErr reading (result ≡ before) }
{
    match reading {
        Ok(time) => time.as_secs().min(LAST_MOMENT),
        Err(_) => before,
    }
}
