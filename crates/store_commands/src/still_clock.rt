//! A clock that stands.
ghost use Rattle.std.specs.Prelude.{◌≡◌, ◌<◌, ◌+◌, ◌^◌, ◌∷◌, ◌++◌, [], Some, true, length};
ghost use Rattle.site_edge.specs.Clocks.{IsMoment};
ghost use Rattle.store_commands.specs.Standing.{tells_zeros, zeros_given};

use site_edge::Clock;

/// Gives moment 0 at each call. It counts its calls, and tells none once there were more than a `u64` counts.
#[derive(Drop)]
pub(crate) struct StillClock {
    calls: Option<u64>,
}

impl StillClock {
    /// A clock that gave no moment yet.
    pub(crate) fn new() -> StillClock
        ensures { result.calls ≡ Some 0 }
    {
        StillClock { calls: Some(0) }
    }
}

impl Clock for StillClock {
    ghost tells = { tells_zeros };

    ghost given = { zeros_given };

    fn now(&mut self) -> u64
        ensures moment { IsMoment result }
        ensures told_before { tells_zeros self.new ≡ true → tells_zeros self.old ≡ true }
        ensures lasts { tells_zeros self.old ≡ true → length (zeros_given self.old) + 1 < 2 ^ 64
            → tells_zeros self.new ≡ true }
        ensures given { tells_zeros self.new ≡ true
            → zeros_given self.new ≡ zeros_given self.old ++ result ∷ [] }
    {
        let calls = self.calls.unwrap_or(u64::MAX);
        self.calls = calls.checked_add(1);
        0
    }
}
