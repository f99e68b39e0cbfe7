//! Random places, the same in each run.

/// Numbers of a linear congruence modulo 2^64, and how many places there are.
#[derive(Drop)]
pub(crate) struct Places {
    state: u64,
    count: u64,
}

impl Places {
    pub(crate) fn new(count: u64) -> Places {
        Places { state: 1, count }
    }

    /// The next place, below the count.
    pub(crate) fn next(&mut self) -> u64 {
        self.state = self
            .state
            .wrapping_mul(6_364_136_223_846_793_005)
            .wrapping_add(1_442_695_040_888_963_407);
        if self.count == 0 {
            return 0;
        }
        (self.state >> 33) % self.count
    }
}
