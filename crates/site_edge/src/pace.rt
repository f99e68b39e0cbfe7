//! Whether a peer keeps pace.
use crate::limits::{PATIENCE, STRETCH};

/// How long a peer was waited for in the stretch of bytes under way, and how many of them it moved. Time in which
/// nobody waited for it doesn't count.
#[derive(Clone, Copy)]
pub(crate) struct Pace {
    waited: u64,
    moved: u64,
}

impl Pace {
    /// At the beginning of a stretch.
    pub(crate) fn new() -> Pace {
        Pace {
            waited: 0,
            moved: 0,
        }
    }

    /// Counts so many microseconds of waiting.
    pub(crate) fn wait(&mut self, micros: u64) {
        self.waited = self.waited.saturating_add(micros);
    }

    /// Counts so many bytes, and begins the next stretch behind the last byte of this one.
    pub(crate) fn move_on(&mut self, bytes: usize) {
        self.moved = self.moved.saturating_add(bytes as u64);
        if self.moved >= STRETCH {
            *self = Pace::new();
        }
    }

    /// The microseconds for which the peer may still be waited for.
    pub(crate) fn left(&self) -> u64 {
        PATIENCE.saturating_sub(self.waited)
    }
}
