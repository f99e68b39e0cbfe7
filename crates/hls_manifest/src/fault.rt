//! Why a text couldn't be read.
ghost use Rattle.std.specs.Prelude.{◌≡◌};

use disk_trait::Memory;
use std::alloc::{AllocError, AllocFailed};

/// Why a text gives no listing.
#[derive(Clone, Copy, Debug, PartialEq, Eq)]
pub enum PlaylistFault {
    /// It is no playlist. The line of this number, counted from 1, is the first one with which the lines so far begin
    /// none; or the one behind the last, where all lines could still have become one.
    Line(u64),
    Memory,
}

impl From<Memory> for PlaylistFault {
    ghost use Rattle.hls_manifest.specs.declared.fault.PlaylistFault.TheVariants.{Memory};

    ghost from_gives = { λ _ e. e ≡ Memory };

    fn from(_: Memory) -> PlaylistFault {
        PlaylistFault::Memory
    }
}

impl From<AllocError> for PlaylistFault {
    ghost use Rattle.hls_manifest.specs.declared.fault.PlaylistFault.TheVariants.{Memory};

    ghost from_gives = { λ _ e. e ≡ Memory };

    fn from(_: AllocError) -> PlaylistFault {
        PlaylistFault::Memory
    }
}

impl<T: Drop> From<AllocFailed<T>> for PlaylistFault {
    ghost use Rattle.hls_manifest.specs.declared.fault.PlaylistFault.TheVariants.{Memory};

    ghost from_gives = { λ _ e. e ≡ Memory };

    fn from(_: AllocFailed<T>) -> PlaylistFault {
        PlaylistFault::Memory
    }
}
