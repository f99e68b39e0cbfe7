//! Where the notes of a run go.
ghost use Rattle.std.specs.Prelude.{◌≡◌, ℕ, List, Bool, true, is_ok};
ghost use Rattle.disk_trait.specs.Calls.{IsCounted};
ghost use Rattle.site_edge.specs.Sinks.{Puts};

use crate::SinkFailed;

/// A sink takes bytes, whole or a prefix of them where it fails. `SinkFailed` comes only where its count
/// of faults rose in the call, or stands at the last value of a `u64`.
pub trait Sink {
    ghost faults: { Self → ℕ };

    /// Whether it tells the bytes that it took.
    ghost tells: { Self → Bool };

    /// The bytes taken so far.
    ghost taken: { Self → List ℕ };

    /// What more a sink says of when its calls fail: the value before, the value after, and whether the
    /// call succeeded.
    ghost fails: { Self → Self → Bool → Type 0 };

    fn put(&mut self, bytes: &[u8]) -> Result<(), SinkFailed>
        ensures counted { IsCounted (is_ok result) (faults self.old) (faults self.new) }
        ensures tells { tells self.new ≡ tells self.old }
        ensures puts { tells self.old ≡ true
            → Puts (is_ok result) bytes.now (taken self.old) (taken self.new) }
        ensures fails { fails self.old self.new (is_ok result) };
}
